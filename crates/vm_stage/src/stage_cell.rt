ghost use Rattle.std.specs.Prelude.{◌≡◌, is_ok, OnOk, OnErr, IfErr};
ghost use Rattle.vm_stage.specs.Stage as spec;

use std::marker::Model;
use thiserror::Error;
use vm_law::Owned;

/// Which stage a vCPU is to move to.
#[derive(Clone, Copy, Debug, PartialEq, Eq)]
pub enum To {
    Idle,
    Frozen,
    Running,
    Sleeping,
}

/// The move isn't lawful: the vCPU is in the stage `from`, and stays there.
#[derive(Clone, Copy, Debug, PartialEq, Eq, Error)]
#[error("the vCPU's stage {from:?} doesn't allow this move")]
pub struct Refused {
    pub from: Owned,
}

/// The stage of a vCPU with its owner. Contracts see it as an `Owned`.
#[derive(Debug, Drop)]
pub struct StageCell {
    stage: Owned,
}

impl Model for StageCell {
    ghost use Rattle.vm_law.specs.declared.stage.Owned.{Owned};

    ghost Value = { Owned };

    ghost view = { λ cell. cell.stage };
}

impl StageCell {
    /// The stage of a vCPU that nobody owns.
    pub fn idle() -> StageCell
        ensures { result ≡ Owned.Idle }
    {
        StageCell { stage: Owned::Idle }
    }

    /// The stage as it is.
    pub fn now(&self) -> Owned
        ensures { result ≡ self.now }
    {
        self.stage
    }

    /// An equal stage.
    pub fn copy(&self) -> StageCell
        ensures { result ≡ self.now }
    {
        StageCell { stage: self.stage }
    }

    /// Moves to another stage, by the pass `by`. `Refused` comes exactly where the move isn't lawful: then the stage is
    /// as before, and it is told.
    ///
    /// Source: `vcpu_set_state_locked` of FreeBSD's sys/amd64/vmm/vmm.c.
    pub fn shift(&mut self, to: To, by: u16) -> Result<(), Refused>
        ensures lawful { is_ok result ≡ spec.is_lawful self.old by to }
        ensures moved { OnOk result (self.new ≡ spec.reached to by) }
        ensures kept { OnErr result (self.new ≡ self.old) }
        ensures told { IfErr result (λ refused. refused.from ≡ self.old) }
    {
        self.stage = match (self.stage, to) {
            (Owned::Idle, To::Frozen) => Owned::Frozen(by),
            (Owned::Frozen(owner), To::Idle) if owner == by => Owned::Idle,
            (Owned::Frozen(owner), To::Running) if owner == by => Owned::Running(by),
            (Owned::Frozen(owner), To::Sleeping) if owner == by => Owned::Sleeping(by),
            (Owned::Running(owner), To::Frozen) if owner == by => Owned::Frozen(by),
            (Owned::Sleeping(owner), To::Frozen) if owner == by => Owned::Frozen(by),
            (from, _) => return Err(Refused { from }),
        };
        Ok(())
    }
}

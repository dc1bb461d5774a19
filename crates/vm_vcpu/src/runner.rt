//! The runner.
ghost use Rattle.std.specs.Prelude.{◌≡◌, ◌+◌, ◌<◌, ◌≤◌, length, ◌||◌, IfOk};
ghost use Rattle.vm_state.specs.Machine.{cpu_count};
ghost use Rattle.vm_table.specs.Rounds as rounds;
ghost use Rattle.vm_vcpu.specs.Copies.{AreCopies, AreRenewed};
ghost use Rattle.vm_vcpu.specs.Fits.{RunnerFits};
ghost use Rattle.vm_vcpu.specs.New.{new_runner};
ghost use Rattle.vm_board.specs.Turn.{TakesTurn, some_entry, told};
ghost use Rattle.vm_vcpu.specs.Turn as turns;
ghost use Rattle.vm_vcpu.specs.View as view;

use crate::choosing::choose;
use crate::copies::Copies;
use crate::out::Phase;
use std::alloc::Global;
use std::marker::Model;
use vm_board::{Board, Did};
use vm_host::{Gate, Image, Place};
use vm_law::{Ctx, OutOfMemory, Owned};
use vm_state::ctx_from;
use vm_table::Run;

/// The runner of a vCPU.
#[derive(Drop)]
pub struct Runner {
    cpu: u8,
    by: u16,
    copies: Copies,
    phase: Phase,
    left: u16,
    count: u16,
    start: Ctx,
    ctx: Ctx,
}

impl Model for Runner {
    ghost use Rattle.vm_vcpu.specs.View.{RunnerView, out_of, runner_code};

    ghost Value = { RunnerView };

    ghost coded = { runner_code };

    ghost view = { λ r. record { cpu = r.cpu; by = r.by; copies = r.copies; out = out_of r.phase r.start r.left r.count r.ctx } };
}

impl Runner {
    /// A runner with copies of a code part at its start. It has nothing out.
    pub fn new(alloc: Global, cpu: u8, by: u16, code: &[u8]) -> Result<Runner, OutOfMemory>
        requires { length code.now ≤ 16777216 }
        ensures { IfOk result (λ r. r ≡ new_runner cpu by code.now) }
    {
        let copies = Copies::new(alloc, code)?;
        Ok(Runner {
            cpu,
            by,
            copies,
            phase: Phase::Nothing,
            left: 0,
            count: 0,
            start: ctx_from(0),
            ctx: ctx_from(0),
        })
    }

    /// Its vCPU.
    pub fn cpu(&self) -> u8
        ensures { result ≡ self.now.cpu }
    {
        self.cpu
    }

    /// Its pass.
    pub fn by(&self) -> u16
        ensures { result ≡ self.now.by }
    {
        self.by
    }

    /// Runs as many local instructions as its grant and its copies allow, where it has a context out.
    pub fn outside<G: Gate>(&mut self, gate: &G)
        ensures { self.new ≡ record self.old { out = view.ran_ahead self.old.copies self.old.out } }
    {
        if let Phase::Leased = self.phase {
            gate.at(Place::Slice { cpu: self.cpu });
            self.ctx = self.start;
            self.count = self.copies.run(&mut self.ctx, self.left);
            self.phase = Phase::Ran;
        }
    }

    /// Brings back what it ran ahead, adds the first lawful entry of its list, and takes its vCPU's context where the vCPU runs
    /// on.
    ///
    /// `Left` exactly where the run is closed then, or is ended while this pass owns nothing and no open meeting names the vCPU;
    /// else `Nothing` exactly where there was nothing to bring back and no lawful entry. On `Starved` memory was wanted, now or
    /// before, and nothing was added.
    pub fn turn<I: Image + Drop>(&mut self, alloc: Global, board: &mut Board<I>) -> Did
        requires fits { RunnerFits board.old.state self.old }
        ensures fits { RunnerFits board.new.state self.new }
        ensures numbers { (self.new.cpu ≡ self.old.cpu) × (self.new.by ≡ self.old.by) }
        ensures turn { TakesTurn board.old board.new (turns.has_left board.new.state self.new.cpu self.new.by) (turns.turn_adds board.old.state self.old) result }
        ensures images { board.new.images ≡ board.old.images }
        ensures takes { turns.Takes board.new.state self.old self.new result }
    {
        if board.starved() || board.reserve(alloc, 2).is_err() {
            board.starve();
            return Did::Starved;
        }
        self.turn_with_room(board)
    }

    /// The same where there is room for two entries.
    fn turn_with_room<I: Image + Drop>(&mut self, board: &mut Board<I>) -> Did
        requires fits { RunnerFits board.old.state self.old }
        requires room { 2 ≤ board.old.room }
        ensures fits { RunnerFits board.new.state self.new }
        ensures numbers { (self.new.cpu ≡ self.old.cpu) × (self.new.by ≡ self.old.by) }
        ensures grows { turns.Grows board.old board.new (turns.turn_adds board.old.state self.old) }
        ensures taken { turns.IsTaken board.new.state self.new }
        ensures told { result ≡ told (turns.has_left board.new.state self.new.cpu self.new.by) (some_entry (turns.turn_adds board.old.state self.old)) }
    {
        let added = self.add(board);
        self.take(board);
        let leaves = has_left(board.run(), self.cpu, self.by);
        Did::of(leaves, added)
    }

    /// Adds the entries of the turn, and says whether there are any.
    fn add<I: Image + Drop>(&mut self, board: &mut Board<I>) -> bool
        requires fits { RunnerFits board.old.state self.old }
        requires room { 2 ≤ board.old.room }
        ensures same { self.new ≡ self.old }
        ensures grows { turns.Grows board.old board.new (turns.turn_adds board.old.state self.old) }
        ensures some { result ≡ some_entry (turns.turn_adds board.old.state self.old) }
        ensures copies { AreCopies board.new.state self.old.copies }
        ensures there { self.old.cpu < cpu_count board.new.state.machine }
    {
        board.run().is_sound();
        board.is_sound();
        let brought = self.bring_back(board);
        let chose = choose(board, self.cpu, self.by);
        board.is_sound();
        either(brought, chose)
    }

    /// Brings back what it ran ahead, where each page that it looked at has kept its version, and says whether it did.
    fn bring_back<I: Image + Drop>(&mut self, board: &mut Board<I>) -> bool
        requires fits { RunnerFits board.old.state self.old }
        requires room { 1 ≤ board.old.room }
        ensures same { self.new ≡ self.old }
        ensures grows { turns.Grows board.old board.new (rounds.lease_back board.old.state self.old.cpu (view.lease_now self.old)) }
        ensures some { result ≡ some_entry (rounds.lease_back board.old.state self.old.cpu (view.lease_now self.old)) }
        ensures room { board.old.room ≤ board.new.room + 1 }
    {
        match self.phase {
            Phase::Ran => {
                if self.count == 0
                    || !self
                        .copies
                        .are_kept(board.run(), &self.start, self.count, self.left)
                {
                    return false;
                }
                board.is_sound();
                board.commit(self.by, self.cpu, self.count, self.ctx);
                true
            }
            Phase::Nothing | Phase::Leased => false,
        }
    }

    /// Renews its copies, and takes its vCPU's context where the vCPU runs and no Exit is due.
    fn take<I: Image + Drop>(&mut self, board: &Board<I>)
        requires copies { AreCopies board.now.state self.old.copies }
        requires there { self.old.cpu < cpu_count board.now.state.machine }
        requires pass { self.old.by ≡ 1 + self.old.cpu }
        ensures numbers { (self.new.cpu ≡ self.old.cpu) × (self.new.by ≡ self.old.by) }
        ensures copies { AreRenewed board.now.state self.new.copies }
        ensures out { self.new.out ≡ view.taken_out board.now.state self.new.cpu }
    {
        self.copies.renew(board);
        let run = board.run();
        if is_leased(run, self.cpu, self.by) {
            self.start = run.cpu(self.cpu).ctx;
            self.left = run.left(self.cpu);
            self.phase = Phase::Leased;
        } else {
            self.phase = Phase::Nothing;
        }
    }
}

fn either(a: bool, b: bool) -> bool
    ensures { result ≡ (a || b) }
{
    a || b
}

/// Whether the runner of a vCPU takes its context: the vCPU runs by the pass, and no Exit is due.
fn is_leased(run: &Run, cpu: u8, by: u16) -> bool
    requires there { cpu < cpu_count run.now.state.machine }
    requires pass { by ≡ 1 + cpu }
    ensures { result ≡ rounds.leases run.now.state cpu }
{
    run.cpu(cpu).is_running(by) && !run.exit_due(cpu)
}

/// Whether the pass owns a vCPU in this stage.
fn owns(stage: Owned, by: u16) -> bool
    ensures { result ≡ turns.owns stage by }
{
    match stage {
        Owned::Idle => false,
        Owned::Frozen(owner) | Owned::Running(owner) | Owned::Sleeping(owner) => owner == by,
    }
}

/// Whether the runner of a vCPU has no more to do.
#[tactic(auto, unfolding(crate::specs::Turn::has_left))]
fn has_left(run: &Run, cpu: u8, by: u16) -> bool
    requires { cpu < cpu_count run.now.state.machine }
    ensures { result ≡ turns.has_left run.now.state cpu by }
{
    run.closed()
        || run.ended().is_some()
            && !owns(run.cpu(cpu).stage.now(), by)
            && !run.machine().meet.names(cpu)
}

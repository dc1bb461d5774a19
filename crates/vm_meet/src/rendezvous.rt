ghost use Rattle.std.specs.Prelude.{◌≡◌, ◌≢◌, ◌↔◌, IsTrue, None, Some, is_err, is_some, IfSome, IfErr, OnOk, OnErr};
ghost use Rattle.std.specs.FinSet as set;
ghost use Rattle.vm_meet.specs.Meeting as spec;

use crate::meeting::Meeting;
use std::marker::Model;
use thiserror::Error;
use vm_law::{CpuSet, MeetKind};

/// A meeting is open already, this one.
#[derive(Debug, Drop, Error)]
#[error("a rendezvous is under way")]
pub struct UnderWay {
    pub meeting: Meeting,
}

/// At most one meeting. Contracts see the one that is open, or none.
#[derive(Debug, Drop)]
pub struct Meet {
    open: Option<Meeting>,
}

impl Model for Meet {
    ghost use Rattle.std.specs.Prelude.{Option, IfSome};
    ghost use Rattle.std.specs.Coded.{coded_option};
    ghost use Rattle.vm_meet.specs.declared.meeting.Meeting.{Meeting};
    ghost use Rattle.vm_meet.specs.contracts.meeting.Meeting.{the_row};
    ghost use Rattle.vm_meet.specs.Meeting.{IsOpen};

    ghost Value = { Option Meeting };

    ghost coded = { coded_option the_row.coded };

    ghost view = { λ meet. meet.open };

    ghost invariant = { λ meet. IfSome meet.open IsOpen };
}

impl Meet {
    /// No meeting is open.
    pub fn none() -> Meet
        ensures { result ≡ None }
    {
        Meet { open: None }
    }

    /// Opens a meeting of the vCPUs that are named, at least one, none of which is done. `UnderWay` comes exactly where
    /// one is open: it stays as it is, and is told.
    ///
    /// Source: `vm_smp_rendezvous` of FreeBSD's sys/amd64/vmm/vmm.c.
    pub fn start(&mut self, kind: MeetKind, by: u16, named: CpuSet) -> Result<(), UnderWay>
        requires { named ≢ set.empty }
        ensures under_way { is_err result ≡ is_some self.old }
        ensures opened { OnOk result (self.new ≡ Some (spec.opened kind by named)) }
        ensures kept { OnErr result (self.new ≡ self.old) }
        ensures told { IfErr result (λ e. self.old ≡ Some e.meeting) }
    {
        if let Some(meeting) = &self.open {
            return Err(UnderWay {
                meeting: meeting.copy(),
            });
        }
        self.open = Some(Meeting {
            kind,
            by,
            named,
            done: CpuSet::empty(),
        });
        Ok(())
    }

    /// A vCPU takes its turn: it is to be named and not done. True exactly where it was the last one, so that no meeting
    /// is open any more; else it is done, and the meeting goes on.
    ///
    /// Source: `vm_handle_rendezvous` of FreeBSD's sys/amd64/vmm/vmm.c.
    #[tactic(auto, using(crate::proofs::Turns::turns))]
    pub fn turn(&mut self, cpu: u8) -> bool
        requires { IsTrue (spec.awaits self.old cpu) }
        ensures closed { result ≡ spec.closes self.old cpu }
        ensures after { self.new ≡ spec.turned self.old cpu }
        ensures last { IsTrue result ↔ IfSome self.old (λ m. spec.done_with m cpu ≡ m.named) }
    {
        match &mut self.open {
            Some(meeting) => {
                meeting.named.is_small();
                let last = meeting.is_filled_by(cpu);
                if last {
                    self.open = None;
                } else {
                    meeting.done.insert(cpu);
                }
                last
            }
            None => false,
        }
    }

    /// Whether an open meeting names the vCPU.
    pub fn names(&self, cpu: u8) -> bool
        ensures { result ≡ spec.names self.now cpu }
    {
        match &self.open {
            Some(meeting) => meeting.names(cpu),
            None => false,
        }
    }

    /// Whether an open meeting waits for the vCPU: it is named and not done.
    pub fn awaits(&self, cpu: u8) -> bool
        ensures { result ≡ spec.awaits self.now cpu }
    {
        match &self.open {
            Some(meeting) => meeting.awaits(cpu),
            None => false,
        }
    }

    /// Whether a meeting is open that this pass opened.
    pub fn started_by(&self, pass: u16) -> bool
        ensures { result ≡ spec.started_by self.now pass }
    {
        match &self.open {
            Some(meeting) => meeting.by == pass,
            None => false,
        }
    }

    /// Whether a meeting is open.
    pub fn is_open(&self) -> bool
        ensures { result ≡ is_some self.now }
    {
        self.open.is_some()
    }

    /// An equal rendezvous.
    pub fn copy(&self) -> Meet
        ensures { result ≡ self.now }
    {
        Meet {
            open: self.current(),
        }
    }

    /// The open meeting, or none.
    pub fn current(&self) -> Option<Meeting>
        ensures value { result ≡ self.now }
        ensures open { IfSome result spec.IsOpen }
    {
        match &self.open {
            Some(meeting) => Some(meeting.copy()),
            None => None,
        }
    }
}

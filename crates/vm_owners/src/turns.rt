//! Turn.
ghost use Rattle.std.specs.Prelude.{◌≡◌, ◌<◌, ◌≤◌, IsTrue, length};
ghost use Rattle.vm_meet.specs.Meeting.{awaits};
ghost use Rattle.vm_state.specs.Machine as machine;
ghost use Rattle.vm_state.specs.Sound.{IsSoundState};
ghost use Rattle.vm_owners.specs.Turn as spec;

use vm_law::MeetKind;
use vm_state::{RunState, Sample};

/// Whether a frozen vCPU may take its turn in the rendezvous that is open: it is named and not done.
#[tactic(auto, unfolding(crate::specs::Turn::may_turn))]
pub fn may_turn(run: &RunState, by: u16, i: u8) -> bool
    ensures { result ≡ spec.may_turn run.now.state by i }
{
    run.machine.is_cpu(i) && run.machine.cpu(i).is_frozen(by) && run.machine.meet.awaits(i)
}

/// The vCPU takes over which vectors are level-triggered.
///
/// Source: `vioapic_update_tmr` of FreeBSD's sys/amd64/vmm/io/vioapic.c.
#[tactic(auto, unfolding(crate::specs::Turn::with_routing))]
fn renew_routing(run: &mut RunState, i: u8)
    requires cpu { i < machine.cpu_count run.old.state.machine }
    requires few { machine.cpu_count run.old.state.machine ≤ 16 }
    ensures { run.new ≡ record run.old { state = record run.old.state { machine = spec.with_routing run.old.state.machine i } } }
{
    let count = run.machine.cpu_count() as u8;
    let vectors = run.machine.ioapic.tmr(i, count);
    run.machine.cpu_mut(i).lapic.set_tmr(vectors);
}

/// What a vCPU does in its turn.
#[tactic(auto, unfolding(crate::specs::Turn::turn_taken))]
fn take_turn(run: &mut RunState, i: u8, kind: MeetKind)
    requires sound { IsSoundState run.old.state }
    requires cpu { i < machine.cpu_count run.old.state.machine }
    requires few { kind ≡ MeetKind.Sample → length run.old.state.samples < 16 }
    requires order { kind ≡ MeetKind.Sample → run.old.state.place < length run.old.state.script }
    ensures { run.new ≡ record run.old { state = spec.turn_taken run.old.state i kind } }
{
    match kind {
        MeetKind::Routing => renew_routing(run, i),
        MeetKind::Sample => {
            let ran = run.seat(i).ran;
            run.note(Sample { cpu: i, ran });
        }
    }
}

/// A vCPU for which the meeting waits is done, and the meeting closes with the last one.
fn finish_turn(run: &mut RunState, i: u8)
    requires { IsTrue (awaits run.old.state.machine.meet i) }
    ensures { run.new ≡ record run.old { state = spec.turn_noted run.old.state i } }
{
    let _last = run.machine.meet.turn(i);
}

/// A frozen vCPU takes its turn in the rendezvous that is open, which ends with the last turn.
///
/// Source: `vm_handle_rendezvous` of FreeBSD's sys/amd64/vmm/vmm.c.
#[tactic(auto, unfolding(crate::specs::Turn::after_turn))]
pub fn turn(run: &mut RunState, by: u16, i: u8)
    requires sound { IsSoundState run.old.state }
    requires may { IsTrue (spec.may_turn run.old.state by i) }
    ensures { run.new ≡ record run.old { state = spec.after_turn run.old.state i } }
{
    if let Some(meeting) = run.machine.meet.current() {
        take_turn(run, i, meeting.kind);
        finish_turn(run, i);
    }
}

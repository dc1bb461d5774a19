//! Interrupt messages go out.
ghost use Rattle.std.specs.Prelude.{◌≡◌, ◌≤◌, ◌<◌, ℕ, ◌&&◌, nat_lt};
ghost use Rattle.std.specs.Option.{option_to_list};
ghost use Rattle.vm_law.specs.CpuSet.{has};
ghost use Rattle.vm_state.specs.Machine as state;
ghost use Rattle.vm_devices.specs.Messages as spec;

use vm_irq::targets;
use vm_law::{CpuSet, Message, Mode};
use vm_state::{Cpu, Machine};

/// What a message does at a vCPU that it reaches.
///
/// Source: Intel SDM volume 3, sections 8.4.3, 10.5.2 and 6.7.
#[tactic(auto, unfolding(crate::specs::Messages::received))]
fn receive(cpu: &mut Cpu, message: &Message)
    ensures { cpu.new ≡ spec.received message.now cpu.old }
{
    match message.mode {
        Mode::Fixed => {
            let _posted = cpu.lapic.post(message.vector);
        }
        Mode::Nmi => cpu.nmi = true,
        Mode::Startup => {
            if !cpu.started && cpu.startup.is_none() {
                cpu.startup = Some(message.vector);
            }
        }
        Mode::Dropped => {}
    }
}

/// The message reaches a vCPU where this is one of its targets.
#[tactic(auto, unfolding(crate::specs::Messages::sent_to))]
fn send_to(machine: &mut Machine, message: &Message, targets: &CpuSet, i: u8)
    requires cpu { i < state.cpu_count machine.old.state }
    requires small { i < 16 }
    ensures { machine.new ≡ record machine.old { state = spec.sent_to machine.old.state message.now targets.now i } }
{
    if targets.has(i) {
        receive(machine.cpus.at_mut(i as usize), message);
    }
}

/// Sends a message to its targets, by ascending vCPU.
#[tactic(auto, unfolding(crate::specs::Messages::sent), using(crate::proofs::Same::count_below))]
pub fn send(machine: &mut Machine, message: &Message)
    requires { state.cpu_count machine.old.state ≤ 16 }
    ensures { machine.new ≡ record machine.old { state = spec.sent machine.old.state message.now } }
{
    let count = machine.cpus.len() as u8;
    let targets = targets(message, count);
    for i in 0..count {
        send_to(machine, message, &targets, i);
    }
}

/// Sends one message after the other.
#[tactic(auto, using(crate::proofs::Same::count_sent))]
pub(crate) fn send_all(machine: &mut Machine, messages: &[Message])
    requires { state.cpu_count machine.old.state ≤ 16 }
    ensures { machine.new ≡ record machine.old { state = spec.all_sent machine.old.state messages.now } }
{
    for message in messages {
        send(machine, message);
    }
}

/// Sends a message, where there is one.
pub(crate) fn send_if(machine: &mut Machine, message: Option<Message>)
    requires { state.cpu_count machine.old.state ≤ 16 }
    ensures { machine.new ≡ record machine.old { state = spec.all_sent machine.old.state (option_to_list message) } }
{
    if let Some(message) = message {
        send(machine, &message);
    }
}

/// The vCPUs that are started.
#[tactic(auto, using(crate::proofs::Started::started_steps))]
pub fn started_cpus(machine: &Machine) -> CpuSet
    requires { state.cpu_count machine.now.state ≤ 16 }
    ensures set { result ≡ state.started_cpus machine.now.state }
    ensures members { (i : ℕ) → has result i ≡ (nat_lt i (state.cpu_count machine.now.state) && (state.cpu_at machine.now.state i).started) }
{
    let count = machine.cpus.len() as u8;
    let mut set = CpuSet::empty();
    for i in 0..count {
        if machine.cpus.at(i as usize).started {
            set.insert(i);
        }
    }
    set
}

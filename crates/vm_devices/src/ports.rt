//! Accesses to ports.
ghost use Rattle.std.specs.Prelude.{◌≡◌, ◌≤◌, ◌<◌, IfSome};
ghost use Rattle.vm_ioapic.specs.Ioapic.{pin_at};
ghost use Rattle.vm_uart.specs.Uart.{line};
ghost use Rattle.vm_state.specs.Machine as state;
ghost use Rattle.vm_state.specs.Sound.{number_of, IsMachine};
ghost use Rattle.vm_devices.specs.Messages as messages;
ghost use Rattle.vm_devices.specs.Ports as spec;

use crate::pins::follow_pin;
use vm_bus::port as uart_offset;
use vm_law::Width;
use vm_state::Machine;

/// The pin of the serial port.
const UART_PIN: u8 = 4;

/// What a port gives where no device stands.
const ALL_ONES: u32 = 0xFFFF_FFFF;

/// The serial port's pin follows its line, which was so before the port changed.
pub fn follow_serial(machine: &mut Machine, was: bool)
    requires cpus { state.cpu_count machine.old.state ≤ 16 }
    requires count { (pin_at machine.old.state.ioapic state.uart_pin).count ≡ number_of was }
    ensures { machine.new ≡ record machine.old { state = messages.pin_followed machine.old.state state.uart_pin was (line machine.old.state.uart) } }
{
    let now = machine.uart.line();
    follow_pin(machine, UART_PIN, was, now);
}

#[tactic(auto, unfolding(crate::specs::Ports::is_byte))]
fn is_byte(width: Width) -> bool
    ensures { result ≡ spec.is_byte width }
{
    match width {
        Width::B => true,
        _ => false,
    }
}

/// The offset of the serial port's register that an access is for, below 8.
#[tactic(auto, unfolding(crate::specs::Ports::offset_of))]
fn offset_of(port: u16, width: Width) -> Option<u8>
    ensures offset { result ≡ spec.offset_of port width }
    ensures small { IfSome result (λ offset. offset < 8) }
{
    if is_byte(width) {
        uart_offset(port)
    } else {
        None
    }
}

#[tactic(auto, unfolding(crate::specs::Ports::with_serial))]
fn read_serial(machine: &mut Machine, offset: u8) -> u32
    requires sound { IsMachine machine.old.state }
    requires offset { offset < 8 }
    ensures value { result ≡ spec.value_at machine.old.state (Some offset) }
    ensures after { machine.new ≡ record machine.old { state = spec.read_at machine.old.state (Some offset) } }
{
    let was = machine.uart.line();
    let value = machine.uart.read(offset);
    follow_serial(machine, was);
    u32::from(value)
}

/// Reads a port.
#[tactic(auto, unfolding(crate::specs::Ports::port_value, crate::specs::Ports::port_read))]
pub fn read_port(machine: &mut Machine, port: u16, width: Width) -> u32
    requires { IsMachine machine.old.state }
    ensures value { result ≡ spec.port_value machine.old.state port width }
    ensures after { machine.new ≡ record machine.old { state = spec.port_read machine.old.state port width } }
{
    match offset_of(port, width) {
        Some(offset) => read_serial(machine, offset),
        None => ALL_ONES,
    }
}

#[tactic(auto, unfolding(crate::specs::Ports::with_serial))]
fn write_serial(machine: &mut Machine, offset: u8, value: u32) -> Option<u8>
    requires sound { IsMachine machine.old.state }
    requires offset { offset < 8 }
    ensures output { result ≡ spec.output_at machine.old.state (Some offset) value }
    ensures after { machine.new ≡ record machine.old { state = spec.written_at machine.old.state (Some offset) value } }
{
    let was = machine.uart.line();
    let output = machine.uart.write(offset, (value % 256) as u8);
    follow_serial(machine, was);
    output
}

/// Writes a port. The answer is the byte for the console, where there is one.
#[tactic(auto, unfolding(crate::specs::Ports::port_output, crate::specs::Ports::port_written))]
pub fn write_port(machine: &mut Machine, port: u16, width: Width, value: u32) -> Option<u8>
    requires { IsMachine machine.old.state }
    ensures output { result ≡ spec.port_output machine.old.state port width value }
    ensures after { machine.new ≡ record machine.old { state = spec.port_written machine.old.state port width value } }
{
    match offset_of(port, width) {
        Some(offset) => write_serial(machine, offset, value),
        None => None,
    }
}

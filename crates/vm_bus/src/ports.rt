ghost use Rattle.std.specs.Prelude.{◌≡◌, ◌<◌, IfSome};
ghost use Rattle.vm_bus.specs.Ports as spec;

/// The first port of the serial port.
const UART: u16 = 0x3F8;

/// The offset of the serial port's register at a port, below 8, or `None` where none stands there.
///
/// Source: bhyve's `uart_emul.c`, where COM1 has eight ports from 0x3F8 on.
pub fn port(number: u16) -> Option<u8>
    ensures register { result ≡ spec.uart_port number }
    ensures offset { IfSome result (λ offset. offset < 8) }
{
    if UART <= number && number < UART + 8 {
        Some((number - UART) as u8)
    } else {
        None
    }
}

use std::process::Abort;
use vm_uart::Uart;

/// Offsets, by the names of their registers.
const DATA: u8 = 0;

const IER: u8 = 1;

const IIR: u8 = 2;

const FCR: u8 = 2;

const LCR: u8 = 3;

const LSR: u8 = 5;

/// A call, and what it gives.
#[derive(Drop)]
enum Step {
    Read(u8, u8),
    Write(u8, u8, Option<u8>),
    Receive(u8, bool),
    Line(bool),
}

fn holds(uart: &mut Uart, step: &Step) -> bool {
    match step {
        Step::Read(offset, want) => *offset < 8 && uart.read(*offset) == *want,
        Step::Write(offset, value, want) => *offset < 8 && uart.write(*offset, *value) == *want,
        Step::Receive(byte, want) => uart.receive(*byte) == *want,
        Step::Line(want) => uart.line() == *want,
    }
}

fn run(rt: &impl Abort, uart: &mut Uart, steps: &[Step]) {
    for (k, step) in steps.iter().enumerate() {
        assert!(rt; holds(uart, step), "step {k}");
    }
}

/// The causes come in their order: received data before the empty transmitter, which a read of IIR ends.
const CAUSES: [Step; 15] = [
    Step::Read(IIR, 0x01),
    Step::Write(IER, 0xFF, None),
    Step::Read(IER, 0x0F),
    Step::Line(true),
    Step::Receive(0x41, true),
    Step::Read(IIR, 0x04),
    Step::Read(LSR, 0x61),
    Step::Read(DATA, 0x41),
    Step::Read(IIR, 0x02),
    Step::Read(IIR, 0x01),
    Step::Line(false),
    Step::Write(DATA, 0x42, Some(0x42)),
    Step::Write(FCR, 0xFF, None),
    Step::Read(IIR, 0xC2),
    Step::Read(DATA, 0),
];

#[test]
fn causes(rt: HostRuntime) {
    run(&rt, &mut Uart::new(), &CAUSES);
}

/// What each offset gives at reset, and after every bit was written to it; the divisor latch stands at 0 and 1.
const REGISTERS: [Step; 25] = [
    Step::Read(1, 0),
    Step::Write(1, 0xFF, None),
    Step::Read(1, 0x0F),
    Step::Read(3, 0),
    Step::Write(LCR, 0x7F, None),
    Step::Read(3, 0x7F),
    Step::Read(4, 0),
    Step::Write(4, 0xFF, None),
    Step::Read(4, 0xFF),
    Step::Read(5, 0x60),
    Step::Write(5, 0xFF, None),
    Step::Read(5, 0x60),
    Step::Read(6, 0xB0),
    Step::Write(6, 0xFF, None),
    Step::Read(6, 0xB0),
    Step::Read(7, 0),
    Step::Write(7, 0xFF, None),
    Step::Read(7, 0xFF),
    Step::Write(LCR, 0x80, None),
    Step::Write(DATA, 0x12, None),
    Step::Write(IER, 0x34, None),
    Step::Read(DATA, 0x12),
    Step::Read(IER, 0x34),
    Step::Write(LCR, 0, None),
    Step::Read(IER, 0x0F),
];

#[test]
fn registers(rt: HostRuntime) {
    run(&rt, &mut Uart::new(), &REGISTERS);
}

/// The FIFO holds 16 bytes, gives them in order, and is cleared by bit 1 of FCR; a saved port is the port.
#[test]
fn fifo(rt: HostRuntime) {
    let mut uart = Uart::new();
    for byte in 0..16u8 {
        assert!(rt; !uart.is_full());
        assert!(rt; uart.receive(byte));
    }
    assert!(rt; uart.is_full());
    assert!(rt; !uart.receive(0x99));
    assert_eq!(rt; uart.read(DATA), 0);
    assert!(rt; uart.receive(0x10));
    let state = uart.saved();
    assert!(rt; Uart::from_saved(&state).saved() == state);
    let mut other = uart.copy();
    for byte in 1..=16u8 {
        assert_eq!(rt; other.read(DATA), byte);
    }
    assert_eq!(rt; other.read(LSR), 0x60);
    assert_eq!(rt; uart.write(FCR, 0x02), None);
    assert_eq!(rt; uart.read(LSR), 0x60);
    assert_eq!(rt; uart.read(IIR), 0x01);
}

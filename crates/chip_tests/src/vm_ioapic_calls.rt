use std::process::Abort;
use vm_ioapic::{Ioapic, RteChange};
use vm_law::{Dest, Message, Mode};

const SELECT: u32 = 0x00;

const WINDOW: u32 = 0x10;
/// Bits of an entry's low half.
const LOGICAL: u32 = 1 << 11;

const ACTIVE_LOW: u32 = 1 << 13;

const LEVEL: u32 = 1 << 15;

const MASKED: u32 = 1 << 16;

/// Writes a register by its index.
fn write(chip: &mut Ioapic, index: u8, value: u32) -> RteChange {
    chip.write(SELECT, index as u32);
    chip.write(WINDOW, value)
}

/// Reads a register by its index.
fn read(chip: &mut Ioapic, index: u8) -> u32 {
    chip.write(SELECT, index as u32);
    chip.read(WINDOW)
}

/// An I/O APIC in which pin 5 has this entry.
fn with_pin_5(low: u32, high: u32) -> Ioapic {
    let mut chip = Ioapic::new();
    write(&mut chip, 0x1B, high);
    write(&mut chip, 0x1A, low);
    chip
}

/// A call, and what it gives.
#[derive(Drop)]
enum Step {
    /// A pin is asserted once more, and sends this message.
    Raise(u8, Option<Message>),
    /// A pin is asserted once less.
    Lower(u8),
    /// An interrupt has ended, and these messages are sent.
    Eoi(u8, [Option<Message>; 2]),
    Read(u8, u32),
    /// A write, and the message that it sends.
    Write(u8, u32, Option<Message>),
    /// A write, and whether the routing changes.
    Route(u8, u32, bool),
    /// A write, and all that follows from it.
    Change(u8, u32, RteChange),
}

fn lower(chip: &mut Ioapic, pin: u8) -> bool {
    if pin >= 32 || chip.count(pin) == 0 {
        return false;
    }
    chip.lower(pin);
    true
}

/// Whether these are the messages, in this order.
fn are(messages: &[Message], want: &[Option<Message>; 2]) -> bool {
    messages.len() <= 2
        && messages.get(0).copied() == want[0]
        && messages.get(1).copied() == want[1]
}

/// Whether a write changes the routing as it was told that it would.
fn routes(chip: &mut Ioapic, index: u8, value: u32, want: bool) -> bool {
    chip.write(SELECT, index as u32);
    chip.would_route(WINDOW, value) == want && chip.write(WINDOW, value).routing == want
}

fn holds(chip: &mut Ioapic, step: &Step) -> bool {
    match step {
        Step::Raise(pin, want) => {
            *pin < 32 && chip.count(*pin) < u32::MAX && chip.raise(*pin) == *want
        }
        Step::Lower(pin) => lower(chip, *pin),
        Step::Eoi(vector, want) => are(chip.eoi(*vector).as_slice(), want),
        Step::Read(index, want) => read(chip, *index) == *want,
        Step::Write(index, value, want) => write(chip, *index, *value).message == *want,
        Step::Route(index, value, want) => routes(chip, *index, *value, *want),
        Step::Change(index, value, want) => write(chip, *index, *value) == *want,
    }
}

fn run(rt: &impl Abort, chip: &mut Ioapic, steps: &[Step]) {
    for (k, step) in steps.iter().enumerate() {
        assert!(rt; holds(chip, step), "step {k}");
    }
}

const TO_FIRST: Message = Message {
    vector: 0x31,
    mode: Mode::Fixed,
    dest: Dest::One(0),
};

/// A level pin that is raised twice and lowered once is still asserted: its EOI sends again, until it is lowered.
const LEVEL_PIN: [Step; 9] = [
    Step::Raise(5, Some(TO_FIRST)),
    Step::Raise(5, None),
    Step::Read(0x1A, LEVEL | 0x4031),
    Step::Lower(5),
    Step::Eoi(0x30, [None, None]),
    Step::Eoi(0x31, [Some(TO_FIRST), None]),
    Step::Lower(5),
    Step::Eoi(0x31, [None, None]),
    Step::Read(0x1A, LEVEL | 0x31),
];

#[test]
fn level_pin(rt: HostRuntime) {
    run(&rt, &mut with_pin_5(LEVEL | 0x31, 0), &LEVEL_PIN);
}

/// Each register at reset, and after every bit was written to it.
#[test]
fn registers(rt: HostRuntime) {
    let mut chip = Ioapic::new();
    let rows: [(u8, u32, u32); 9] = [
        (0x00, 0, 0x0F00_0000),
        (0x01, 0x001F_0011, 0x001F_0011),
        (0x02, 0, 0),
        (0x0F, 0, 0),
        (0x10, 0x0001_0000, 0x0001_AFFF),
        (0x11, 0, 0xFF00_0000),
        (0x4E, 0x0001_0000, 0x0001_AFFF),
        (0x4F, 0, 0xFF00_0000),
        (0x50, 0, 0),
    ];
    for (index, first, kept) in rows {
        assert_eq!(rt; read(&mut chip, index), first);
        assert!(rt; write(&mut chip, index, 0xFFFF_FFFF).message == None);
        assert_eq!(rt; read(&mut chip, index), kept);
    }
    chip.write(SELECT, 0x1_2345);
    assert_eq!(rt; chip.read(SELECT), 0x45);
    chip.write(0x20, 7);
    assert_eq!(rt; chip.read(0x20), 0);
}

const TO_ALL: Message = Message {
    vector: 0x42,
    mode: Mode::Fixed,
    dest: Dest::All,
};

/// A masked edge is lost; a masked level pin sends once it is unmasked; an edge pin has no remote IRR.
const MASKS: [Step; 9] = [
    Step::Raise(5, None),
    Step::Write(0x1A, 0x42, None),
    Step::Lower(5),
    Step::Raise(5, Some(TO_ALL)),
    Step::Write(0x1A, LEVEL | MASKED | 0x42, None),
    Step::Change(
        0x1A,
        LEVEL | 0x42,
        RteChange {
            routing: false,
            message: Some(TO_ALL),
        },
    ),
    Step::Read(0x1A, LEVEL | 0x4042),
    Step::Route(0x1A, 0x42, true),
    Step::Read(0x1A, 0x42),
];

#[test]
fn masks(rt: HostRuntime) {
    run(&rt, &mut with_pin_5(MASKED | 0x42, 0xFF00_0000), &MASKS);
}

/// The message of a pin whose destination is the vCPU of its number.
fn of_pin(pin: u8) -> Message {
    Message {
        vector: 0x50,
        mode: Mode::Fixed,
        dest: Dest::One(pin),
    }
}

/// An EOI sends again at each pin that is still asserted, by ascending pin.
#[test]
fn eoi_by_ascending_pin(rt: HostRuntime) {
    let mut chip = Ioapic::new();
    for pin in [31u8, 3, 7] {
        let steps = [
            Step::Write(0x11 + 2 * pin, (pin as u32) << 24, None),
            Step::Write(0x10 + 2 * pin, LEVEL | 0x50, None),
            Step::Raise(pin, Some(of_pin(pin))),
        ];
        run(&rt, &mut chip, &steps);
    }
    let steps = [
        Step::Lower(7),
        Step::Eoi(0x50, [Some(of_pin(3)), Some(of_pin(31))]),
    ];
    run(&rt, &mut chip, &steps);
}

/// The delivery mode and the destination of a message.
#[test]
fn destinations(rt: HostRuntime) {
    let rows: [(u32, u32, Mode, Dest); 5] = [
        (0x031, 0x0100_0000, Mode::Fixed, Dest::One(1)),
        (0x431, 0xFF00_0000, Mode::Nmi, Dest::All),
        (0x131, 0x0200_0000, Mode::Dropped, Dest::One(2)),
        (0x731, 0x0F00_0000, Mode::Dropped, Dest::One(15)),
        (LOGICAL | 0x031, 0xFF00_0000, Mode::Fixed, Dest::Nobody),
    ];
    for (low, high, mode, dest) in rows {
        let message = Message {
            vector: 0x31,
            mode,
            dest,
        };
        let steps = [Step::Raise(5, Some(message))];
        run(&rt, &mut with_pin_5(low, high), &steps);
    }
}

/// A change of polarity or mask alone doesn't change the routing.
const ROUTING: [Step; 6] = [
    Step::Route(0x1A, LEVEL | MASKED | ACTIVE_LOW | 0x31, false),
    Step::Route(0x1A, LEVEL | 0x31, false),
    Step::Route(0x1A, LEVEL | 0x32, true),
    Step::Route(0x1A, LEVEL | 0x132, true),
    Step::Route(0x1B, 0x01FF_FFFF, false),
    Step::Route(0x1B, 0x0200_0000, true),
];

/// The TMR has the level entries, masked or not.
#[test]
fn routing(rt: HostRuntime) {
    let mut chip = with_pin_5(LEVEL | MASKED | 0x31, 0x0100_0000);
    run(&rt, &mut chip, &ROUTING);
    let tmr = chip.tmr(2, 4);
    assert!(rt; tmr.has(0x32) && !tmr.has(0x31));
    assert!(rt; chip.tmr(1, 4).highest().is_none() && chip.tmr(2, 2).highest().is_none());
}

const TO_THIRD: Message = Message {
    vector: 0x31,
    mode: Mode::Fixed,
    dest: Dest::One(3),
};

const BEFORE: [Step; 2] = [
    Step::Write(0, 0x0500_0000, None),
    Step::Raise(5, Some(TO_THIRD)),
];

/// A saved chip is the chip.
#[test]
fn saved(rt: HostRuntime) {
    let mut chip = with_pin_5(LEVEL | ACTIVE_LOW | 0x31, 0x0300_0000);
    run(&rt, &mut chip, &BEFORE);
    let state = chip.saved();
    assert_eq!(rt; state.entries[5], 0x0300_0000_0000_E031);
    assert_eq!(rt; state.entries[4], 0x0001_0000);
    assert!(rt; state.counts[5] == 1 && state.id == 0x0500_0000 && state.select == 0);
    let mut other = Ioapic::from_saved(&state).copy();
    assert!(rt; other.saved() == state);
    run(&rt, &mut other, &[Step::Eoi(0x31, [Some(TO_THIRD), None])]);
}

use std::process::Abort;
use vm_lapic::{Lapic, LapicEffect, Posted};
use vm_law::{Dest, LapicState, Message, Mode};
use vm_vectors::VectorSet;

const TPR: u32 = 0x80;

const EOI: u32 = 0xB0;

const SVR: u32 = 0xF0;

const ICR_LOW: u32 = 0x300;

const ICR_HIGH: u32 = 0x310;

fn enabled(cpu: u8) -> Lapic {
    let mut lapic = Lapic::new(cpu);
    lapic.write(SVR, 0x1FF);
    lapic
}

/// A call, and what it gives.
#[derive(Drop)]
enum Step {
    Post(u8, Posted),
    /// The vector that is deliverable.
    Due(Option<u8>),
    /// The vector whose service begins.
    Serve(Option<u8>),
    Read(u32, u32),
    Write(u32, u32, LapicEffect),
}

fn holds(lapic: &mut Lapic, step: &Step) -> bool {
    match step {
        Step::Post(vector, want) => lapic.post(*vector) == *want,
        Step::Due(want) => lapic.deliverable() == *want,
        Step::Serve(want) => served(lapic) == *want,
        Step::Read(offset, want) => lapic.read(*offset) == *want,
        Step::Write(offset, value, want) => lapic.write(*offset, *value) == *want,
    }
}

fn run(rt: &impl Abort, lapic: &mut Lapic, steps: &[Step]) {
    for (k, step) in steps.iter().enumerate() {
        assert!(rt; holds(lapic, step), "step {k}");
    }
}

const ENDED: LapicEffect = LapicEffect::Eoi {
    vector: 0x31,
    level: false,
};

// A vector that is in service holds back one of its class; an EOI lets it through.
const SERVICE: [Step; 11] = [
    Step::Post(0x31, Posted::Set),
    Step::Post(0x31, Posted::Merged),
    Step::Serve(Some(0x31)),
    Step::Post(0x31, Posted::Set),
    Step::Due(None),
    Step::Write(EOI, 0, ENDED),
    Step::Due(Some(0x31)),
    Step::Serve(Some(0x31)),
    Step::Write(EOI, 7, ENDED),
    Step::Serve(None),
    Step::Write(EOI, 0, LapicEffect::Nothing),
];

#[test]
fn a_vector_is_posted_served_and_ended(rt: HostRuntime) {
    run(&rt, &mut enabled(0), &SERVICE);
}

// Only classes are compared.
const PRIORITIES: [Step; 18] = [
    Step::Write(TPR, 0x30, LapicEffect::Nothing),
    Step::Post(0x3F, Posted::Set),
    Step::Due(None),
    Step::Post(0x40, Posted::Set),
    Step::Due(Some(0x40)),
    Step::Serve(Some(0x40)),
    Step::Read(0xA0, 0x40),
    Step::Due(None),
    Step::Write(
        EOI,
        0,
        LapicEffect::Eoi {
            vector: 0x40,
            level: false,
        },
    ),
    Step::Due(None),
    Step::Write(TPR, 0x2F, LapicEffect::Nothing),
    Step::Read(0xA0, 0x2F),
    Step::Due(Some(0x3F)),
    Step::Post(15, Posted::Illegal),
    Step::Write(SVR, 0xFF, LapicEffect::Nothing),
    Step::Post(0x50, Posted::Ignored),
    Step::Due(Some(0x3F)),
    Step::Read(SVR, 0xFF),
];

#[test]
fn priorities(rt: HostRuntime) {
    run(&rt, &mut enabled(0), &PRIORITIES);
}

fn served(lapic: &mut Lapic) -> Option<u8> {
    if lapic.deliverable().is_none() {
        return None;
    }
    Some(lapic.service())
}

// What each offset reads after a reset, and after all ones were written to it.
#[test]
fn registers(rt: HostRuntime) {
    let kept = [
        (0x20, 0x0500_0000, 0x0500_0000),
        (0x30, 0x0005_0014, 0x0005_0014),
        (TPR, 0, 0xFF),
        (0xA0, 0, 0),
        (SVR, 0xFF, 0xFFFF_FFFF),
        (ICR_LOW, 0, 0xFFFF_EFFF),
        (ICR_HIGH, 0, 0xFFFF_FFFF),
        (0x320, 0x1_0000, 0xFFFF_FFFF),
        (0x380, 0, 0xFFFF_FFFF),
        (0x3E0, 0, 0xFFFF_FFFF),
    ];
    for offset in 0..0x1000 {
        let mut lapic = Lapic::new(5);
        let mut want = (0, 0);
        for (at, start, ones) in kept {
            if at == offset {
                want = (start, ones);
            }
        }
        assert_eq!(rt; lapic.read(offset), want.0, "at {offset} at the start");
        lapic.write(offset, 0xFFFF_FFFF);
        assert_eq!(rt; lapic.read(offset), want.1, "at {offset}");
    }
}

const SETS: [Step; 9] = [
    Step::Read(0x170, 0x8000_0000),
    Step::Read(0x1F0, 0x8000_0000),
    Step::Read(0x190, 1),
    Step::Read(0x220, 6),
    Step::Read(0x270, 0),
    Step::Read(0x221, 0),
    Step::Write(
        EOI,
        0,
        LapicEffect::Eoi {
            vector: 0xFF,
            level: true,
        },
    ),
    Step::Read(0x170, 0),
    Step::Read(0x1F0, 0x8000_0000),
];

#[test]
fn sets_are_read_as_words(rt: HostRuntime) {
    let mut lapic = enabled(1);
    lapic.post(0x41);
    lapic.post(0xFF);
    lapic.post(0x42);
    assert_eq!(rt; served(&mut lapic), Some(0xFF));
    let mut level = VectorSet::empty();
    level.insert(0xFF);
    level.insert(0x20);
    lapic.set_tmr(level);
    run(&rt, &mut lapic.copy(), &SETS);
    run(&rt, &mut lapic, &SETS);
}

#[test]
fn commands(rt: HostRuntime) {
    let cases = [
        (0x0000_0040, 0x0200_0000, 0x40, Mode::Fixed, Dest::One(2)),
        (0x0000_0041, 0xFF00_0000, 0x41, Mode::Fixed, Dest::All),
        (0x0000_0842, 0x0100_0000, 0x42, Mode::Fixed, Dest::Nobody),
        (0x0004_0843, 0x0100_0000, 0x43, Mode::Fixed, Dest::One(3)),
        (0x0008_0400, 0, 0, Mode::Nmi, Dest::All),
        (0x000C_0608, 0, 8, Mode::Startup, Dest::AllBut(3)),
        (0x0000_0500, 0x0F00_0000, 0, Mode::Dropped, Dest::One(15)),
        (0x0000_0150, 0, 0x50, Mode::Dropped, Dest::One(0)),
    ];
    for (low, high, vector, mode, dest) in cases {
        let sent = LapicEffect::Send(Message { vector, mode, dest });
        let steps = [
            Step::Write(ICR_HIGH, high, LapicEffect::Nothing),
            Step::Write(ICR_LOW, low, sent),
            Step::Read(ICR_LOW, low),
        ];
        run(&rt, &mut Lapic::new(3), &steps);
    }
}

#[test]
fn a_saved_chip(rt: HostRuntime) {
    let mut irr = [0; 32];
    irr[8] = 2;
    let mut tmr = [0; 32];
    tmr[0] = 1;
    let state = LapicState {
        cpu: 2,
        irr,
        isr: [0; 32],
        tmr,
        tpr: 0x11,
        svr: 0x1FF,
        icr: 0x0200_0000_0000_0041,
        lvt_timer: 0x2_0020,
        timer_initial: 9,
        timer_divide: 0xB,
    };
    let lapic = Lapic::from_saved(&state);
    assert!(rt; lapic.saved() == state);
    assert_eq!(rt; lapic.deliverable(), Some(0x41));
    assert_eq!(rt; lapic.read(ICR_HIGH), 0x0200_0000);
}

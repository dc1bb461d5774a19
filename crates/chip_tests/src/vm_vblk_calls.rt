ghost use Rattle.vm_vblk.specs.Window.{LiesOver};

use arrayvec::ArrayVec;
use vm_law::{Bytes, Kind, Request, Segment};
use vm_vblk::{Pulled, Register, Window, WindowEffect};

/// Memory of 1,024 bytes, of which 16 are code.
#[derive(Drop)]
struct Ram {
    bytes: [u8; 1024],
}

impl Bytes for Ram {
    ghost memory = { λ r. record { bytes = r.bytes; code = 16 } };

    ghost spare = { λ _. 6 };

    fn size(&self) -> u64 {
        1024
    }

    fn code(&self) -> u64 {
        16
    }

    fn read(&self, at: u64, into: &mut [u8]) {
        let at = at as usize;
        into.copy_from_slice(&self.bytes[at..at + into.len()]);
    }

    fn write(&mut self, at: u64, piece: &[u8]) {
        let at = at as usize;
        self.bytes[at..at + piece.len()].copy_from_slice(piece);
    }
}

/// A header at 0xC0, data of 512 bytes at 0x200, and a status byte at 0xD0: the descriptors in 16 bytes each.
const HEADER: [u8; 16] = [0xC0, 0, 0, 0, 0, 0, 0, 0, 16, 0, 0, 0, 1, 0, 1, 0];

const DATA: [u8; 16] = [0, 2, 0, 0, 0, 0, 0, 0, 0, 2, 0, 0, 1, 0, 2, 0];

const STATUS: [u8; 16] = [0xD0, 0, 0, 0, 0, 0, 0, 0, 1, 0, 0, 0, 2, 0, 0, 0];

/// Memory in which one chain waits that writes sector 0, in a queue of four: descriptors at 0x40, the available ring at
/// 0x80, the used ring at 0x90.
fn make_ram() -> Ram {
    let mut bytes = [0; 1024];
    bytes[0x40..0x50].copy_from_slice(&HEADER);
    bytes[0x50..0x60].copy_from_slice(&DATA);
    bytes[0x60..0x70].copy_from_slice(&STATUS);
    bytes[0x82] = 1;
    bytes[0xC0] = 1;
    Ram { bytes }
}

/// What a driver writes until the queue is ready and notified.
const START: [(u32, u32); 10] = [
    (0x024, 1),
    (0x020, 1),
    (0x070, 11),
    (0x038, 4),
    (0x080, 0x40),
    (0x090, 0x80),
    (0x0A0, 0x90),
    (0x044, 1),
    (0x070, 4),
    (0x050, 0),
];

/// Writes what a driver writes.
fn start(window: &mut Window, ram: &Ram)
    requires { LiesOver (record { bytes = ram.now.bytes; code = 16 }) window.old }
    ensures { LiesOver (record { bytes = ram.now.bytes; code = 16 }) window.new }
{
    for (offset, value) in START {
        let _effect = window.write(ram, offset, value);
    }
}

#[test]
fn registers(rt: HostRuntime) {
    let ram = make_ram();
    let mut window = Window::new(0x1_0000_0003, true);
    assert!(rt; Register::at(0x0FC) == Register::ConfigGeneration);
    assert!(rt; window.read(0x000) == 0x7472_6976);
    assert!(rt; window.read(0x100) == 3);
    assert!(rt; window.write(&ram, 0x044, 1) == WindowEffect::Nothing);
    assert!(rt; window.read(0x070) == 64);
    assert!(rt; window.line());
    let state = window.saved();
    assert!(rt; Window::from_saved(&state).copy().saved() == state);
    assert!(rt; window.write(&ram, 0x070, 0) == WindowEffect::Reset);
    assert!(rt; window.saved() == Window::new(0x1_0000_0003, true).saved());
}

#[test]
fn requests(rt: HostRuntime) {
    let mut ram = make_ram();
    let mut window = Window::new(1, false);
    start(&mut window, &ram);
    assert!(rt; window.is_ready() && window.is_notified() && window.ring().size == 4);
    assert!(rt; window.waits(&ram));
    let mut segments = ArrayVec::new();
    segments.push(Segment {
        addr: 0x200,
        len: 512,
    });
    let want = Request {
        kind: Kind::Write,
        head: 0,
        status_at: 0xD0,
        start: 0,
        count: 1,
        segments,
    };
    assert!(rt; window.pull(&mut ram) == Pulled::Request(want));
    assert!(rt; !window.is_notified() && !window.line());
    assert!(rt; window.is_ready());
    window.finish(&mut ram, 0, 0xD0, 1, 513);
    assert!(rt; window.line());
    assert!(rt; ram.bytes[0xD0] == 1 && ram.bytes[0x92] == 1);
    assert!(rt; ram.bytes[0x94..0x9C] == [0, 0, 0, 0, 1, 2, 0, 0]);
}

//! Gates that hold one actor back until another comes.

use std::sync::atomic::AtomicU64;
use std::sync::atomic::Ordering::SeqCst;
use vm_host::{Gate, Place};

/// How often a gate looks whether the other has come.
const LOOKS: u64 = 100_000_000;

/// Something that is waited for: whether somebody waits, whether it came since, and whether that was seen.
#[derive(Drop)]
struct Meeting {
    waits: AtomicU64,
    came: AtomicU64,
    seen: AtomicU64,
}

impl Meeting {
    fn new() -> Meeting {
        Meeting {
            waits: AtomicU64::new(0),
            came: AtomicU64::new(0),
            seen: AtomicU64::new(0),
        }
    }

    /// It comes.
    fn comes(&self) {
        if self.waits.load(SeqCst) == 1 {
            self.came.store(1, SeqCst);
        }
    }

    /// Waits for it.
    fn wait(&self) {
        self.waits.store(1, SeqCst);
        for _ in 0..LOOKS {
            if self.came.load(SeqCst) == 1 {
                self.seen.store(1, SeqCst);
                return;
            }
        }
    }

    fn was_seen(&self) -> bool {
        self.seen.load(SeqCst) == 1
    }
}

/// It holds the second slice of vCPU 0 until a slice of vCPU 1 begins.
#[derive(Drop)]
pub struct HoldsSlice {
    slices: AtomicU64,
    other: Meeting,
}

impl HoldsSlice {
    pub fn new() -> HoldsSlice {
        HoldsSlice {
            slices: AtomicU64::new(0),
            other: Meeting::new(),
        }
    }

    /// Whether a slice of vCPU 1 began while it held.
    pub fn saw_it(&self) -> bool {
        self.other.was_seen()
    }
}

impl Gate for HoldsSlice {
    fn at(&self, place: Place) {
        match place {
            Place::Slice { cpu: 0 } => {
                if self.slices.fetch_add(1, SeqCst) == 1 {
                    self.other.wait();
                }
            }
            Place::Slice { .. } => self.other.comes(),
            Place::Write { .. } => {}
        }
    }
}

/// It holds the first image write until the write of the other disk begins.
#[derive(Drop)]
pub struct HoldsWrite {
    writes: AtomicU64,
    other: Meeting,
}

impl HoldsWrite {
    pub fn new() -> HoldsWrite {
        HoldsWrite {
            writes: AtomicU64::new(0),
            other: Meeting::new(),
        }
    }

    /// Whether the write of the other disk began while it held.
    pub fn saw_it(&self) -> bool {
        self.other.was_seen()
    }
}

impl Gate for HoldsWrite {
    fn at(&self, place: Place) {
        if let Place::Write { .. } = place {
            if self.writes.fetch_add(1, SeqCst) == 0 {
                self.other.wait();
            } else {
                self.other.comes();
            }
        }
    }
}

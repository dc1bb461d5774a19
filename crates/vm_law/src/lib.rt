//! The shared types of vmrun, and the laws of numbers, lists and sets that every crate above stands on.
//!
//! A type stands here with all its variants where several crates speak of it; what a part does with it is defined with
//! that part. Instructions are those of the Intel SDM, volume 2; interrupt messages and the saved states of the local APIC
//! and the I/O APIC follow volume 3 and the 82093AA; descriptors and requests follow OASIS virtio 1.2. Entries, orders,
//! stages and plans are vmrun's own.
#![tactic(auto)]

mod block;
mod bytes;
mod chips;
mod context;
mod cpu_set;
mod image;
mod insn;
mod journal;
mod memory;
mod message;
mod plan;
mod script;
mod seq;
mod stage;
mod text;

pub use block::{ChainList, Descriptor, Kind, Request, Segment};
pub use bytes::Bytes;
pub use chips::{IoapicState, LapicState, UartState, WindowState};
pub use context::{Ctx, Stop};
pub use cpu_set::CpuSet;
pub use image::FlatImage;
pub use insn::{
    ArithmeticOp, BitTestOp, Condition, Count, Insn, Loc, Mem, Op, ShiftOp, Src, UnaryOp, Width,
};
pub use journal::{EndCause, Entry, Journal, Logged, Signed};
pub use memory::OutOfMemory;
pub use message::{Dest, Message, Mode};
pub use plan::{DiskPlan, Plan};
pub use script::{Order, Script};
pub use seq::Seq;
pub use stage::{MeetKind, Owned};
pub use text::Text;

//! The state of a run.

use crate::cpu::Seat;
use crate::image::DiskImage;
use crate::machine::Machine;
use crate::versions::Versions;
use arrayvec::ArrayVec;
use std::marker::Model;
use vm_law::{Order, Seq, Stop};

/// Why a run ended.
#[derive(Clone, Copy, PartialEq, Eq)]
pub enum Why {
    /// Every order of the script is done.
    Finished,
    /// An instruction of this vCPU, or a delivery to it, couldn't be done; the address is RIP's.
    Stopped { cpu: u8, stop: Stop, rip: u64 },
    /// The instructions or entries that were allowed are used up.
    Budget,
    /// A file or a sink failed.
    Outside,
}

/// What was said to an order when it was done.
#[derive(Clone, Copy, PartialEq, Eq)]
pub enum Said {
    /// A wait: what it waited for came.
    Met,
    /// A wait: that didn't come, and nothing more could happen by itself.
    Quiet,
    /// The register that was asked for.
    Value(u64),
    /// The request was cancelled.
    Done,
    /// No unfinished request has this id.
    Unknown,
    /// A worker has the request.
    Busy,
    /// There is nothing to say.
    Plain,
}

/// How many instructions a vCPU had run at its turn in a rendezvous.
#[derive(Clone, Copy, Default, PartialEq, Eq)]
pub struct Sample {
    pub cpu: u8,
    pub ran: u64,
}

/// An order that is done.
#[derive(Drop)]
pub struct Answer {
    pub order: Order,
    pub said: Said,
    /// Of a rendezvous what its vCPUs noted, in the order of their turns.
    pub samples: ArrayVec<Sample, 16>,
}

/// A run. Contracts see its state, and for how many console bytes and how many pages of memory it has room.
#[derive(Drop)]
pub struct RunState {
    pub machine: Machine,
    /// For each vCPU its seat.
    pub seats: Seq<Seat>,
    /// For each disk its image.
    pub images: Seq<DiskImage>,
    /// For each page of the code how often an instruction stored into it.
    pub versions: Versions,
    /// How many instructions were executed in all.
    pub executed: u64,
    /// How many had been when the timers moved on last.
    pub seen: u64,
    /// How many may be.
    pub limit: u64,
    /// How many entries there were; it stands still at its type's end.
    pub entries: u64,
    /// The script's orders, with what was said to those that are done. A rendezvous that is under way has its samples.
    pub orders: Seq<Answer>,
    /// How many orders are done.
    pub place: u16,
    /// Whether the rendezvous that the next order asks for was opened.
    pub begun: bool,
    /// The bytes for the serial port, those that were fed first.
    pub input: Vec<u8>,
    /// How many of them were fed.
    pub fed: usize,
    /// What the console received.
    pub console: Vec<u8>,
    /// Why the run ended, where it did.
    pub ended: Option<Why>,
    /// Whether nothing can follow.
    pub closed: bool,
}

impl Model for RunState {
    ghost use Rattle.std.specs.Prelude.{◌-◌, ◌≤◌, drop, length};
    ghost use Rattle.std.specs.Vec.{vec_len, vec_capacity};
    ghost use Rattle.vm_state.specs.View.{RunView, run_code, script_of, answers_of, samples_of, IsReserved};

    ghost Value = { RunView };

    ghost coded = { run_code };

    ghost view = { λ r. record {
      state = record {
        machine = r.machine.state;
        seats = r.seats;
        images = r.images;
        versions = r.versions;
        executed = r.executed;
        seen = r.seen;
        limit = r.limit;
        entries = r.entries;
        script = script_of r.orders;
        place = r.place;
        begun = r.begun;
        input = drop r.fed r.input.items;
        answers = answers_of r.orders r.place;
        samples = samples_of r.orders r.place;
        console = r.console.items;
        ended = r.ended;
        closed = r.closed;
      };
      room = vec_capacity r.console - vec_len r.console;
      spare = r.machine.spare;
    } };

    ghost invariant = { λ r. IsReserved r.orders r.place (vec_len r.input) (vec_capacity r.input) × (r.fed ≤ length r.input.items) };
}

//! What a run's state holds.
ghost use Rattle.std.specs.Prelude.{◌≡◌, ◌%◌, ◌<◌, ◌^◌, Bool, length, slice_index, take};
ghost use Rattle.std.specs.List.{count_by, sum};
ghost use Rattle.std.specs.Option.{option_copied};
ghost use Rattle.vm_state.specs.Machine as machine;
ghost use Rattle.vm_state.specs.Requests as requests;
ghost use Rattle.vm_state.specs.State as state;
ghost use Rattle.vm_state.specs.View as view;
ghost use Rattle.vm_orders.specs.Done as done;
ghost use Rattle.vm_orders.specs.Duties as duties;
ghost use Rattle.vm_orders.specs.Ending as ending;
ghost use Rattle.vm_orders.specs.Quiet as still;
ghost use Rattle.vm_table.specs.Tally.{tallied, tally_of};
ghost use Rattle.vm_table.specs.Turns as turns;

use crate::run::Run;
use crate::tally::Tally;
use vm_law::Order;
use vm_state::{Answer, Cpu, DiskImage, Drive, Machine, Sample, Why};

/// The most instructions that a runner asks for in one Enter.
const LARGEST_GRANT: u64 = 1024;

/// The first `count` of them, or all where there are no more.
fn front(orders: &[Answer], count: usize) -> &[Answer]
    ensures { result.now ≡ take count orders.now }
{
    if count < orders.len() {
        &orders[..count]
    } else {
        orders
    }
}

/// What was noted in an order.
fn samples_in(answer: Option<&Answer>) -> &[Sample]
    ensures { result.now ≡ view.samples_in (option_copied answer.entry) }
{
    match answer {
        None => &[],
        Some(answer) => answer.samples.as_slice(),
    }
}

/// How many of them are true.
fn count_true(marks: &[bool]) -> usize
    ensures { result ≡ count_by (λ (mark : Bool). mark) marks.now }
{
    marks.iter().filter(|mark| **mark).count()
}

/// How the requests of a drive fared, whose image is this.
fn tally_with(image: &DiskImage, drive: &Drive) -> Tally
    ensures { result ≡ tallied image.now drive.now }
{
    Tally {
        finished: image.finished,
        cancelled: image.cancelled,
        queued: u64::from(drive.queue.count()),
        doubt: count_true(image.doubt.as_slice()) as u64,
    }
}

impl Run {
    // ---- the machine

    /// The machine.
    pub fn machine(&self) -> &Machine
        ensures { result.now.state ≡ self.now.state.machine }
    {
        &self.run.machine
    }

    /// Whether a pause is wished.
    pub fn paused(&self) -> bool
        ensures { result ≡ self.now.state.machine.pause }
    {
        self.run.machine.pause
    }

    /// How many passes there are: control, a runner for each vCPU, and the workers of all block devices; at most 81.
    pub fn pass_count(&self) -> u16
        ensures { result ≡ requests.pass_count self.now.state.machine }
    {
        self.run.machine.pass_count()
    }

    /// How many vCPUs there are, 1 to 16.
    pub fn cpu_count(&self) -> u8
        ensures { result ≡ machine.cpu_count self.now.state.machine }
    {
        self.run.machine.cpu_count() as u8
    }

    /// How many block devices there are, at most 8.
    pub fn drive_count(&self) -> u8
        ensures { result ≡ machine.drive_count self.now.state.machine }
    {
        self.run.machine.drive_count() as u8
    }

    /// Whether a pass is a worker of a block device.
    pub fn is_worker(&self, by: u16, disk: u8) -> bool
        ensures { result ≡ requests.is_worker self.now.state.machine by disk }
    {
        self.run.machine.is_worker(by, disk)
    }

    // ---- a vCPU

    /// A vCPU.
    pub fn cpu(&self, i: u8) -> &Cpu
        requires { i < machine.cpu_count self.now.state.machine }
        ensures { result.now ≡ machine.cpu_at self.now.state.machine i }
    {
        self.run.machine.cpu(i)
    }

    /// Whether an interrupt can be delivered to a vCPU.
    pub fn deliverable(&self, i: u8) -> bool
        requires { i < machine.cpu_count self.now.state.machine }
        ensures { result ≡ machine.is_deliverable (machine.cpu_at self.now.state.machine i) }
    {
        self.run.machine.cpu(i).is_deliverable()
    }

    /// Whether a vCPU has something to do.
    pub fn eager(&self, i: u8) -> bool
        requires { i < machine.cpu_count self.now.state.machine }
        ensures { result ≡ machine.is_eager (machine.cpu_at self.now.state.machine i) }
    {
        self.run.machine.cpu(i).is_eager()
    }

    /// How many instructions of its grant a vCPU has left, at most 1,024.
    pub fn left(&self, i: u8) -> u16
        requires { i < machine.cpu_count self.now.state.machine }
        ensures { result ≡ (state.seat_at self.now.state i).left }
    {
        self.run.seat(i).left
    }

    /// How many instructions a vCPU ran.
    pub fn ran(&self, i: u8) -> u64
        requires { i < machine.cpu_count self.now.state.machine }
        ensures { result ≡ (state.seat_at self.now.state i).ran }
    {
        self.run.seat(i).ran
    }

    /// Whether a vCPU that runs is to be frozen: a rendezvous is open, a pause is wished, the run has ended, it is halted, or
    /// its grant is used up.
    #[tactic(auto, unfolding(crate::specs::Turns::is_exit_due))]
    pub fn exit_due(&self, i: u8) -> bool
        requires { i < machine.cpu_count self.now.state.machine }
        ensures { result ≡ turns.is_exit_due self.now.state i }
    {
        let run = &self.run;
        if run.machine.meet.is_open() || run.machine.pause || run.ended.is_some() {
            return true;
        }
        run.machine.cpu(i).halted || run.seat(i).left == 0
    }

    // ---- a block device

    /// A block device.
    pub fn drive(&self, disk: u8) -> &Drive
        requires { disk < machine.drive_count self.now.state.machine }
        ensures { result.now ≡ machine.drive_at self.now.state.machine disk }
    {
        self.run.machine.drive(disk)
    }

    /// The image of a disk, as its file is to be.
    pub fn image(&self, disk: u8) -> &DiskImage
        requires { disk < machine.drive_count self.now.state.machine }
        ensures { result.now ≡ state.image_at self.now.state disk }
    {
        self.run.image(disk)
    }

    /// How the requests of a block device fared, and its disk.
    pub fn tally(&self, disk: u8) -> Tally
        requires { disk < machine.drive_count self.now.state.machine }
        ensures { result ≡ tally_of self.now.state disk }
    {
        tally_with(self.image(disk), self.drive(disk))
    }

    // ---- counts

    /// How many instructions were executed.
    pub fn executed(&self) -> u64
        ensures { result ≡ self.now.state.executed }
    {
        self.run.executed
    }

    /// How many instructions may be executed, at most 20,000,000.
    pub fn limit(&self) -> u64
        ensures { result ≡ self.now.state.limit }
    {
        self.run.limit
    }

    /// How many entries there were. It stands still at its type's end.
    pub fn entries(&self) -> u64
        ensures { result ≡ self.now.state.entries }
    {
        self.run.entries
    }

    /// How many instructions may be granted yet: the limit without those that were executed or are granted.
    pub fn room(&self) -> u64
        ensures { result ≡ state.room_of self.now.state }
    {
        self.run.room()
    }

    /// The grant that a runner asks for: 1,024 instructions, or what the limit leaves.
    #[tactic(auto, unfolding(crate::specs::Turns::grant_of))]
    pub fn grant(&self) -> u16
        ensures { result ≡ turns.grant_of self.now.state }
    {
        self.room().min(LARGEST_GRANT) as u16
    }

    /// How often an instruction stored into a page of the code, of 4,096 bytes, by the page's number.
    pub fn version(&self, page: u32) -> u64
        requires { page < length self.now.state.versions }
        ensures { result ≡ slice_index self.now.state.versions page }
    {
        self.run.version(page)
    }

    /// How often an instruction stored into a page of the code, of all pages together, modulo 2^64.
    #[inline(always)]
    pub fn version_total(&self) -> u64
        ensures { result ≡ sum self.now.state.versions % 2 ^ 64 }
    {
        self.run.version_total()
    }

    // ---- the script

    /// How many orders of the script are done.
    pub fn place(&self) -> u16
        ensures { result ≡ self.now.state.place }
    {
        self.run.place
    }

    /// The order that comes next.
    pub fn next_order(&self) -> Option<&Order>
        ensures { option_copied result ≡ state.next_order self.now.state }
    {
        self.run.next_order()
    }

    /// Whether the rendezvous that the next order asks for was opened.
    pub fn begun(&self) -> bool
        ensures { result ≡ self.now.state.begun }
    {
        self.run.begun
    }

    /// The orders that are done, each with what was said.
    pub fn answers(&self) -> &[Answer]
        ensures { result.now ≡ self.now.state.answers }
    {
        front(self.run.orders.as_slice(), self.run.place as usize)
    }

    /// What the vCPUs noted in the rendezvous that the next order asks for, in the order of their turns.
    pub fn samples(&self) -> &[Sample]
        ensures { result.now ≡ self.now.state.samples }
    {
        samples_in(self.run.orders.as_slice().get(self.run.place as usize))
    }

    /// The bytes that the console received.
    pub fn console(&self) -> &[u8]
        ensures { result.now ≡ self.now.state.console }
    {
        self.run.console.as_slice()
    }

    /// By how many instructions the timers would move on.
    pub fn tick_of(&self) -> u64
        ensures { result ≡ duties.tick_of self.now.state }
    {
        vm_orders::tick_of(&self.run)
    }

    /// Whether the machine can be cut: a pause is wished, every vCPU is frozen by control, no request is busy, every image is
    /// at home, and no rendezvous is open.
    pub fn is_cut(&self) -> bool
        ensures { result ≡ done.is_cut self.now.state }
    {
        vm_orders::is_cut(&self.run)
    }

    /// Whether nothing more can happen by itself, and no firing of a timer would be seen.
    pub fn quiet(&self) -> bool
        ensures { result ≡ still.is_quiet self.now.state }
    {
        vm_orders::is_quiet(&self.run)
    }

    /// Whether the run is used up: 40,000,000 entries stand, or as many instructions were executed as may be, while a vCPU has
    /// something to do and a wait isn't over.
    pub fn used_up(&self) -> bool
        ensures { result ≡ ending.is_used_up self.now.state }
    {
        vm_orders::is_used_up(&self.run)
    }

    /// Why the run ended; `None` where it hasn't.
    pub fn ended(&self) -> Option<Why>
        ensures { result ≡ self.now.state.ended }
    {
        self.run.ended
    }

    /// Whether nothing can follow.
    pub fn closed(&self) -> bool
        ensures { result ≡ self.now.state.closed }
    {
        self.run.closed
    }
}

//! Counts of a machine and of a run, and who is who among its passes: control is 0, the runner of vCPU i is 1 + i, and then
//! come the workers, drive after drive.
ghost use Rattle.std.specs.Prelude.{◌≡◌, ◌%◌, ◌<◌, ◌≤◌, ◌^◌, length, slice_index};
ghost use Rattle.std.specs.List.{sum};
ghost use Rattle.vm_state.specs.Machine as spec;
ghost use Rattle.vm_state.specs.Requests as requests;
ghost use Rattle.vm_state.specs.State as state;

use crate::cpu::Seat;
use crate::drive::Drive;
use crate::machine::Machine;
use crate::run_state::RunState;

/// How many workers serve the drives.
fn workers_of(drives: &[Drive]) -> u16
    requires { length drives.now ≤ 8 }
    ensures sum { result ≡ requests.workers_of drives.now }
    ensures small { result ≤ 2040 }
{
    let mut total = 0;
    for drive in drives {
        total += u16::from(drive.workers);
    }
    total
}

impl Machine {
    /// How many vCPUs there are.
    pub fn cpu_count(&self) -> usize
        ensures { result ≡ spec.cpu_count self.now.state }
    {
        self.cpus.len()
    }

    /// Whether there is a vCPU of this number.
    pub fn is_cpu(&self, i: u8) -> bool
        ensures { result ≡ spec.is_cpu self.now.state i }
    {
        (i as usize) < self.cpus.len()
    }

    /// How many block devices there are.
    pub fn drive_count(&self) -> usize
        ensures { result ≡ spec.drive_count self.now.state }
    {
        self.drives.len()
    }

    /// Whether there is a block device of this number.
    pub fn is_drive(&self, disk: u8) -> bool
        ensures { result ≡ spec.is_drive self.now.state disk }
    {
        (disk as usize) < self.drives.len()
    }

    /// How many passes there are: control, a runner for each vCPU, and the workers of all block devices.
    #[tactic(auto, unfolding(crate::specs::Requests::pass_count))]
    pub fn pass_count(&self) -> u16
        requires cpus { spec.cpu_count self.now.state ≤ 16 }
        requires drives { spec.drive_count self.now.state ≤ 8 }
        ensures { result ≡ requests.pass_count self.now.state }
    {
        1 + self.cpus.len() as u16 + workers_of(self.drives.as_slice())
    }

    /// The pass of the first worker of a block device.
    #[tactic(auto, unfolding(crate::specs::Requests::first_worker))]
    pub fn first_worker(&self, disk: u8) -> u16
        requires cpus { spec.cpu_count self.now.state ≤ 16 }
        requires drives { spec.drive_count self.now.state ≤ 8 }
        requires disk { disk < spec.drive_count self.now.state }
        ensures first { result ≡ requests.first_worker self.now.state disk }
        ensures small { result ≤ 2057 }
    {
        1 + self.cpus.len() as u16 + workers_of(&self.drives.as_slice()[..disk as usize])
    }

    /// Whether a pass is a worker of a block device.
    #[tactic(auto, unfolding(crate::specs::Requests::is_worker))]
    pub fn is_worker(&self, by: u16, disk: u8) -> bool
        requires cpus { spec.cpu_count self.now.state ≤ 16 }
        requires drives { spec.drive_count self.now.state ≤ 8 }
        ensures { result ≡ requests.is_worker self.now.state by disk }
    {
        if !self.is_drive(disk) {
            return false;
        }
        let first = self.first_worker(disk);
        first <= by && by < first + u16::from(self.drive(disk).workers)
    }
}

/// What is left of the grants of all vCPUs.
#[tactic(auto, unfolding(crate::specs::State::open_grants))]
pub fn open_grants(seats: &[Seat]) -> u64
    requires { length seats.now < 17 }
    ensures { result ≡ state.open_grants seats.now }
{
    seats.iter().map(|seat| u64::from(seat.left)).sum()
}

impl RunState {
    /// How many instructions may be granted yet: the limit without those that were executed and those that are granted.
    pub fn room(&self) -> u64
        requires { length self.now.state.seats ≤ 16 }
        ensures { result ≡ state.room_of self.now.state }
    {
        let open = open_grants(self.seats.as_slice());
        self.limit
            .saturating_sub(self.executed)
            .saturating_sub(open)
    }

    /// How many instructions were executed since the timers moved on last.
    pub fn lag(&self) -> u64
        ensures { result ≡ state.lag_of self.now.state }
    {
        self.executed.saturating_sub(self.seen)
    }

    /// How often an instruction stored into a page of the code.
    pub fn version(&self, page: u32) -> u64
        requires { page < length self.now.state.versions }
        ensures { result ≡ slice_index self.now.state.versions page }
    {
        self.versions.at(page as usize)
    }

    /// How often an instruction stored into a page of the code, of all pages together, modulo 2^64.
    #[inline(always)]
    pub fn version_total(&self) -> u64
        ensures { result ≡ sum self.now.state.versions % 2 ^ 64 }
    {
        self.versions.total()
    }
}

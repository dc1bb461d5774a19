//! The parts of a machine and of a run, by their numbers.

use crate::cpu::{Cpu, Seat};
use crate::drive::Drive;
use crate::image::DiskImage;
use crate::machine::Machine;
use crate::run_state::RunState;

impl Machine {
    ghost use Rattle.std.specs.Prelude.{◌≡◌, ◌<◌};
    ghost use Rattle.std.specs.Borrow.{sem};
    ghost use Rattle.vm_state.specs.Lending.{LendsCpu, LendsDrive};
    ghost use Rattle.vm_state.specs.Machine as spec;

    /// A vCPU.
    pub fn cpu(&self, i: u8) -> &Cpu
        requires { i < spec.cpu_count self.now.state }
        ensures { result.now ≡ spec.cpu_at self.now.state i }
    {
        self.cpus.at(i as usize)
    }

    /// A vCPU, to be written through.
    pub fn cpu_mut(&mut self, i: u8) -> &mut Cpu
        requires { i < spec.cpu_count self.old.state }
        ensures value { result.now ≡ spec.cpu_at self.old.state i }
        ensures* writes_back { sem 𝓛 (LendsCpu self.entry i result) }
    {
        self.cpus.at_mut(i as usize)
    }

    /// A block device.
    pub fn drive(&self, disk: u8) -> &Drive
        requires { disk < spec.drive_count self.now.state }
        ensures { result.now ≡ spec.drive_at self.now.state disk }
    {
        self.drives.at(disk as usize)
    }

    /// A block device, to be written through.
    pub fn drive_mut(&mut self, disk: u8) -> &mut Drive
        requires { disk < spec.drive_count self.old.state }
        ensures value { result.now ≡ spec.drive_at self.old.state disk }
        ensures* writes_back { sem 𝓛 (LendsDrive self.entry disk result) }
    {
        self.drives.at_mut(disk as usize)
    }
}

impl RunState {
    ghost use Rattle.std.specs.Prelude.{◌≡◌, ◌<◌, length};
    ghost use Rattle.std.specs.Borrow.{sem};
    ghost use Rattle.vm_state.specs.Lending.{LendsSeat, LendsImage};
    ghost use Rattle.vm_state.specs.State as spec;

    /// The seat of a vCPU.
    pub fn seat(&self, i: u8) -> &Seat
        requires { i < length self.now.state.seats }
        ensures { result.now ≡ spec.seat_at self.now.state i }
    {
        self.seats.at(i as usize)
    }

    /// The seat of a vCPU, to be written through.
    pub fn seat_mut(&mut self, i: u8) -> &mut Seat
        requires { i < length self.old.state.seats }
        ensures value { result.now ≡ spec.seat_at self.old.state i }
        ensures* writes_back { sem 𝓛 (LendsSeat self.entry i result) }
    {
        self.seats.at_mut(i as usize)
    }

    /// The image of a disk.
    pub fn image(&self, disk: u8) -> &DiskImage
        requires { disk < length self.now.state.images }
        ensures { result.now ≡ spec.image_at self.now.state disk }
    {
        self.images.at(disk as usize)
    }

    /// The image of a disk, to be written through.
    pub fn image_mut(&mut self, disk: u8) -> &mut DiskImage
        requires { disk < length self.old.state.images }
        ensures value { result.now ≡ spec.image_at self.old.state disk }
        ensures* writes_back { sem 𝓛 (LendsImage self.entry disk result) }
    {
        self.images.at_mut(disk as usize)
    }
}

//! Starts that a run can begin from.
ghost use Rattle.std.specs.Prelude.{◌≡◌, ◌≤◌, map, IfOk};
ghost use Rattle.std.specs.Bool.{OnTrue};
ghost use Rattle.std.specs.List.{All};
ghost use Rattle.guest_ram.specs.GuestRam.{IsSize};
ghost use Rattle.vm_law.specs.Image.{IsAllowed};
ghost use Rattle.vm_state.specs.declared.drive.Drive.{Drive};
ghost use Rattle.vm_state.specs.Start as spec;
ghost use Rattle.run_cases.specs.Sound.{AreDrivesOf, Fits, IsSoundBeside};

use crate::allowed::is_allowed;
use crate::case::CaseError;
use std::alloc::Global;
use vm_law::{Bytes, DiskPlan, FlatImage, OutOfMemory, Plan, Script, Seq};
use vm_state::{Drive, Machine, Origin, Start};
use vm_table::Run;

/// Whether it is a size of memory: 1 MiB to 1 GiB, in whole pages.
fn is_size(memory: u64) -> bool
    ensures { OnTrue result (IsSize memory) }
{
    0x10_0000 <= memory && memory <= 0x4000_0000 && memory % 4096 == 0
}

fn is_planned(disk: &DiskPlan) -> bool
    ensures { OnTrue result (spec.IsPlanned disk.now) }
{
    1 <= disk.workers && disk.workers <= 8
}

fn are_planned(disks: &[DiskPlan]) -> bool
    ensures { OnTrue result (All spec.IsPlanned disks.now) }
{
    disks.iter().all(|disk| is_planned(disk))
}

fn is_plan(plan: &Plan) -> bool
    ensures { OnTrue result (spec.IsPlan plan.now) }
{
    1 <= plan.cpus
        && plan.cpus <= 16
        && is_size(plan.memory)
        && plan.disks.len() <= 8
        && are_planned(plan.disks.as_slice())
}

/// Whether a disk has whole sectors, up to 64 MiB.
fn is_disk(bytes: &Seq<u8>) -> bool
    ensures { OnTrue result (spec.IsDisk bytes.now) }
{
    512 <= bytes.len() && bytes.len() <= 67_108_864 && bytes.len() % 512 == 0
}

fn are_disks(disks: &[Seq<u8>]) -> bool
    ensures { OnTrue result (All spec.IsDisk disks.now) }
{
    disks.iter().all(|disk| is_disk(disk))
}

fn is_limit(limit: u64) -> bool
    ensures { OnTrue result ((1 ≤ limit) × (limit ≤ 20000000)) }
{
    1 <= limit && limit <= 20_000_000
}

/// Whether all but the origin is as a run can begin from.
fn is_sound_beside(alloc: Global, start: &Start) -> Result<bool, CaseError>
    ensures { IfOk result (λ b. OnTrue b (IsSoundBeside start.now)) }
{
    if !is_plan(&start.plan) || start.disks.len() != start.plan.disks.len() {
        return Ok(false);
    }
    if !are_disks(start.disks.as_slice()) || !is_limit(start.limit) {
        return Ok(false);
    }
    is_allowed(alloc, &start.plan, start.script.as_slice())
}

/// Whether a memory allows the image.
fn allows(memory: u64, image: &FlatImage) -> bool
    ensures { OnTrue result (IsAllowed memory image.now) }
{
    let len = image.payload.len() as u64;
    0 < image.code
        && image.code <= 16_777_216
        && image.code <= len
        && image.entry < image.code
        && len <= memory
}

/// Whether a drive is the planned one.
fn is_drive_of(plan: &DiskPlan, drive: &Drive) -> bool
    ensures { OnTrue result (spec.IsDriveOf plan.now drive.now.bytes drive.now) }
{
    drive.ro == plan.ro && drive.workers == plan.workers
}

/// The disks of a machine.
fn disks_of(alloc: Global, drives: &[Drive]) -> Result<Seq<Seq<u8>>, OutOfMemory>
    ensures { IfOk result (λ disks. disks ≡ map (λ (x : Drive). x.bytes) drives.now) }
{
    let mut disks = Vec::new(alloc);
    for drive in drives {
        disks.push(drive.bytes.copy(alloc)?)?;
    }
    Ok(Seq::from_vec(disks))
}

/// Whether the drives are the planned ones.
fn are_drives_of(plans: &[DiskPlan], drives: &[Drive]) -> bool
    ensures { OnTrue result (AreDrivesOf plans.now drives.now) }
{
    if drives.len() != plans.len() {
        return false;
    }
    for d in 0..drives.len() {
        if !is_drive_of(&plans[d], &drives[d]) {
            return false;
        }
    }
    true
}

/// Whether a run is at a cut, and its machine is the planned one.
#[tactic(auto, unfolding(vm_orders::specs::Done::is_cut))]
fn fits(plan: &Plan, run: &Run) -> bool
    ensures { OnTrue result (Fits plan.now run.now.state) }
{
    run.is_cut()
        && run.cpu_count() == plan.cpus
        && run.machine().ram.size() == plan.memory
        && are_drives_of(plan.disks.as_slice(), run.machine().drives.as_slice())
}

/// The run that begins from a start whose origin fits, where the rest does.
fn begin_from(alloc: Global, start: &Start) -> Result<Run, CaseError>
    requires { spec.OriginFits start.now.plan start.now.disks start.now.origin }
{
    if !is_sound_beside(alloc, start)? {
        return Err(CaseError::Start);
    }
    Ok(Run::begin(alloc, start)?)
}

/// The run that begins from a flat image, where it can.
pub fn begin_flat(
    alloc: Global,
    plan: Plan,
    image: FlatImage,
    disks: Seq<Seq<u8>>,
    script: Script,
    limit: u64,
) -> Result<Run, CaseError> {
    if !allows(plan.memory, &image) {
        return Err(CaseError::Start);
    }
    let start = Start {
        plan,
        origin: Origin::Flat(image),
        disks,
        script,
        limit,
    };
    begin_from(alloc, &start)
}

/// The disks of a run and its machine.
fn saved_of(alloc: Global, run: &Run) -> Result<(Seq<Seq<u8>>, Machine), OutOfMemory>
    ensures disks { IfOk result (λ r. r.0 ≡ map (λ (x : Drive). x.bytes) run.now.state.machine.drives) }
    ensures machine { IfOk result (λ r. r.1.state ≡ run.now.state.machine) }
{
    let disks = disks_of(alloc, run.machine().drives.as_slice())?;
    let machine = run.machine().copy(alloc)?;
    Ok((disks, machine))
}

/// The run that begins from the machine of another, where it can.
#[tactic(auto, using(crate::proofs::Drives::saved_fits))]
pub fn begin_saved(
    alloc: Global,
    plan: Plan,
    script: Script,
    limit: u64,
    run: &Run,
) -> Result<Run, CaseError> {
    if !fits(&plan, run) {
        return Err(CaseError::Start);
    }
    run.is_sound();
    let (disks, machine) = saved_of(alloc, run)?;
    let start = Start {
        plan,
        origin: Origin::Saved(machine),
        disks,
        script,
        limit,
    };
    begin_from(alloc, &start)
}

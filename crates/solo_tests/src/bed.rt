//! The guest, played to its end with its disk in memory.
ghost use Rattle.std.specs.Prelude.{◌≡◌, length, IfOk};
ghost use Rattle.vm_host.specs.MemState.{image_view};
ghost use Rattle.vm_board.specs.Homes.{IsFresh};
ghost use Rattle.vm_solo.specs.Rounds.{IsNew};

use crate::guest::{blank, start};
use std::alloc::Global;
use std::test::Fail;
use vm_control::OutFault;
use vm_host::{Host, MemHost, MemImage, MemSink, NoGate};
use vm_law::OutOfMemory;
use vm_solo::Crew;
use vm_state::Why;
use vm_table::Run;

/// What came of it.
#[derive(Drop)]
pub struct Outcome {
    /// The first failure of control's work outside.
    pub fault: Option<OutFault>,
    /// Whether memory was wanted.
    pub starved: bool,
    pub closed: bool,
    pub ended: Option<Why>,
    /// How many orders of the script are done.
    pub place: u16,
    /// How many sectors of the disk are in doubt.
    pub doubt: u64,
    /// Whether the disk's image came home.
    pub home: bool,
    /// The first bytes of the disk's file.
    pub disk: [u8; 4],
}

/// The guest's crew, whose disk has these bytes and this image.
fn crew_with(alloc: Global, disk: &[u8], image: MemImage) -> Result<Crew<MemImage>, OutOfMemory>
    requires size { length disk.now ≡ 1024 }
    requires fresh { IsFresh disk.now (image_view image) }
    ensures { IfOk result (λ c. IsNew c) }
{
    let start = start(alloc, disk)?;
    let mut images = Vec::new(alloc);
    images.push(image)?;
    Crew::make(alloc, start, images)
}

/// The first bytes of the disk's file.
fn front(files: &MemHost) -> [u8; 4] {
    let mut front = [0; 4];
    if let Some(bytes) = files.file("disk") {
        if let Some(first) = bytes.get(..4) {
            front.copy_from_slice(first);
        }
    }
    front
}

/// What a run came to, whose disk has this file.
fn outcome_of(
    run: &Run,
    fault: Option<OutFault>,
    starved: bool,
    home: bool,
    disk: [u8; 4],
) -> Outcome {
    let doubt = if run.drive_count() > 0 {
        run.tally(0).doubt
    } else {
        0
    };
    Outcome {
        fault,
        starved,
        closed: run.closed(),
        ended: run.ended(),
        place: run.place(),
        doubt,
        home,
        disk,
    }
}

/// Plays the guest. The call of its disk's image that has this number fails.
pub fn play_guest(
    alloc: Global,
    failing: Option<u64>,
    console: &mut MemSink,
) -> Result<Outcome, Fail> {
    let mut files = MemHost::new(alloc);
    if let Some(call) = failing {
        files.fail_image(alloc, "disk", call)?;
    }
    let disk = blank();
    files.put(alloc, "disk", disk)?;
    let image = files.open_image(alloc, "disk")?;
    let mut crew = crew_with(alloc, disk, image)?;
    let fault = crew.play(alloc, &mut files, console, &NoGate).err();
    let starved = crew.board().starved();
    let (_, _, run, mut images) = crew.into_parts();
    let mut home = false;
    if let Some(Some(image)) = images.pop() {
        files.close_image("disk", image);
        home = true;
    }
    Ok(outcome_of(&run, fault, starved, home, front(&files)))
}

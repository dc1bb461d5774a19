//! The guests, played in threads.
ghost use Rattle.std.specs.Prelude.{◌≡◌, [], ◌∷◌, IfOk, IsSome};
ghost use Rattle.vm_host.specs.MemState.{image_view};
ghost use Rattle.vm_host.specs.Past.{file_of};
ghost use Rattle.vm_state.specs.Start.{IsSound};
ghost use Rattle.vm_board.specs.Homes.{AreFresh, IsFresh};

use crate::gates::{HoldsSlice, HoldsWrite};
use crate::guests::{blank, counts, jumps, two_disks};
use std::alloc::Global;
use std::process::Abort;
use std::sync::Wait;
use std::test::Fail;
use std::thread::Threads;
use vm_control::OutFault;
use vm_host::{Gate, Host, MemHost, MemImage, MemSink, NoGate};
use vm_law::OutOfMemory;
use vm_state::{Start, Why};
use vm_threads::{Played, Starts, play_threads};

/// No image.
pub fn no_images(alloc: Global, _start: &Start) -> Vec<MemImage>
    requires { _start.now.disks ≡ [] }
    ensures { AreFresh image_view _start.now.disks result.items }
{
    Vec::new(alloc)
}

/// A host with a file of these bytes, and its image.
fn disk_image(alloc: Global, name: &str, bytes: &[u8]) -> Result<(MemHost, MemImage), Fail>
    ensures there { IfOk result (λ r. IsSome (file_of r.0.past name.now)) }
    ensures fresh { IfOk result (λ r. IsFresh bytes.now (image_view r.1)) }
{
    let mut host = MemHost::new(alloc);
    host.put(alloc, name, bytes)?;
    let image = host.open_image(alloc, name)?;
    Ok((host, image))
}

/// Both images.
fn both(
    alloc: Global,
    _start: &Start,
    _disk: &[u8],
    first: MemImage,
    second: MemImage,
) -> Result<Vec<MemImage>, OutOfMemory>
    requires disks { _start.now.disks ≡ _disk.now ∷ _disk.now ∷ [] }
    requires first { IsFresh _disk.now (image_view first) }
    requires second { IsFresh _disk.now (image_view second) }
    ensures { IfOk result (λ v. AreFresh image_view _start.now.disks v.items) }
{
    let mut images = Vec::new(alloc);
    images.push(first)?;
    images.push(second)?;
    Ok(images)
}

/// Whether the image came back. Its host's file begins with these bytes then.
fn came_back(host: &mut MemHost, name: &str, image: Option<Option<MemImage>>, bytes: &[u8]) -> bool
    requires { IsSome (file_of host.old.past name.now) }
{
    if let Some(Some(image)) = image {
        host.close_image(name, image);
    } else {
        return false;
    }
    match host.file(name) {
        Some(file) => file.starts_with(bytes),
        None => false,
    }
}

/// What a run in threads came to.
#[derive(Drop)]
pub struct Came {
    pub answer: Result<(), OutFault>,
    pub closed: bool,
    pub ended: Option<Why>,
    pub images: Vec<Option<MemImage>>,
}

/// Plays the actors of a start in threads. The tests call it and not `play_threads` itself, so that none of them has a board to
/// drop.
pub fn plays<R: Threads + Wait + Sync, G: Gate + Sync>(
    rt: &R,
    alloc: Global,
    start: Start,
    images: Vec<MemImage>,
    console: &mut MemSink,
    gate: &G,
    starts: Starts,
) -> Result<Came, OutOfMemory>
    requires sound { IsSound start }
    requires fresh { AreFresh image_view start.disks images.items }
{
    let mut host = MemHost::new(alloc);
    let Played { board, answer } = play_threads(
        rt, alloc, start, images, &mut host, console, gate, starts,
    )?;
    let closed = board.run().closed();
    let ended = board.run().ended();
    let (_, _, _, images) = board.into_parts();
    Ok(Came {
        answer,
        closed,
        ended,
        images,
    })
}

/// The guest in which one vCPU counts for the other: it sends 1, whoever has a thread.
fn counts_with<R: Threads + Wait + Abort + Sync>(
    rt: &R,
    alloc: Global,
    starts: Starts,
) -> Result<(), Fail> {
    let start = counts(alloc)?;
    let images = no_images(alloc, &start);
    let mut console = MemSink::new(alloc);
    let came = plays(rt, alloc, start, images, &mut console, &NoGate, starts)?;
    assert!(rt; came.answer.is_ok());
    assert!(rt; came.closed);
    assert!(rt; came.ended == Some(Why::Finished));
    assert_eq!(rt; console.taken(), b"1".as_slice());
    Ok(())
}

#[test]
fn one_counts_for_the_other(rt: HostRuntime) -> Result<(), Fail> {
    counts_with(&rt, rt.alloc(), Starts::Each)
}

#[test]
fn one_counts_without_threads(rt: HostRuntime) -> Result<(), Fail> {
    counts_with(&rt, rt.alloc(), Starts::NoOne)
}

#[test]
fn one_counts_with_every_second_thread(rt: HostRuntime) -> Result<(), Fail> {
    counts_with(&rt, rt.alloc(), Starts::EverySecond)
}

#[test]
fn a_slice_begins_while_another_is_held(rt: HostRuntime) -> Result<(), Fail> {
    let alloc = rt.alloc();
    let start = jumps(alloc)?;
    let images = no_images(alloc, &start);
    let mut console = MemSink::new(alloc);
    let gate = HoldsSlice::new();
    let came = plays(&rt, alloc, start, images, &mut console, &gate, Starts::Each)?;
    assert!(rt; gate.saw_it());
    assert!(rt; came.answer.is_ok());
    assert!(rt; came.ended == Some(Why::Finished));
    assert_eq!(rt; console.taken(), b"A".as_slice());
    Ok(())
}

/// The guest that writes to two disks: both are written, whoever has a thread.
fn writes_with<R: Threads + Wait + Abort + Sync, G: Gate + Sync>(
    rt: &R,
    alloc: Global,
    gate: &G,
    starts: Starts,
) -> Result<(), Fail> {
    let disk = blank();
    let start = two_disks(alloc, disk)?;
    let name = "disk";
    let (mut first, a) = disk_image(alloc, name, disk)?;
    let (mut second, b) = disk_image(alloc, name, disk)?;
    let images = both(alloc, &start, disk, a, b)?;
    let mut console = MemSink::new(alloc);
    let came = plays(rt, alloc, start, images, &mut console, gate, starts)?;
    assert!(rt; came.answer.is_ok());
    assert!(rt; came.ended == Some(Why::Finished));
    let mut images = came.images;
    assert!(rt; came_back(&mut second, name, images.pop(), b"efgh"));
    assert!(rt; came_back(&mut first, name, images.pop(), b"abcd"));
    Ok(())
}

#[test]
fn a_write_begins_while_another_is_held(rt: HostRuntime) -> Result<(), Fail> {
    let gate = HoldsWrite::new();
    writes_with(&rt, rt.alloc(), &gate, Starts::Each)?;
    assert!(rt; gate.saw_it());
    Ok(())
}

#[test]
fn disks_are_written_without_threads(rt: HostRuntime) -> Result<(), Fail> {
    writes_with(&rt, rt.alloc(), &NoGate, Starts::NoOne)
}

#[test]
fn disks_are_written_with_every_second_thread(rt: HostRuntime) -> Result<(), Fail> {
    writes_with(&rt, rt.alloc(), &NoGate, Starts::EverySecond)
}

#[test]
fn a_console_that_fails_ends_the_run(rt: HostRuntime) -> Result<(), Fail> {
    let alloc = rt.alloc();
    let start = counts(alloc)?;
    let images = no_images(alloc, &start);
    let mut console = MemSink::new(alloc);
    console.fail(0)?;
    let came = plays(
        &rt,
        alloc,
        start,
        images,
        &mut console,
        &NoGate,
        Starts::Each,
    )?;
    assert!(rt; matches!(came.answer, Err(OutFault::Sink)));
    assert!(rt; came.closed);
    assert_eq!(rt; console.taken().len(), 0);
    Ok(())
}

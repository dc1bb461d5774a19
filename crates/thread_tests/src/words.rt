//! The guests as files, run by the words of a command line.

use crate::gates::{HoldsSlice, HoldsWrite};
use crate::guests::{JUMPS, writes};
use std::alloc::Global;
use std::sync::Wait;
use std::test::Fail;
use std::thread::Threads;
use vm_host::{Gate, MemHost, MemSink};
use vm_law::OutOfMemory;
use vm_run::vmrun;

/// Two vCPUs, and a script.
const TWO_CPUS: &str = "cpus=2\nmemory.size=1\nflat.image=g\nflat.script=s\n";

/// Two disks with a worker each.
const TWO_DISKS: &str =
    "memory.size=1\nflat.image=g\npci.0.2.0.device=virtio-blk\npci.0.2.0.path=a\npci.0.2.0.workers=1\npci.0.3.0.device=virtio-blk\npci.0.3.0.path=b\npci.0.3.0.workers=1\n";

/// A flat image of a payload that begins with so many bytes of code, of which the run begins at `entry`.
pub fn flat_image(
    alloc: Global,
    entry: u64,
    code: u64,
    payload: &[u8],
) -> Result<Vec<u8>, OutOfMemory> {
    let mut bytes = Vec::new(alloc);
    bytes.extend_from_slice(b"VMFLAT1\n")?;
    bytes.extend_from_slice(&entry.to_le_bytes())?;
    bytes.extend_from_slice(&code.to_le_bytes())?;
    bytes.extend_from_slice(payload)?;
    Ok(bytes)
}

/// The status of a command line, on files in memory.
pub fn status_of<R, G>(
    rt: &R,
    alloc: Global,
    words: &[&str],
    host: &mut MemHost,
    console: &mut MemSink,
    gate: &G,
) -> u8
where
    R: Threads + Wait + Sync,
    G: Gate + Sync,
{
    let mut log = MemSink::new(alloc);
    vmrun(rt, alloc, words, host, console, &mut log, gate).status
}

#[test]
fn run_begins_a_slice_while_another_is_held(rt: HostRuntime) -> Result<(), Fail> {
    let alloc = rt.alloc();
    let mut host = MemHost::new(alloc);
    host.put(alloc, "c", TWO_CPUS.as_bytes())?;
    host.put(alloc, "g", &flat_image(alloc, 2, 22, &JUMPS)?)?;
    host.put(alloc, "s", b"wait console 1\n")?;
    let mut console = MemSink::new(alloc);
    let gate = HoldsSlice::new();
    let status = status_of(
        &rt,
        alloc,
        &["run", "c", "--limit", "20000000"],
        &mut host,
        &mut console,
        &gate,
    );
    assert!(rt; gate.saw_it());
    assert_eq!(rt; status, 0);
    assert_eq!(rt; console.taken(), b"A".as_slice());
    Ok(())
}

#[test]
fn run_begins_a_write_while_another_is_held(rt: HostRuntime) -> Result<(), Fail> {
    let alloc = rt.alloc();
    let mut host = MemHost::new(alloc);
    host.put(alloc, "a", &[0; 512])?;
    host.put(alloc, "b", &[0; 512])?;
    host.put(alloc, "c", TWO_DISKS.as_bytes())?;
    let payload = writes(alloc)?;
    host.put(alloc, "g", &flat_image(alloc, 0, 179, payload.as_slice())?)?;
    let mut console = MemSink::new(alloc);
    let gate = HoldsWrite::new();
    let status = status_of(&rt, alloc, &["run", "c"], &mut host, &mut console, &gate);
    assert!(rt; gate.saw_it());
    assert_eq!(rt; status, 0);
    let a = host.file("a").ok_or("no disk")?;
    assert_eq!(rt; a.get(..4).ok_or("short")?, b"abcd".as_slice());
    let b = host.file("b").ok_or("no disk")?;
    assert_eq!(rt; b.get(..4).ok_or("short")?, b"efgh".as_slice());
    Ok(())
}

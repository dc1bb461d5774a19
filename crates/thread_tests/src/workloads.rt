//! Sixteen vCPUs that count to 10,000 each: the first of them writes the sum once the others are done.

use crate::guests::sixteen;
use crate::runs::{no_images, plays};
use crate::words::{flat_image, status_of};
use std::alloc::Global;
use std::test::Fail;
use vm_asm::workload;
use vm_host::{MemHost, MemSink, NoGate};
use vm_state::Why;
use vm_threads::Starts;

#[test]
fn sixteen_sum_without_threads(rt: HostRuntime) -> Result<(), Fail> {
    let alloc = rt.alloc();
    let start = sixteen(alloc)?;
    let images = no_images(alloc, &start);
    let mut console = MemSink::new(alloc);
    let came = plays(
        &rt,
        alloc,
        start,
        images,
        &mut console,
        &NoGate,
        Starts::NoOne,
    )?;
    assert!(rt; came.answer.is_ok());
    assert!(rt; came.ended == Some(Why::Finished));
    assert_eq!(rt; console.taken(), b"00027100\n".as_slice());
    Ok(())
}

#[test]
fn sixteen_sum_and_the_journal_replays(rt: HostRuntime) -> Result<(), Fail> {
    let alloc = rt.alloc();
    let image = workload(alloc, &[10_000; 16])?;
    let file = flat_image(alloc, image.entry, image.code, image.payload.as_slice())?;
    let mut host = MemHost::new(alloc);
    host.put(alloc, "c", b"cpus=16\nmemory.size=16\nflat.image=g\n")?;
    host.put(alloc, "g", &file)?;
    let mut console = MemSink::new(alloc);
    let status = status_of(
        &rt,
        alloc,
        &["run", "c", "--limit", "20000000", "--journal", "j"],
        &mut host,
        &mut console,
        &NoGate,
    );
    assert_eq!(rt; status, 0);
    assert_eq!(rt; console.taken(), b"00027100\n".as_slice());
    let mut again = MemSink::new(alloc);
    let status = status_of(
        &rt,
        alloc,
        &["replay", "c", "j", "--limit", "20000000"],
        &mut host,
        &mut again,
        &NoGate,
    );
    assert_eq!(rt; status, 0);
    assert_eq!(rt; again.taken(), console.taken());
    Ok(())
}

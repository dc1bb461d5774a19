//! The guest, played to its end.

use crate::bed::play_guest;
use std::test::Fail;
use vm_control::OutFault;
use vm_host::MemSink;
use vm_state::Why;

#[test]
fn prints_writes_and_closes(rt: HostRuntime) -> Result<(), Fail> {
    let alloc = rt.alloc();
    let mut console = MemSink::new(alloc);
    let outcome = play_guest(alloc, None, &mut console)?;
    assert!(rt; outcome.fault.is_none());
    assert!(rt; !outcome.starved);
    assert!(rt; outcome.closed);
    assert!(rt; outcome.ended == Some(Why::Finished));
    assert_eq!(rt; outcome.place, 2);
    assert_eq!(rt; console.taken(), b"AB".as_slice());
    assert!(rt; outcome.home);
    assert_eq!(rt; outcome.disk.as_slice(), b"abcd".as_slice());
    assert_eq!(rt; outcome.doubt, 0);
    Ok(())
}

#[test]
fn a_console_that_fails_ends_the_run(rt: HostRuntime) -> Result<(), Fail> {
    let alloc = rt.alloc();
    let mut console = MemSink::new(alloc);
    console.fail(0)?;
    let outcome = play_guest(alloc, None, &mut console)?;
    assert!(rt; outcome.fault == Some(OutFault::Sink));
    assert!(rt; outcome.closed);
    assert!(rt; outcome.ended == Some(Why::Outside));
    assert_eq!(rt; console.taken().len(), 0);
    assert!(rt; outcome.home);
    Ok(())
}

#[test]
fn a_disk_that_fails_is_told(rt: HostRuntime) -> Result<(), Fail> {
    let alloc = rt.alloc();
    let mut console = MemSink::new(alloc);
    let outcome = play_guest(alloc, Some(0), &mut console)?;
    assert!(rt; outcome.fault.is_none());
    assert!(rt; outcome.closed);
    assert!(rt; outcome.ended == Some(Why::Finished));
    assert_eq!(rt; console.taken(), b"AB".as_slice());
    assert!(rt; outcome.home);
    assert_eq!(rt; outcome.disk.as_slice(), [0; 4].as_slice());
    assert_eq!(rt; outcome.doubt, 1);
    Ok(())
}

use std::test::Fail;
use vm_host::{FailedName, Gate, HostFault, MemSink, MemText, NoGate, Place, Sink, TextSource};
use vm_law::OutOfMemory;

#[test]
fn a_failed_name_is_kept_up_to_its_limit(rt: HostRuntime) -> Result<(), Fail> {
    let mut name = FailedName::new();
    assert!(rt; name.as_bytes().is_empty());
    let mut long = String::new(rt.alloc());
    for _ in 0..4097 {
        long.push('x')?;
    }
    name.set(long.as_str());
    assert_eq!(rt; name.as_bytes(), [b'x'; 4096].as_slice());
    name.set("f");
    assert_eq!(rt; name.as_bytes(), b"f".as_slice());
    Ok(())
}

#[test]
fn a_sink_that_fails_keeps_what_it_took(rt: HostRuntime) -> Result<(), Fail> {
    let alloc = rt.alloc();
    let mut sink = MemSink::new(alloc);
    sink.fail(1)?;
    assert_eq!(rt; sink.write(b"ab")?, 2);
    assert!(rt; sink.write(b"cd").is_err());
    assert_eq!(rt; sink.taken(), b"ab".as_slice());
    assert_eq!(rt; sink.write(b"")?, 0);
    assert_eq!(rt; sink.write(b"ef")?, 2);
    assert_eq!(rt; sink.taken(), b"abef".as_slice());
    Ok(())
}

#[test]
fn a_text_comes_in_pieces(rt: HostRuntime) -> Result<(), Fail> {
    let mut text = MemText::new(b"abcdef", 4);
    let mut into = [0; 4100];
    assert_eq!(rt; text.next(&mut into), 4);
    assert_eq!(rt; &into[..4], b"abcd".as_slice());
    assert_eq!(rt; text.next(&mut into), 2);
    assert_eq!(rt; &into[..2], b"ef".as_slice());
    assert_eq!(rt; text.next(&mut into), 0);
    Ok(())
}

#[test]
fn refused_memory_is_its_own_fault(rt: HostRuntime) -> Result<(), Fail> {
    let alloc = rt.alloc();
    let fault: HostFault = OutOfMemory.into();
    assert_eq!(rt; fault, HostFault::Memory);
    let text = format!(in alloc; "{}, {}, {}", HostFault::Missing, HostFault::Failed, fault)?;
    assert_eq!(rt;
        text.as_str(),
        "no such file, the file system failed, out of memory"
    );
    NoGate.at(Place::Slice { cpu: 0 });
    NoGate.at(Place::Write { disk: 7 });
    Ok(())
}

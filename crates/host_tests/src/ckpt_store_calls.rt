use ckpt_store::*;
use std::test::Fail;
use vm_host::{HostFault, MemHost, MemText};

const TEXT: &[u8] = b"\x01some text";

#[test]
fn a_saved_file_is_loaded(rt: HostRuntime) -> Result<(), Fail> {
    let alloc = rt.alloc();
    let mut host = MemHost::new(alloc);
    host.put(alloc, "f", b"an older and longer text")?;
    save(alloc, &mut host, "f", TEXT)?;
    accepted_is_whole();
    let back = load(alloc, &mut host, "f", 10)?;
    assert_eq!(rt; back.as_slice(), TEXT);
    let gated = load_gated(alloc, &mut host, "f", 10)?;
    assert_eq!(rt; gated.as_slice(), TEXT);
    let long = load(alloc, &mut host, "f", 9).err();
    assert!(rt; long == Some(LoadFault::Long));
    Ok(())
}

#[test]
fn a_text_in_pieces_is_saved(rt: HostRuntime) -> Result<(), Fail> {
    let alloc = rt.alloc();
    let mut host = MemHost::new(alloc);
    let text = [1u8; 9000];
    assert!(rt; text.first() == Some(&1));
    save_from(alloc, &mut host, "f", &mut MemText::new(&text, 4000))?;
    let back = load(alloc, &mut host, "f", 9000)?;
    assert!(rt; back.len() == 9000 && back.iter().all(|byte| *byte == 1));
    Ok(())
}

#[test]
fn a_shut_gate_is_all_that_is_read(rt: HostRuntime) -> Result<(), Fail> {
    let alloc = rt.alloc();
    let mut host = MemHost::new(alloc);
    host.put(alloc, "f", b"\x00some text")?;
    let gate = load_gated(alloc, &mut host, "f", 100)?;
    assert_eq!(rt; gate.as_slice(), [0].as_slice());
    Ok(())
}

#[test]
fn a_save_that_stops_leaves_the_file_shut(rt: HostRuntime) -> Result<(), Fail> {
    let alloc = rt.alloc();
    // what the file reads as where the call of this number fails: make, and then a write and a sync three times
    let files: [&[u8]; 7] = [
        b"old",
        b"",
        b"\0",
        b"\0",
        b"\0some text",
        b"\0some text",
        b"\x01some text",
    ];
    for (call, want) in files.iter().enumerate() {
        let mut host = MemHost::new(alloc);
        host.put(alloc, "f", b"old")?;
        host.fail(alloc, call as u64)?;
        let answer = save(alloc, &mut host, "f", TEXT);
        assert!(rt; answer == Err(HostFault::Failed), "call {call}");
        assert!(rt; host.failed() == b"f".as_slice(), "call {call}");
        let file = host.file("f").ok_or("the file is there")?;
        assert!(rt; file == *want, "call {call}");
    }
    Ok(())
}

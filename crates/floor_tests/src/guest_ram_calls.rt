use guest_ram::{GuestRam, writes_keep_code, writes_keep_size};
use std::test::Fail;
use vm_law::{Bytes, FlatImage, Seq};

const MEBIBYTE: u64 = 1048576;

/// A memory of one mebibyte that begins with 1, 2, 3, of which the first two bytes are code.
fn small(rt: &HostRuntime) -> Result<GuestRam, Fail> {
    let payload = Seq::from_slice(rt.alloc(), &[1, 2, 3])?;
    let image = FlatImage {
        entry: 0,
        code: 2,
        payload,
    };
    Ok(GuestRam::new(rt.alloc(), MEBIBYTE, &image)?)
}

/// Four bytes from an address on.
fn four(ram: &GuestRam, at: u64) -> [u8; 4] {
    let mut found = [0xFF; 4];
    ram.is_sound();
    if at <= ram.size() && 4 <= ram.size() - at {
        ram.read(at, &mut found);
    }
    found
}

/// The payload stands at address 0 with zeros behind it to the end, a write replaces the bytes that it names, also in two
/// pages, and a copy is a memory of its own.
#[test]
fn loaded_written_and_copied(rt: HostRuntime) -> Result<(), Fail> {
    writes_keep_size();
    writes_keep_code();
    let mut ram = small(&rt)?;
    let copy = ram.copy(rt.alloc())?;
    ram.reserve(rt.alloc(), 4)?;
    ram.is_sound();
    assert!(rt; ram.size() == MEBIBYTE && ram.code() == 2);
    ram.write(4095, &[9, 8]);
    assert!(rt; ram.size() == MEBIBYTE);
    ram.write(MEBIBYTE - 1, &[7]);
    assert!(rt; four(&copy, 0) == [1, 2, 3, 0] && four(&copy, 4094) == [0, 0, 0, 0]);
    assert!(rt; four(&ram, 0) == [1, 2, 3, 0] && four(&ram, 4094) == [0, 9, 8, 0]);
    assert!(rt; four(&ram, MEBIBYTE - 4) == [0, 0, 0, 7]);
    Ok(())
}

/// The pages that hold the payload stand, one that is written stands from then on, and no other does. What is fetched
/// ends where the code does.
#[test]
fn pages_and_fetching(rt: HostRuntime) -> Result<(), Fail> {
    let ram = small(&rt)?;
    let first = ram.page(0).ok_or("absent")?;
    assert!(rt; first[0] == 1 && first[2] == 3 && first[3] == 0);
    assert!(rt; ram.page(1).is_none() && ram.page(255).is_none() && ram.page(256).is_none());
    let mut bytes = [0xFF; 15];
    assert!(rt; ram.fetch(1, &mut bytes) == 1 && bytes[0] == 2);
    assert!(rt; ram.fetch(2, &mut bytes) == 0);
    Ok(())
}

use std::test::Fail;
use vm_law::{CpuSet, OutOfMemory, Seq, Text};

#[test]
fn lists_are_lists(rt: HostRuntime) -> Result<(), Fail> {
    let mut list = Seq::from_slice(rt.alloc(), &[3u8, 5, 8])?;
    list.push(13)?;
    assert!(rt; list.len() == 4 && !list.is_empty());
    list.set(0, 2);
    *list.at_mut(1) = 4;
    list.write_at(2, &[6, 7]);
    assert!(rt; *list.at(0) == 2);
    let copy = list.copy(rt.alloc())?;
    assert_eq!(rt; copy.as_slice(), [2, 4, 6, 7].as_slice());
    let same = Seq::from_vec(copy.into_vec());
    assert_eq!(rt; same.as_slice(), list.as_slice());
    assert!(rt; Seq::<u8>::new(rt.alloc()).is_empty());
    Ok(())
}

#[test]
fn texts_are_their_bytes(rt: HostRuntime) -> Result<(), Fail> {
    let text = Text::from_text(rt.alloc(), "a.img")?;
    let copy = text.copy(rt.alloc())?;
    assert_eq!(rt; copy.as_str(), "a.img");
    let named = Text::from_string(String::from_str(rt.alloc(), "é")?);
    assert_eq!(rt; named.as_str().len(), 2);
    Ok(())
}

#[test]
fn sets_of_vcpus(rt: HostRuntime) {
    let mut set = CpuSet::empty();
    assert!(rt; !set.has(3));
    set.insert(3);
    set.insert(15);
    assert!(rt; set.has(3) && set.has(15) && !set.has(4));
    let copy = set.copy();
    assert!(rt; copy.is_same(&set));
    set.insert(0);
    assert!(rt; !copy.is_same(&set));
    set.is_small();
}

#[test]
fn refused_memory_is_told(rt: HostRuntime) -> Result<(), Fail> {
    let text = format!(in rt.alloc(); "{}", OutOfMemory)?;
    assert_eq!(rt; text.as_str(), "out of memory");
    Ok(())
}

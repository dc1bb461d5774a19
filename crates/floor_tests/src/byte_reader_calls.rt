use byte_reader::{ReadError, read_bytes, read_text, read_u8, read_u16, read_u32, read_u64};

#[test]
fn numbers_are_read_low_byte_first(rt: HostRuntime) {
    let bytes = [0x01, 0x02, 0x03, 0x04, 0x05, 0x06, 0x07, 0x88, 0x99];
    let Ok((byte, rest)) = read_u8('s', &bytes) else {
        panic!(rt; "there is a byte")
    };
    assert!(rt; byte == 1 && rest.len() == 8);
    let Ok((word, _)) = read_u16('s', &bytes) else {
        panic!(rt; "there are two bytes")
    };
    assert!(rt; word == 0x0201);
    let Ok((long, _)) = read_u32('s', &bytes) else {
        panic!(rt; "there are four bytes")
    };
    assert!(rt; long == 0x0403_0201);
    let Ok((quad, rest)) = read_u64('s', &bytes) else {
        panic!(rt; "there are eight bytes")
    };
    assert!(rt; quad == 0x8807_0605_0403_0201 && rest.len() == 1);
    let Ok((three, rest)) = read_bytes('s', 3, &bytes) else {
        panic!(rt; "there are three bytes")
    };
    assert!(rt; three.len() == 3 && rest.len() == 6);
    let Err(ReadError::Refused(fault)) = read_u16('s', &bytes[8..]) else {
        panic!(rt; "there is one byte")
    };
    assert!(rt; fault.left == 1 && fault.kind == 's');
}

#[test]
fn a_fixed_text_is_read(rt: HostRuntime) {
    let Ok(((), rest)) = read_text('s', 'o', &[1, 2], &[1, 2, 3]) else {
        panic!(rt; "the text stands there")
    };
    assert!(rt; rest.len() == 1);
    let Err(ReadError::Refused(fault)) = read_text('s', 'o', &[1, 2], &[1, 7, 3]) else {
        panic!(rt; "another byte stands there")
    };
    assert!(rt; fault.left == 2 && fault.kind == 'o');
}

use std::test::Fail;
use text_reader::{
    Separators, after_byte, after_prefix, content, cut_at, digit, first_line, hex_number, number,
    numeral, utf8_of, words,
};

#[test]
fn lines(rt: HostRuntime) {
    let (line, rest) = first_line(b"a\r\nb");
    assert!(rt; line == b"a".as_slice() && rest == Some(b"b".as_slice()));
    assert!(rt; content(b" \tx#") == Some(b"x#".as_slice()) && content(b" # x").is_none());
    assert!(rt; utf8_of(b"a") == Some("a") && utf8_of(b"\xff").is_none());
}

#[test]
fn parts(rt: HostRuntime) -> Result<(), Fail> {
    assert!(rt; cut_at("a=b=c", '=') == Some(("a", "b=c")));
    assert!(rt; after_byte("xy", 'x') == Some("y"));
    let spaced = words(rt.alloc(), " a\tb  c ", Separators::Spaces)?;
    assert!(rt; spaced.as_slice() == ["a\tb", "c"].as_slice());
    let blank = words(rt.alloc(), " a\tb  c ", Separators::Blanks)?;
    assert!(rt; blank.as_slice() == ["a", "b", "c"].as_slice());
    Ok(())
}

#[test]
fn numbers(rt: HostRuntime) {
    assert!(rt; digit(b'F', 16) == Some(15));
    assert!(rt; numeral("007", 10, 3) == Some(7));
    assert!(rt; number(b"00fF", 16) == Some(255));
    assert!(rt; number(b"18446744073709551617", 10) == Some(0x1_0000_0000_0000_0000));
    assert!(rt; hex_number("0x1f", 16) == Some(31));
    assert!(rt; after_prefix("0x1f") == Some("1f") && after_prefix("01f").is_none());
}

use vm_vectors::VectorSet;

// Vector v is bit v % 8 of byte v / 8, and bit v % 32 of word v / 32.
#[test]
fn a_set_and_its_bits(rt: HostRuntime) {
    let mut set = VectorSet::empty();
    assert!(rt; set.highest().is_none());
    assert_eq!(rt; set.to_bytes(), [0; 32]);
    for vector in [0u8, 32, 33, 65, 255] {
        set.insert(vector);
        assert_eq!(rt; set.highest(), Some(vector));
    }
    set.is_small();
    assert!(rt; set.has(33) && !set.has(34) && set.has(0) && set.has(255));

    let words = [1, 3, 2, 0, 0, 0, 0, 0x8000_0000];
    for (k, word) in words.iter().enumerate() {
        assert_eq!(rt; set.word(k as u8), *word, "word {k}");
    }

    let bytes = set.to_bytes();
    for (k, byte) in [(0, 1u8), (4, 3), (8, 2), (31, 0x80), (5, 0)] {
        assert_eq!(rt; bytes[k], byte, "byte {k}");
    }

    let mut copy = VectorSet::from_bytes(&bytes).copy();
    assert_eq!(rt; copy.to_bytes(), bytes);
    copy.remove(255);
    copy.remove(7);
    assert_eq!(rt; copy.highest(), Some(65));
    assert_eq!(rt; set.highest(), Some(255));
}

use vm_law::{ArithmeticOp, Insn, Loc, Op, Src, Width};
use x86_encode::{Labels, encode, encode_labelled, encoded_decodes, labelled, spelled};

/// ADD of a number to RBX.
fn add(number: i64) -> Insn {
    Insn {
        lock: false,
        width: Width::Q,
        op: Op::Alu(ArithmeticOp::Add, Loc::Reg(3), Src::Imm(number)),
    }
}

#[test]
fn the_shortest_spelling_is_written(rt: HostRuntime) {
    encoded_decodes();
    let one = add(1);
    let mut into = [0xAA; 15];
    assert!(rt; spelled(&one));
    // REX.W, opcode 83 /0 with a byte, mod 3 and rm 3.
    assert_eq!(rt; encode(&one, &mut into), 4);
    assert!(rt; into[..5] == [0x48, 0x83, 0xC3, 0x01, 0xAA]);
}

#[test]
fn a_label_has_32_bits(rt: HostRuntime) {
    let one = add(1);
    let immediate = Labels {
        displacement: false,
        immediate: true,
    };
    let mut into = [0xAA; 15];
    assert!(rt; labelled(&one, immediate));
    // REX.W, opcode 81 /0 with four bytes.
    assert_eq!(rt; encode_labelled(&one, immediate, &mut into), 7);
    assert!(rt; into[..8] == [0x48, 0x81, 0xC3, 0x01, 0x00, 0x00, 0x00, 0xAA]);
}

#[test]
fn no_field_holds_a_number_of_33_bits(rt: HostRuntime) {
    assert!(rt; !spelled(&add(0x8000_0000)));
}

use vm_law::Loc;

/// An immediate by its size, as its bytes say it, without a sign. Source: Intel SDM volume 2, section 3.1.1.3, imm8 to
/// imm64.
#[derive(Clone, Copy)]
pub enum Immediate {
    Imm8(u8),
    Imm16(u16),
    Imm32(u32),
    Imm64(u64),
}

/// The operands that the parts of a spelling name, the destination first.
#[derive(Clone, Copy)]
pub enum Operands {
    None,
    Immediate(Immediate),
    Place(Loc),
    Places(Loc, Loc),
    PlaceAndImmediate(Loc, Immediate),
    PlacesAndImmediate(Loc, Loc, Immediate),
}

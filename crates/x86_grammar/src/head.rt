use crate::table::Map;

/// The prefixes that stand before an opcode. Source: Intel SDM volume 2, section 2.1.1.
#[derive(Clone, Copy)]
pub struct Prefixes {
    /// 66, the operand-size override.
    pub size: bool,
    /// F0, LOCK.
    pub lock: bool,
    /// F3, which is a part of the opcode of PAUSE and ENDBR64.
    pub rep: bool,
}

/// The bits of a REX byte. Source: Intel SDM volume 2, section 2.2.1.2.
#[derive(Clone, Copy)]
pub struct Rex {
    /// A width of 64 bits.
    pub w: bool,
    /// The top bit of ModRM's register.
    pub r: bool,
    /// The top bit of SIB's index.
    pub x: bool,
    /// The top bit of ModRM's operand, of SIB's base or of the register in the opcode byte.
    pub b: bool,
}

/// Prefixes, REX byte and opcode.
#[derive(Clone, Copy)]
pub struct Head {
    pub prefixes: Prefixes,
    pub rex: Option<Rex>,
    pub map: Map,
    /// The opcode byte; in the second map the one behind 0F.
    pub byte: u8,
}

/// An operation on two operands or one. Source: Intel SDM volume 2.
#[derive(Clone, Copy, Debug, PartialEq, Eq)]
pub enum AluOp {
    Add,
    Or,
    /// ADD with the carry flag.
    Adc,
    /// SUB with the borrow in the carry flag.
    Sbb,
    And,
    Sub,
    Xor,
    /// SUB whose result is dropped.
    Cmp,
    /// AND whose result is dropped.
    Test,
    Not,
    Neg,
    Inc,
    Dec,
}

/// A test of one bit or a scan for one. Source: Intel SDM volume 2.
#[derive(Clone, Copy, Debug, PartialEq, Eq)]
pub enum BitOp {
    /// Copies a bit into the carry flag.
    Bt,
    /// The same, and sets the bit.
    Bts,
    /// The same, and clears the bit.
    Btr,
    /// The same, and turns the bit over.
    Btc,
    /// The place of the lowest 1.
    Bsf,
    /// The place of the highest 1.
    Bsr,
}

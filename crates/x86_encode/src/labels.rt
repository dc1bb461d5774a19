/// Which fields of an instruction hold a label: such a field has 32 bits, whatever number it holds.
#[derive(Clone, Copy, Debug, PartialEq, Eq)]
pub struct Labels {
    /// The displacement of its operand in memory.
    pub displacement: bool,
    /// Its immediate, or how far it jumps.
    pub immediate: bool,
}

use vm_law::Condition;

/// The conditions by the number that an opcode byte gives them in its low four bits. Source: Intel SDM volume 1,
/// appendix B, table B-1.
pub static CONDITIONS: [Condition; 16] = [
    Condition::O,
    Condition::No,
    Condition::B,
    Condition::Ae,
    Condition::E,
    Condition::Ne,
    Condition::Be,
    Condition::A,
    Condition::S,
    Condition::Ns,
    Condition::P,
    Condition::Np,
    Condition::L,
    Condition::Ge,
    Condition::Le,
    Condition::G,
];

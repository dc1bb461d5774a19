//! What the definitions of the text mean to each other.
ghost use Rattle.asm_insn.specs.Law.{SpellerLaw};

/// There is a function that gives each instruction's canonical spelling, of which the clauses of this crate speak.
pub fn spelling_is_a_function()
    ensures { SpellerLaw }
{}

//! What comes back.
ghost use Rattle.vm_asm.specs.Law.{ComesBackLaw};

/// What `disassemble` gives of code in which each instruction stands as its canonical spelling is assembled to that code.
pub fn canonical_code_comes_back()
    ensures { ComesBackLaw }
{}

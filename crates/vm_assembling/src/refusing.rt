//! From what is wrong with an assembler text to the refusal that says so.
ghost use Rattle.std.specs.Prelude.{◌≡◌};
ghost use Rattle.vm_assembling.specs.Refusing.{asm_kind, after_asm};

use vm_asm::{AsmError, AsmKind};
use vm_law::Text;
use vm_status::{Kind, Refusal, Role};

/// The kind of a fault in assembler text.
fn asm_kind(kind: AsmKind) -> Kind
    ensures { result ≡ asm_kind kind }
{
    match kind {
        AsmKind::Text => Kind::Text,
        AsmKind::Word => Kind::Word,
        AsmKind::Operand => Kind::Operand,
        AsmKind::Label => Kind::Label,
        AsmKind::Range => Kind::Range,
        AsmKind::Twice => Kind::Twice,
        AsmKind::Large => Kind::Large,
    }
}

/// The refusal of a file whose text spells no image.
pub(crate) fn after_asm(name: Text, error: AsmError) -> Refusal
    ensures { result ≡ after_asm name error }
{
    match error {
        AsmError::Fault { line, kind } => Refusal::Bad {
            role: Role::Assembly,
            name,
            place: u64::from(line),
            kind: asm_kind(kind),
        },
        AsmError::Memory => Refusal::Memory,
    }
}

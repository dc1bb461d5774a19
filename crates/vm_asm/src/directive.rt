//! Directives and their operands.
ghost use Rattle.std.specs.Prelude.{◌≡◌};
ghost use Rattle.vm_asm.specs.Directive.{directive_of, with_value, directed};

use crate::statement::Statement;
use asm_words::{Operand, Operands, Value};
use vm_law::Width;

/// A directive by its word.
#[derive(Clone, Copy)]
pub enum Directive {
    Entry,
    Data,
    Org,
    Number(Width),
}

/// The directive of a word.
pub fn directive_of(word: &str) -> Option<Directive>
    ensures { result ≡ directive_of word.now }
{
    match word {
        ".entry" => Some(Directive::Entry),
        ".data" => Some(Directive::Data),
        ".org" => Some(Directive::Org),
        ".byte" => Some(Directive::Number(Width::B)),
        ".word" => Some(Directive::Number(Width::W)),
        ".dword" => Some(Directive::Number(Width::D)),
        ".qword" => Some(Directive::Number(Width::Q)),
        _ => None,
    }
}

/// The statement of a directive with its operand.
fn with_value(directive: Directive, value: Value) -> Option<Statement>
    ensures { result ≡ with_value directive value }
{
    match (directive, value) {
        (Directive::Org, Value::Number(n)) => Some(Statement::Org(n)),
        (Directive::Number(width), Value::Number(_)) => Some(Statement::Number(width, value)),
        (Directive::Entry, Value::Label(_) | Value::Undefined) => Some(Statement::Entry(value)),
        (Directive::Number(Width::Q), _) => Some(Statement::Number(Width::Q, value)),
        _ => None,
    }
}

/// The statement of a directive with its operands, where it takes them.
pub fn directed(directive: Directive, operands: Operands) -> Option<Statement>
    ensures { result ≡ directed directive operands }
{
    match (directive, operands) {
        (Directive::Data, Operands::None) => Some(Statement::Data),
        (directive, Operands::One(Operand::Value(value))) => with_value(directive, value),
        _ => None,
    }
}

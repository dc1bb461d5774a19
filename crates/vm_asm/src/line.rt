//! Lines: a label and a statement, each where it stands, and a comment.
ghost use Rattle.std.specs.Prelude.{◌≡◌, ◌<◌, ◌^◌, length, option_map};
ghost use Rattle.text_reader.specs.Word.{texts};
ghost use Rattle.asm_insn.specs.Spelling.{Speller, IsSpeller};
ghost use Rattle.vm_asm.specs.Statement.{Answers};
ghost use Rattle.vm_asm.specs.Line.{label_text, statement_text, marked, name_in, line_of};

use crate::fault::{AsmKind, Refusal};
use crate::statement::{Statement, statement_of};
use asm_words::{Value, before, is_label, label_of, trimmed, without_front};
use std::alloc::Global;
use text_reader::{cut_at, utf8_of};

/// A line: the label before its colon, and its statement.
#[derive(Clone, Copy)]
pub struct Line {
    /// `Undefined` where the word before the colon isn't of a label's form.
    pub label: Option<Value>,
    pub statement: Statement,
}

/// What stands before the colon, behind blanks, and what stands behind it, without blanks at its ends: all but a comment
/// where there is no colon.
fn parts_of(text: &str) -> (Option<&str>, &str)
    ensures label { option_map (λ s. s.now) result.0 ≡ label_text text.now }
    ensures statement { result.1.now ≡ statement_text text.now }
{
    let code = before(text, ';');
    match cut_at(code, ':') {
        Some((label, statement)) => (Some(without_front(label)), trimmed(statement)),
        None => (None, trimmed(code)),
    }
}

/// The name that a line defines.
#[tactic(auto, unfolding(crate::specs::Line::name_in))]
pub fn name_in(line: &[u8]) -> Option<&str>
    ensures { option_map (λ s. s.now) result ≡ name_in line.now }
{
    let text = utf8_of(line)?;
    let (label, _) = parts_of(text);
    let name = label?;
    if is_label(name) { Some(name) } else { None }
}

/// The label that a word before a colon is.
fn marked(names: &[&str], label: Option<&str>) -> Option<Value>
    requires { length names.now < 2 ^ 32 }
    ensures { result ≡ marked (texts names.now) (option_map (λ s. s.now) label.entry) }
{
    match label {
        Some(text) => Some(label_of(names, text).unwrap_or(Value::Undefined)),
        None => None,
    }
}

/// What a line says, or the first kind of fault that it has by itself: `Text`, `Word` or `Operand`.
#[tactic(auto, unfolding(crate::specs::Line::line_of))]
pub fn line_of(alloc: Global, names: &[&str], line: &[u8]) -> Result<Line, Refusal>
    requires { length names.now < 2 ^ 32 }
    ensures { (spell : Speller) → IsSpeller spell → Answers result (line_of spell (texts names.now) line.now) }
{
    let Some(text) = utf8_of(line) else {
        return Err(Refusal::Kind(AsmKind::Text));
    };
    let (label, text) = parts_of(text);
    let statement = statement_of(alloc, names, text)?;
    let label = marked(names, label);
    Ok(Line { label, statement })
}

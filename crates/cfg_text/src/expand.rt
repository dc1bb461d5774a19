ghost use Rattle.std.specs.Prelude.{◌≡◌, ◌<◌, ◌≤◌, ◌++◌, length, option_map, string_bytes, IfSome};
ghost use Rattle.std.specs.Str.{IsUtf8};
ghost use Rattle.cfg_text.specs.Lines.{variables_of};
ghost use Rattle.cfg_text.specs.Values.{value_of, reference, expanded, AnswersValue, AnswersAdd};

use indexmap::IndexMap;
use std::alloc::Global;
use text_reader::{after_byte, cut_at};

/// A variable's value as written, and the line, from 1, that gave it.
#[derive(Clone, Copy)]
pub(crate) struct Written<'a> {
    pub(crate) value: &'a str,
    pub(crate) line: u32,
}

/// The variables of a text, in the order of their first lines.
pub(crate) type Variables<'a> = IndexMap<&'a str, Written<'a>>;

/// Why a value isn't expanded.
#[derive(Debug, Drop)]
pub(crate) enum Refusal {
    /// It would be longer than is allowed.
    Long,
    Memory,
}

/// The name in parentheses that a text begins with, and what follows it.
fn name_of(text: &str) -> Option<(&str, &str)>
    ensures value { option_map (λ p. (p.0.now, p.1.now)) result ≡ reference text.now }
    ensures shorter { IfSome result (λ p. length p.1.now < length text.now) }
    ensures text { IfSome result (λ p. IsUtf8 p.1.now) }
{
    match after_byte(text, '(') {
        Some(rest) => cut_at(rest, ')'),
        None => None,
    }
}

/// A variable's value as written, or nothing where there is no such variable.
fn value_of<'a>(variables: &Variables<'a>, name: &str) -> &'a str
    ensures { result.now ≡ value_of (variables_of variables.now.entries) name.now }
{
    match variables.get(&name) {
        Some(written) => written.value,
        None => "",
    }
}

/// Adds a piece to a text that may have at most `most` bytes.
fn add(out: &mut String, piece: &str, most: usize) -> Result<(), Refusal>
    ensures { AnswersAdd most (string_bytes out.old ++ piece.now) (string_bytes out.new) result }
{
    if most < out.len() + piece.len() {
        return Err(Refusal::Long);
    }
    match out.push_str(piece) {
        Ok(()) => Ok(()),
        Err(_) => Err(Refusal::Memory),
    }
}

/// The value, with each `%(name)` replaced by that variable's value as written; `Long` where it has more than `most` bytes.
pub(crate) fn expand(
    alloc: Global,
    variables: &Variables,
    value: &str,
    most: usize,
) -> Result<String, Refusal>
    ensures { AnswersValue (λ s. string_bytes s) most (expanded (variables_of variables.now.entries) value.now) result }
{
    let mut out = String::new(alloc);
    let mut rest = value;
    while let Some((before, after)) = cut_at(rest, '%') {
        add(&mut out, before, most)?;
        match name_of(after) {
            Some((name, tail)) => {
                add(&mut out, value_of(variables, name), most)?;
                rest = tail;
            }
            None => {
                add(&mut out, "%", most)?;
                rest = after;
            }
        }
    }
    add(&mut out, rest, most)?;
    Ok(out)
}

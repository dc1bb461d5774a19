ghost use Rattle.std.specs.Prelude.{◌≡◌};
ghost use Rattle.cfg_text.specs.Line.{view, is_name, is_open, read_line, read_full, read_pair};

use crate::error::CfgKind;
use text_reader::{content, cut_at, utf8_of};

/// What a line says.
#[derive(Clone, Copy)]
pub(crate) enum Line<'a> {
    /// Nothing: it is blank or a comment.
    Skipped,
    /// A variable's name and value.
    Variable(&'a str, &'a str),
    Faulty(CfgKind),
}

/// Whether a name has non-empty parts joined by dots.
fn is_name(name: &[u8]) -> bool
    ensures { result ≡ is_name name.now }
{
    let mut is_empty = true;
    for b in name {
        if *b == b'.' {
            if is_empty {
                return false;
            }
            is_empty = true;
        } else {
            is_empty = false;
        }
    }
    !is_empty
}

/// What stands before a place in a value: plain text, a `%`, or the `%(` of a name.
#[derive(Clone, Copy)]
enum Scan {
    Plain,
    Percent,
    Inside,
}

/// Whether a value has a `%(` and no later `)`.
fn is_open(value: &[u8]) -> bool
    ensures { result ≡ is_open value.now }
{
    let mut scan = Scan::Plain;
    for b in value {
        scan = match (scan, *b) {
            (Scan::Plain, b'%') => Scan::Percent,
            (Scan::Plain, _) => Scan::Plain,
            (Scan::Percent, b'(') => Scan::Inside,
            (Scan::Percent, b'%') => Scan::Percent,
            (Scan::Percent, _) => Scan::Plain,
            (Scan::Inside, b')') => Scan::Plain,
            (Scan::Inside, _) => Scan::Inside,
        };
    }
    matches!(scan, Scan::Inside)
}

/// What a line says, which has lost its end.
pub(crate) fn line_of(line: &[u8]) -> Line
    ensures { view result ≡ read_line line.now }
{
    match content(line) {
        Some(text) => full_text(text),
        None => Line::Skipped,
    }
}

fn full_text(text: &[u8]) -> Line
    ensures { view result ≡ read_full text.now }
{
    let Some(text) = utf8_of(text) else {
        return Line::Faulty(CfgKind::Text);
    };
    let Some((name, value)) = cut_at(text, '=') else {
        return Line::Faulty(CfgKind::Equals);
    };
    pair_of(name, value)
}

fn pair_of<'a>(name: &'a str, value: &'a str) -> Line<'a>
    ensures { view result ≡ read_pair name.now value.now }
{
    if !is_name(name.as_bytes()) {
        return Line::Faulty(CfgKind::Name);
    }
    if is_open(value.as_bytes()) {
        return Line::Faulty(CfgKind::Percent);
    }
    Line::Variable(name, value)
}

//! Labels, and the values that a number or a label is.
ghost use Rattle.std.specs.Prelude.{◌≡◌, ◌<◌, ◌^◌, length, Contains};
ghost use Rattle.std.specs.List.{list_all};
ghost use Rattle.text_reader.specs.Word.{texts};
ghost use Rattle.asm_words.specs.Label.{is_name_byte, is_reserved, is_label, is_name, place_in, label_of, value_of, names_label};

use crate::number::number_of;
use crate::register::register_of;

/// A number, or a label in its place.
#[derive(Clone, Copy)]
pub enum Value {
    Number(i128),
    /// A label of the text, by its place among the labels' names.
    Label(u32),
    /// A word of a label's form that labels no line.
    Undefined,
}

/// A letter, a digit or `_`.
fn is_name_byte(b: u8) -> bool
    ensures { result ≡ is_name_byte b }
{
    b.is_ascii_alphanumeric() || b == b'_'
}

/// The words that mean something else where a label may stand.
fn is_reserved(text: &str) -> bool
    ensures { result ≡ is_reserved text.now }
{
    matches!(
        text,
        "rip" | "rel" | "lock" | "byte" | "word" | "dword" | "qword"
    )
}

/// Letters, digits and `_`.
fn are_name_bytes(text: &[u8]) -> bool
    ensures { result ≡ list_all is_name_byte text.now }
{
    text.iter().all(|b| is_name_byte(*b))
}

/// Letters, digits and `_`, one or more.
fn is_name(text: &str) -> bool
    ensures { result ≡ is_name text.now }
{
    !text.is_empty() && are_name_bytes(text.as_bytes())
}

/// Whether a text is of a label's form: letters, digits and `_`, but no number, no register's name and none of the words
/// `rip`, `rel`, `lock`, `byte`, `word`, `dword` and `qword`.
#[tactic(auto, unfolding(crate::specs::Label::is_label))]
pub fn is_label(text: &str) -> bool
    ensures { result ≡ is_label text.now }
{
    is_name(text) && number_of(text).is_none() && register_of(text).is_none() && !is_reserved(text)
}

/// The place of a name in a list, counted from 0.
pub fn place_in(names: &[&str], name: &str) -> Option<u32>
    requires { length names.now < 2 ^ 32 }
    ensures { result ≡ place_in (texts names.now) name.now }
{
    for (place, other) in names.iter().enumerate() {
        if name == *other {
            return Some(place as u32);
        }
    }
    None
}

/// A word of a label's form.
pub fn label_of(names: &[&str], text: &str) -> Option<Value>
    requires { length names.now < 2 ^ 32 }
    ensures { result ≡ label_of (texts names.now) text.now }
{
    if !is_label(text) {
        return None;
    }
    match place_in(names, text) {
        Some(place) => Some(Value::Label(place)),
        None => Some(Value::Undefined),
    }
}

/// A number, or a word of a label's form.
pub fn value_of(names: &[&str], text: &str) -> Option<Value>
    requires { length names.now < 2 ^ 32 }
    ensures { result ≡ value_of (texts names.now) text.now }
{
    match number_of(text) {
        Some(n) => Some(Value::Number(n)),
        None => label_of(names, text),
    }
}

/// Whether a label stands there, defined or not.
pub fn names_label(value: Value) -> bool
    ensures { result ≡ names_label value }
{
    !matches!(value, Value::Number(_))
}

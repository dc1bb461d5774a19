//! Spaces and tabs, and what stands between them.
ghost use Rattle.std.specs.Prelude.{◌≡◌, ◌<◌, ◌==◌, IfOk, IfSome, MatchOption, option_map};
ghost use Rattle.std.specs.Str.{IsUtf8};
ghost use Rattle.std.specs.List.{slice_split};
ghost use Rattle.text_reader.specs.Line.{without_indent};
ghost use Rattle.text_reader.specs.Word.{texts};
ghost use Rattle.asm_words.specs.Blank.{after_blank, EndsBlank, EndsFull, without_end, trimmed, before, word_in, behind_word};

use std::alloc::{AllocError, Global};
use text_reader::{after_byte, cut_at};

/// The text without the space or tab that it begins with.
fn after_blank(text: &str) -> Option<&str>
    ensures value { option_map (λ s. s.now) result ≡ after_blank text.now }
    ensures text { IfSome result (λ s. IsUtf8 s.now) }
{
    match after_byte(text, ' ') {
        Some(after) => Some(after),
        None => after_byte(text, '\t'),
    }
}

/// The text without the space or tab that it ends with.
fn before_blank(text: &str) -> Option<&str>
    ensures value { MatchOption result (EndsFull text.now) (λ s. EndsBlank text.now s.now) }
    ensures text { IfSome result (λ s. IsUtf8 s.now) }
{
    match text.strip_suffix(' ') {
        Some(front) => Some(front),
        None => text.strip_suffix('\t'),
    }
}

/// The text without the spaces and tabs that it begins with.
pub fn without_front(text: &str) -> &str
    ensures { result.now ≡ without_indent text.now }
{
    let mut rest = text;
    while let Some(after) = after_blank(rest) {
        rest = after;
    }
    rest
}

/// The text without the spaces and tabs that it ends with.
fn without_end(text: &str) -> &str
    ensures { result.now ≡ without_end text.now }
{
    let mut rest = text;
    while let Some(front) = before_blank(rest) {
        rest = front;
    }
    rest
}

/// The text without the spaces and tabs at both ends.
pub fn trimmed(text: &str) -> &str
    ensures { result.now ≡ trimmed text.now }
{
    without_end(without_front(text))
}

/// What stands before the first of an ASCII character, or all of it.
pub fn before(text: &str, at: char) -> &str
    requires { at < 128 }
    ensures { result.now ≡ before at text.now }
{
    match cut_at(text, at) {
        Some((front, _)) => front,
        None => text,
    }
}

/// The first word of a text that begins with no blank, and what stands behind the blanks after it.
pub fn first_word(text: &str) -> (&str, &str)
    ensures word { result.0.now ≡ word_in text.now }
    ensures rest { result.1.now ≡ behind_word text.now }
{
    let word = before(before(text, ' '), '\t');
    match text.strip_prefix(word) {
        Some(rest) => (word, trimmed(rest)),
        None => (text, ""),
    }
}

/// The parts that an ASCII character separates.
pub fn parts_at(alloc: Global, text: &str, at: char) -> Result<Vec<&str>, AllocError>
    requires { at < 128 }
    ensures { IfOk result (λ parts. texts parts.items ≡ slice_split (λ b. b == at) text.now) }
{
    text.split(at).collect(alloc)
}

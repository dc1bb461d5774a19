ghost use Rattle.std.specs.Prelude.{◌≡◌, ◌<◌, ◌==◌, length, option_map, IfOk, IfSome};
ghost use Rattle.std.specs.List.{flat_map};
ghost use Rattle.std.specs.Str.{IsUtf8};
ghost use Rattle.text_reader.specs.Word.{words_by, is_separator, texts, cut_at, after_byte};

use std::alloc::{AllocError, Global};
use vm_law::OutOfMemory;

/// What separates words.
#[derive(Clone, Copy, Debug, PartialEq, Eq)]
pub enum Separators {
    /// Spaces.
    Spaces,
    /// Spaces and tabs.
    Blanks,
}

/// The words that an ASCII character separates, none of them empty.
fn words_at(alloc: Global, text: &str, at: char) -> Result<Vec<&str>, AllocError>
    requires { at < 128 }
    ensures { IfOk result (λ words. texts words.items ≡ words_by (λ b. b == at) text.now) }
{
    text.split(at)
        .filter(|word| !word.is_empty())
        .collect(alloc)
}

/// The words of a text, which one separator or more stand between; none of them is empty.
pub fn words(alloc: Global, text: &str, separators: Separators) -> Result<Vec<&str>, OutOfMemory>
    ensures { IfOk result (λ words. texts words.items ≡ words_by (is_separator separators) text.now) }
{
    let parts = words_at(alloc, text, ' ')?;
    match separators {
        Separators::Spaces => Ok(parts),
        Separators::Blanks => Ok(parted(alloc, &parts)?),
    }
}

/// The words that tabs separate in each of the parts.
fn parted<'a>(alloc: Global, parts: &[&'a str]) -> Result<Vec<&'a str>, AllocError>
    ensures { IfOk result (λ words. texts words.items ≡ flat_map (words_by (λ b. b == 9)) (texts parts.now)) }
{
    let mut words = Vec::new(alloc);
    for part in parts {
        let more = words_at(alloc, *part, '\t')?;
        words.extend_from_slice(&more)?;
    }
    Ok(words)
}

/// What stands before the first of an ASCII character, and after it; `None` exactly where there is none.
pub fn cut_at(text: &str, at: char) -> Option<(&str, &str)>
    requires { at < 128 }
    ensures value { option_map (λ p. (p.0.now, p.1.now)) result ≡ cut_at at text.now }
    ensures shorter { IfSome result (λ p. length p.1.now < length text.now) }
    ensures text { IfSome result (λ p. IsUtf8 p.1.now) }
{
    text.split_once(at)
}

/// What follows an ASCII character that the text begins with; `None` exactly where it begins otherwise.
pub fn after_byte(text: &str, first: char) -> Option<&str>
    requires { first < 128 }
    ensures { option_map (λ s. s.now) result ≡ after_byte first text.now }
{
    text.strip_prefix(first)
}

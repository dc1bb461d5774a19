//! A word by itself.
ghost use Rattle.std.specs.Prelude.{◌≡◌, option_map};
ghost use Rattle.std.specs.List.{list_all};
ghost use Rattle.vm_cmd.specs.Word.{is_plain, is_allowed, long_of, name_and_value, without_hyphen};

fn without_hyphen(word: &str) -> Option<&str>
    ensures { option_map (λ s. s.now) result ≡ without_hyphen word.now }
{
    word.strip_prefix('-')
}

fn name_and_value(text: &str) -> (&str, Option<&str>)
    ensures { (result.0.now, option_map (λ s. s.now) result.1) ≡ name_and_value text.now }
{
    match text.split_once('=') {
        Some((name, value)) => (name, Some(value)),
        None => (text, None),
    }
}

// `--name` or `--name=value`.
fn long_word(word: &str) -> Option<(&str, Option<&str>)>
    ensures { option_map (λ p. (p.0.now, option_map (λ s. s.now) p.1)) result ≡ long_of word.now }
{
    let rest = without_hyphen(without_hyphen(word)?)?;
    if rest.is_empty() {
        return None;
    }
    Some(name_and_value(rest))
}

fn is_plain(word: &str) -> bool
    ensures { result ≡ is_plain word.now }
{
    match word.as_bytes() {
        [] => false,
        [first, ..] => *first != b'-',
    }
}

fn is_allowed(word: &str) -> bool
    ensures { result ≡ is_allowed word.now }
{
    if is_plain(word) {
        return true;
    }
    match long_word(word) {
        Some((_, Some(value))) => !value.is_empty(),
        Some((_, None)) => true,
        None => false,
    }
}

/// Whether each word is plain or `--name` or `--name=value`, with no empty value.
pub fn all_allowed(words: &[&str]) -> bool
    ensures { result ≡ list_all (λ w. is_allowed w.now) words.now }
{
    words.iter().all(|word| is_allowed(word))
}

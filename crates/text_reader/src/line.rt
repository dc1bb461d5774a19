ghost use Rattle.std.specs.Prelude.{◌≡◌, ◌≤◌, ◌+◌, length, MatchOption, option_map, true, false, ◌∷◌};
ghost use Rattle.std.specs.Str.{is_utf8};
ghost use Rattle.std.specs.Str.Lines.{strip_carriage_return};
ghost use Rattle.text_reader.specs.Line.{lines, lines_after, left, without_indent, content};

/// The line without the carriage return that it ends with.
fn without_return(line: &[u8]) -> &[u8]
    ensures { result.now ≡ strip_carriage_return line.now }
{
    match line {
        [front @ .., b'\r'] => front,
        _ => line,
    }
}

/// The first line, and what follows its line feed, if one stands there.
pub fn first_line(text: &[u8]) -> (&[u8], Option<&[u8]>)
    ensures cut { lines text.now ≡ result.0.now ∷ lines_after result.1 }
    ensures shorter { length result.0.now + left result.1 ≤ length text.now }
{
    for (at, b) in text.iter().enumerate() {
        if *b == b'\n' {
            return (without_return(&text[..at]), Some(&text[at + 1..]));
        }
    }
    (text, None)
}

/// The text without the spaces and tabs that it begins with.
fn without_indent(text: &[u8]) -> &[u8]
    ensures { result.now ≡ without_indent text.now }
{
    let mut rest = text;
    while let [b' ' | b'\t', after @ ..] = rest {
        rest = after;
    }
    rest
}

/// What a line of a configuration or a script says: its text behind its spaces and tabs, or `None` exactly where that is
/// empty or begins with `#`. The text isn't empty.
pub fn content(line: &[u8]) -> Option<&[u8]>
    ensures { option_map (λ t. t.now) result ≡ content line.now }
{
    match without_indent(line) {
        [] => None,
        [b'#', ..] => None,
        text => Some(text),
    }
}

/// The bytes as a text; `None` exactly where they aren't UTF-8.
pub fn utf8_of(bytes: &[u8]) -> Option<&str>
    ensures { MatchOption result (is_utf8 bytes.now ≡ false) (λ s. (is_utf8 bytes.now ≡ true) × (s.now ≡ bytes.now)) }
{
    match str::from_utf8(bytes) {
        Ok(text) => Some(text),
        Err(_) => None,
    }
}

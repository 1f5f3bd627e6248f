//! The lines of a text, and the words of a line.

ghost use Rattle.std.specs.Prelude.{◌≡◌, ◌<◌, ◌==◌, ◌∷◌, [], length, IfNone, IfSome};
ghost use Rattle.std.specs.List.{position};
ghost use Rattle.certificate.specs.Words.{contents_of, parts_of};
ghost use Rattle.trace_text.specs.Words.{lines_of, words_of};

use arrayvec::ArrayVec;

/// No line has more words.
const MOST_WORDS: usize = 5;

/// What is between the separators, where it is not more than a line's words.
pub fn parts(separator: u8, bytes: &[u8]) -> Option<ArrayVec<&[u8], MOST_WORDS>>
    ensures some { IfSome result (λ parts. contents_of parts.items ≡ parts_of separator bytes.now) }
    ensures none { IfNone result (5 < length (parts_of separator bytes.now)) }
{
    let mut parts = ArrayVec::new();
    for part in bytes.split(|byte| *byte == separator) {
        if parts.is_full() {
            return None;
        }
        parts.push(part);
    }
    Some(parts)
}

/// Where the first line feed stands.
fn line_end(text: &[u8]) -> Option<usize>
    ensures { result ≡ position (λ byte. byte == 10) text.now }
{
    text.iter().position(|byte| *byte == b'\n')
}

/// The first line of a text, without its line feed, and the text below it. An empty text has no
/// line.
pub fn first_line(text: &[u8]) -> Option<(&[u8], &[u8])>
    ensures some { IfSome result (λ split. lines_of text.now ≡ split.0.now ∷ lines_of split.1.now) }
    ensures none { IfNone result (lines_of text.now ≡ []) }
    ensures shorter { IfSome result (λ split. length split.1.now < length text.now) }
{
    if text.is_empty() {
        return None;
    }
    match line_end(text) {
        None => Some((text, &[])),
        Some(end) => Some((&text[..end], &text[end + 1..])),
    }
}

/// The words of a line, which single spaces part, where it has not too many.
pub fn words(line: &[u8]) -> Option<ArrayVec<&[u8], MOST_WORDS>>
    ensures some { IfSome result (λ words. contents_of words.items ≡ words_of line.now) }
    ensures none { IfNone result (5 < length (words_of line.now)) }
{
    parts(b' ', line)
}

// A text, read line by line.
ghost use Rattle.std.specs.Prelude.{◌==◌, ◌≡◌, ◌+◌, ◌≤◌, drop, if◌then◌else◌, IfOk, length, Ok, Err, position};
ghost use Rattle.certificate.specs.Grammar.{end_in, result_map, whole_line};
ghost use Rattle.certificate.specs.Words.{lines_of};
ghost use Rattle.certificate.specs.declared.text.cause.Cause.TheVariants.{Tail};

use super::cause::Cause;

/// A text of which some lines were read.
#[derive(Drop)]
pub(super) struct Lines<'a> {
    text: &'a [u8],
    // Where the next line begins.
    start: usize,
    // How many lines were read.
    at: usize,
    ghost within: { start ≤ length text.now },
    ghost few: { at ≤ start },
    ghost left: { drop at (lines_of text.now) ≡ lines_of (drop start text.now) },
}

impl<'a> Lines<'a> {
    /// The text, of which no line was read.
    pub(super) fn new(text: &'a [u8]) -> Lines<'a>
        ensures text { result.text.now ≡ text.now }
        ensures start { result.at ≡ 0 }
    {
        Lines {
            text,
            start: 0,
            at: 0,
        }
    }

    /// The number of the next line, counted from 1.
    pub(super) fn next_number(&self) -> usize
        requires { self.now.at ≤ 32768 }
        ensures { result ≡ self.now.at + 1 }
    {
        self.at + 1
    }

    /// The next line, where a line feed ends it.
    pub(super) fn next_line(&mut self) -> Result<&'a [u8], Cause>
        ensures line { result_map (λ line. line.now) result
            ≡ whole_line (lines_of self.old.text.now) self.old.at }
        ensures text { self.new.text.now ≡ self.old.text.now }
        ensures read { IfOk result (λ _. self.new.at ≡ self.old.at + 1) }
    {
        let text = self.text;
        let rest = &text[self.start..];
        let Some(end) = first_feed(rest) else {
            return Err(Cause::Cut);
        };
        self.start += end + 1;
        self.at += 1;
        Ok(&rest[..end])
    }

    /// Whether nothing follows the lines that were read.
    pub(super) fn has_ended(&self) -> bool
        ensures { end_in (lines_of self.now.text.now) self.now.at
            ≡ (if result then Ok tt else Err Tail) }
    {
        self.start == self.text.len()
    }
}

/// Where the first line feed stands.
fn first_feed(bytes: &[u8]) -> Option<usize>
    ensures { result ≡ position (λ b. b == 10) bytes.now }
{
    bytes.iter().position(|byte| *byte == b'\n')
}

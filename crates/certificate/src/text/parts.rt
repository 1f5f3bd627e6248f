// The parts of a line.
ghost use Rattle.std.specs.Prelude.{◌≡◌, ◌<◌, length, IfNone, IfSome};
ghost use Rattle.certificate.specs.Words.{contents_of, parts_of};
ghost use Rattle.certificate.specs.declared.text.parts.TheConstants.{MOST_PARTS};

use arrayvec::ArrayVec;

/// No line has more words, and no id more parts.
const MOST_PARTS: usize = 3;

/// What is between the separators, where that is not more than three parts.
pub(super) fn parts(separator: u8, bytes: &[u8]) -> Option<ArrayVec<&[u8], MOST_PARTS>>
    ensures some { IfSome result (λ parts. contents_of parts.items ≡ parts_of separator bytes.now) }
    ensures none { IfNone result (MOST_PARTS < length (parts_of separator bytes.now)) }
{
    let mut parts = ArrayVec::new();
    for part in bytes.split(|byte| *byte == separator) {
        if parts.is_full() {
            return None;
        }
        parts.push(part);
    }
    Some(parts)
}

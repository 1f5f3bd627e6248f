//! The header of a trace.

ghost use Rattle.std.specs.Prelude.{◌≡◌, ◌∷◌, [], IfErr, IfNone, IfOk, IfSome};
ghost use Rattle.std.specs.Int.{IsInRange};
ghost use Rattle.certificate.specs.Words.{contents_of};
ghost use Rattle.std.specs.List.{list_any};
ghost use Rattle.std.specs.Str.{bytes_eq};
ghost use Rattle.trace_text.specs.Form.{bare_verbs, begin_verb, binding_verbs, is_binding_verb, reading_verbs, retire_verb, set_verb, trim_verb, wide_verbs};
ghost use Rattle.trace_text.specs.Header.{BeginWith, FailsField, FailsHeader, HasHeader, IsWithinLimits, Opening, Size, field_in, number_of, opening_of};
ghost use Rattle.trace_text.specs.Number.{IsOutside, KeepsNumber};
ghost use Rattle.trace_text.specs.Words.{lines_of, words_of};
ghost use Rattle.trace_text.specs.declared.header.Version.{Version};
ghost use Rattle.trace_text.specs.declared.numeral.Number.TheVariants.{Fits};

use super::cause::{Cause, ParseError};
use super::numeral::{Number, parse_number};
use super::verb::{class_filled, class_put};
use super::words::{first_line, words};
use span::names::{MOST_RING_KEYS, MOST_SHARDS};

/// How many pages a shard of a trace may have at most, in each version of the grammar that there
/// is: which texts are refused rests on it, and what their reports tell of a shard that may have no
/// more.
pub const TRACE_PAGES: u32 = 1024;

/// The version of the grammar that a trace is written in.
#[derive(Clone, Copy)]
pub enum Version {
    /// The first line is `mesh 1`: every object has one word.
    One,
    /// The first line is `mesh 2`: objects of four and of sixteen words are put too.
    Two,
    /// The first line is `mesh 3`: as `mesh 2`, and objects are set.
    Three,
    /// The first line is `mesh 4`: as `mesh 3`, and shards give pages with no live slot back.
    Four,
    /// The first line is `mesh 5`: as `mesh 4`, and shards let groups go to the pool, and begin
    /// again once they have ended.
    Five,
    /// The first line is `mesh 6`: as `mesh 5`, with objects of 1 to 16 words.
    Six,
}

/// Whether the verb is one of a call that binds a name to objects of one word.
fn binds(verb: &[u8]) -> bool
    ensures { result ≡ list_any (bytes_eq verb.now) binding_verbs }
{
    matches!(verb, b"put" | b"fill")
}

/// Whether the verb is one of a call that binds a name to objects of four or of sixteen words.
fn binds_wide(verb: &[u8]) -> bool
    ensures { result ≡ list_any (bytes_eq verb.now) wide_verbs }
{
    verb == b"put64".as_slice()
        || verb == b"put256".as_slice()
        || verb == b"fill64".as_slice()
        || verb == b"fill256".as_slice()
}

/// Whether the verb is one of a call that binds a name to objects of any class.
fn binds_any_class(verb: &[u8]) -> bool
    ensures { result ≡ is_binding_verb verb.now }
{
    class_put(verb).is_some() || class_filled(verb).is_some()
}

/// Whether the verb is one of a call that reads a name.
fn reads(verb: &[u8]) -> bool
    ensures { result ≡ list_any (bytes_eq verb.now) reading_verbs }
{
    matches!(verb, b"get" | b"free" | b"sweep" | b"later")
}

/// Whether the verb is that of a call that replaces the object of a key.
fn sets(verb: &[u8]) -> bool
    ensures { result ≡ bytes_eq verb.now set_verb }
{
    verb == b"set".as_slice()
}

/// Whether the verb is one of a call with no more words, which every version has.
fn is_bare(verb: &[u8]) -> bool
    ensures { result ≡ list_any (bytes_eq verb.now) bare_verbs }
{
    matches!(verb, b"tend" | b"end")
}

/// Whether the verb is that of a call that gives pages with no live slot back.
fn trims(verb: &[u8]) -> bool
    ensures { result ≡ bytes_eq verb.now trim_verb }
{
    verb == b"trim".as_slice()
}

/// Whether the verb is that of a call that lets groups go to the pool.
fn retires(verb: &[u8]) -> bool
    ensures { result ≡ bytes_eq verb.now retire_verb }
{
    verb == b"retire".as_slice()
}

/// Whether the verb is that of a call that lets a shard begin again.
fn begins(verb: &[u8]) -> bool
    ensures { result ≡ bytes_eq verb.now begin_verb }
{
    verb == b"begin".as_slice()
}

impl Version {
    ghost use Rattle.std.specs.Prelude.{◌≡◌};
    ghost use Rattle.trace_text.specs.Form.{has_verb};

    /// Whether a thread's call may have that verb. It stays out of the readers of lines, which are
    /// then small enough to stand where they are called.
    #[inline(never)]
    pub(crate) fn has_verb(self, verb: &[u8]) -> bool
        ensures { result ≡ has_verb self verb.now }
    {
        let in_each = binds(verb) || reads(verb) || is_bare(verb);
        match self {
            Version::One => in_each,
            Version::Two => in_each || binds_wide(verb),
            Version::Three => in_each || binds_wide(verb) || sets(verb),
            Version::Four => in_each || binds_wide(verb) || sets(verb) || trims(verb),
            Version::Five => {
                in_each
                    || binds_wide(verb)
                    || sets(verb)
                    || trims(verb)
                    || retires(verb)
                    || begins(verb)
            }
            Version::Six => {
                in_each
                    || binds_any_class(verb)
                    || sets(verb)
                    || trims(verb)
                    || retires(verb)
                    || begins(verb)
            }
        }
    }
}

/// What a trace is read by, and the sizes that it is run with.
#[derive(Clone, Copy)]
pub struct Header {
    /// The version, which decides what calls the lines may have.
    pub version: Version,
    /// How many shards there are, each with one thread: 1 to 64.
    pub shards: u32,
    /// How many pages a shard may have: 1 to 1,024.
    pub pages: u32,
    /// How many places a ring has: 1 to 1,024.
    pub ring: u32,
    /// How many generations a slot has: 1 to 4,294,967,295.
    pub gens: u32,
}

/// The number after the word, where these two are all words.
fn field(word: &[u8], words: &[&[u8]]) -> Option<Number>
    ensures { KeepsNumber result (field_in word.now (contents_of words.now)) }
{
    match words {
        [first, number] if *first == word => parse_number(number),
        _ => None,
    }
}

/// The number after the word, where the line has these two words.
fn number_behind(word: &[u8], line: &[u8]) -> Option<Number>
    ensures { KeepsNumber result (field_in word.now (words_of line.now)) }
{
    match words(line) {
        None => None,
        Some(words) => field(word, words.as_slice()),
    }
}

/// The number, where it is from 1 to `most`.
fn ranged(number: Number, most: u32) -> Option<u32>
    ensures some { IfSome result (λ n. (number ≡ Fits n) × IsInRange 1 most n) }
    ensures none { IfNone result (IsOutside most number) }
{
    match number {
        Number::Fits(n) if 1 <= n && n <= u128::from(most) => Some(n as u32),
        _ => None,
    }
}

/// The version of a trace that begins with that line.
fn version_of(line: &[u8]) -> Option<Version>
    ensures some { IfSome result (λ version. line.now ≡ opening_of version) }
    ensures none { IfNone result ((version : Version) → line.now ≡ opening_of version → ⊥) }
{
    match line {
        b"mesh 1" => Some(Version::One),
        b"mesh 2" => Some(Version::Two),
        b"mesh 3" => Some(Version::Three),
        b"mesh 4" => Some(Version::Four),
        b"mesh 5" => Some(Version::Five),
        b"mesh 6" => Some(Version::Six),
        _ => None,
    }
}

/// Reads the first line of a trace, and gives its version and the text below it.
fn opening(text: &[u8]) -> Result<(Version, &[u8]), ParseError>
    ensures ok { IfOk result (λ read. BeginWith (Opening ∷ []) (number_of read.0 ∷ [])
        (lines_of text.now) (lines_of read.1.now)) }
    ensures err { IfErr result (FailsField Opening 1 (lines_of text.now)) }
{
    let Some((line, below)) = first_line(text) else {
        return Err(ParseError::BadTrace {
            line: 1,
            cause: Cause::Header,
        });
    };
    match version_of(line) {
        Some(version) => Ok((version, below)),
        None => Err(ParseError::BadTrace {
            line: 1,
            cause: Cause::Header,
        }),
    }
}

/// Reads the line of a size, which has this number in the whole text, and gives the size and the
/// text below it.
fn size<'a>(
    text: &'a [u8],
    line: usize,
    word: &[u8],
    most: u32,
) -> Result<(u32, &'a [u8]), ParseError>
    ensures ok { IfOk result (λ read. BeginWith (Size word.now most ∷ []) (read.0 ∷ [])
        (lines_of text.now) (lines_of read.1.now)) }
    ensures err { IfErr result (FailsField (Size word.now most) line (lines_of text.now)) }
{
    let Some((bytes, below)) = first_line(text) else {
        return Err(ParseError::BadTrace {
            line,
            cause: Cause::Header,
        });
    };
    let Some(number) = number_behind(word, bytes) else {
        return Err(ParseError::BadTrace {
            line,
            cause: Cause::Header,
        });
    };
    match ranged(number, most) {
        Some(n) => Ok((n, below)),
        None => Err(ParseError::BadTrace {
            line,
            cause: Cause::Limit,
        }),
    }
}

/// Reads the header, and gives the text below it.
pub fn read_header(text: &[u8]) -> Result<(Header, &[u8]), ParseError>
    ensures ok { IfOk result (λ read. HasHeader read.0 (lines_of text.now) (lines_of read.1.now)) }
    ensures err { IfErr result (FailsHeader (lines_of text.now)) }
    ensures within { IfOk result (λ read. IsWithinLimits read.0) }
{
    let (version, below) = opening(text)?;
    let (shards, below) = size(below, 2, b"shards", MOST_SHARDS)?;
    let (pages, below) = size(below, 3, b"pages", TRACE_PAGES)?;
    let (ring, below) = size(below, 4, b"ring", MOST_RING_KEYS as u32)?;
    let (gens, below) = size(below, 5, b"gens", u32::MAX)?;
    let header = Header {
        version,
        shards,
        pages,
        ring,
        gens,
    };
    Ok((header, below))
}

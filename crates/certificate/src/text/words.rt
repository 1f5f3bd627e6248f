// What the words of a line say.
ghost use Rattle.std.specs.Prelude.{◌≡◌, ◌↔◌, ◌/◌, ℕ, IfOk, IfSome, IsSome, Option, option_map};
ghost use Rattle.bitmap.specs.Slots.{IsBelow};
ghost use Rattle.span.specs.Classes.{class_with, slots_in};
ghost use Rattle.certificate.specs.Number.{clip};
ghost use Rattle.certificate.specs.Grammar.{both, class_in, class_of_number, count_in, count_of_number, entry_in, entry_of, entry_parts, id_in, id_of_numbers, id_parts, is_on_page, last_in, pair_in, pair_parts, result_map, set_in, slot_bytes, version_in};
ghost use Rattle.certificate.specs.Text.{FitsClass};

use super::cause::Cause;
use super::numeral::parse_number;
use super::parts::parts;
use super::version::Version;
use bitmap::Bits256;
use mesh_graph::{Entry, MOST_GROUPS};
use span::names::{Class, SpanId};

/// A shard, a full stop and a serial.
pub(super) fn parse_id(version: Version, word: &[u8]) -> Result<SpanId, Cause>
    ensures { result_map id_parts result ≡ id_in version word.now }
{
    let Some(numbers) = parts(b'.', word) else {
        return Err(Cause::Form);
    };
    match numbers.as_slice() {
        [shard, serial] => id_of(version, parse_number(shard), parse_number(serial)),
        _ => Err(Cause::Form),
    }
}

/// The id of these numbers.
fn id_of(version: Version, shard: Option<u32>, serial: Option<u32>) -> Result<SpanId, Cause>
    ensures { (a b : Option ℕ) → shard ≡ option_map clip a → serial ≡ option_map clip b
        → result_map id_parts result ≡ id_of_numbers version a b }
{
    match (shard, serial) {
        (Some(shard), Some(serial)) if serial < version.spans() => {
            SpanId::new(shard, serial).ok_or(Cause::Limit)
        }
        (Some(_), Some(_)) => Err(Cause::Limit),
        _ => Err(Cause::Form),
    }
}

/// The bytes of a slot.
fn parse_class(version: Version, word: &[u8]) -> Result<Class, Cause>
    ensures { result ≡ class_in version word.now }
{
    class_of(version, parse_number(word))
}

/// The class that a number names in the version.
fn class_of(version: Version, number: Option<u32>) -> Result<Class, Cause>
    ensures { (n : Option ℕ) → number ≡ option_map clip n → result ≡ class_of_number version n }
{
    let Some(bytes) = number else {
        return Err(Cause::Form);
    };
    let Some(class) = class_with_bytes(bytes) else {
        return Err(Cause::Limit);
    };
    if version.names(class) {
        Ok(class)
    } else {
        Err(Cause::Limit)
    }
}

/// The class whose slots have so many bytes, if there is one.
fn class_with_bytes(bytes: u32) -> Option<Class>
    ensures some { IsSome result ↔ slot_bytes (class_with (bytes / 16)) ≡ bytes }
    ensures class { IfSome result (λ class. class ≡ class_with (bytes / 16)) }
{
    if bytes % 16 != 0 {
        return None;
    }
    Class::of_words(bytes as usize / 16)
}

/// Slots of a page of the class.
fn parse_set(class: Class, word: &[u8]) -> Result<Bits256, Cause>
    ensures set { result ≡ set_in class word.now }
    ensures below { IfOk result (λ slots. IsBelow slots (slots_in class)) }
{
    let Some(slots) = Bits256::from_hex(word) else {
        return Err(Cause::Set);
    };
    if is_on_page(class, &slots) {
        Ok(slots)
    } else {
        Err(Cause::Set)
    }
}

/// Whether a page of the class has each of the slots.
fn is_on_page(class: Class, slots: &Bits256) -> bool
    ensures { result ≡ is_on_page class slots.now }
{
    for slot in slots.iter() {
        if u16::from(slot) >= class.slots() {
            return false;
        }
    }
    true
}

/// A group's line: its id, its class and its set. In version 1 it has no class.
pub(super) fn parse_entry(version: Version, line: &[u8]) -> Result<Entry, Cause>
    ensures entry { result_map entry_parts result ≡ entry_in version line.now }
    ensures fits { IfOk result FitsClass }
{
    let Some(words) = parts(b' ', line) else {
        return Err(Cause::Form);
    };
    match (version, words.as_slice()) {
        (Version::One, [id, set]) => entry_of(parse_id(version, id), Ok(Class::C16), set),
        (Version::Two | Version::Three, [id, class, set]) => {
            entry_of(parse_id(version, id), parse_class(version, class), set)
        }
        _ => Err(Cause::Form),
    }
}

/// The group of this id and class, and of the set that the word is.
fn entry_of(
    id: Result<SpanId, Cause>,
    class: Result<Class, Cause>,
    set: &[u8],
) -> Result<Entry, Cause>
    ensures entry { result_map entry_parts result ≡ entry_of (result_map id_parts id) class
        set.now }
    ensures fits { IfOk result FitsClass }
{
    let (id, class) = both(id, class)?;
    let occupied = parse_set(class, set)?;
    Ok(Entry {
        id,
        class,
        occupied,
    })
}

/// A fold's line: an abandoned id and an owned one.
pub(super) fn parse_pair(version: Version, line: &[u8]) -> Result<(SpanId, SpanId), Cause>
    ensures { result_map pair_parts result ≡ pair_in version line.now }
{
    let Some(words) = parts(b' ', line) else {
        return Err(Cause::Form);
    };
    match words.as_slice() {
        [abandoned, owned] => both(parse_id(version, abandoned), parse_id(version, owned)),
        _ => Err(Cause::Form),
    }
}

/// Both words. The form of both is asked before the range of either.
fn both<A: Copy, B: Copy>(
    first: Result<A, Cause>,
    second: Result<B, Cause>,
) -> Result<(A, B), Cause>
    ensures { result ≡ both first second }
{
    match (first, second) {
        (Ok(first), Ok(second)) => Ok((first, second)),
        (Err(Cause::Form), _) | (_, Err(Cause::Form)) => Err(Cause::Form),
        _ => Err(Cause::Limit),
    }
}

/// A title and how many lines follow, at most 4,096.
pub(super) fn parse_count(title: &[u8], line: &[u8]) -> Result<usize, Cause>
    ensures { result ≡ count_in title.now line.now }
{
    let Some(words) = parts(b' ', line) else {
        return Err(Cause::Form);
    };
    match words.as_slice() {
        [word, number] if *word == title => count_of(parse_number(number)),
        _ => Err(Cause::Form),
    }
}

/// The count that a number is.
fn count_of(number: Option<u32>) -> Result<usize, Cause>
    ensures { (n : Option ℕ) → number ≡ option_map clip n → result ≡ count_of_number n }
{
    match number {
        None => Err(Cause::Form),
        Some(count) if count as usize <= MOST_GROUPS => Ok(count as usize),
        Some(_) => Err(Cause::Limit),
    }
}

/// The last line, of a text whose version is wanted or not.
pub(super) fn parse_last(is_wanted: bool, line: &[u8]) -> Result<(), Cause>
    ensures { result ≡ last_in is_wanted line.now }
{
    if line != b"end".as_slice() {
        Err(Cause::Form)
    } else if is_wanted {
        Ok(())
    } else {
        Err(Cause::Version)
    }
}

/// The first line, which names the version.
pub(super) fn parse_version(line: &[u8]) -> Result<Version, Cause>
    ensures { result ≡ version_in line.now }
{
    if line == b"meshcert 1".as_slice() {
        return Ok(Version::One);
    }
    if line == b"meshcert 2".as_slice() {
        return Ok(Version::Two);
    }
    if line == b"meshcert 3".as_slice() {
        return Ok(Version::Three);
    }
    Err(Cause::Form)
}

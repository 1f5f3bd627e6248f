//! Reads lines.

ghost use Rattle.std.specs.Prelude.{◌≡◌, Option};
ghost use Rattle.trace_text.specs.Form.{adopt_line, aimed_call, bare_call, counted_call, form_of, form_of_words, key_call, one_word, retire_call, set_call, thread_line, two_words, value_call, valued_call, with_two};
ghost use Rattle.certificate.specs.Words.{contents_of};
ghost use Rattle.trace_text.specs.Within.{within, within_call};
ghost use Rattle.trace_text.specs.declared.line.Call.{Call};
ghost use Rattle.trace_text.specs.declared.line.Call.TheVariants.{Fill, Put, Sweep};

use super::cause::Cause;
use super::header::Version;
use super::line::{Call, Line};
use super::name::{Name, Reference};
use super::numeral::{Number, clipped_number, parse_number};
use super::verb::{class_filled, class_put};
use super::words::words;
use span::names::Class;

/// A call with no more words than its verb.
fn bare_call(verb: &[u8]) -> Result<Call, Cause>
    ensures { result ≡ within_call (bare_call verb.now) }
{
    match verb {
        b"end" => Ok(Call::End),
        b"tend" => Ok(Call::Tend),
        b"trim" => Ok(Call::Trim),
        b"begin" => Ok(Call::Begin),
        _ => Err(Cause::Form),
    }
}

/// A call on a key.
fn key_call(verb: &[u8], key: &[u8]) -> Result<Call, Cause>
    ensures { result ≡ within_call (key_call verb.now key.now) }
{
    let key = Reference::new(key).ok_or(Cause::Form)?;
    match verb {
        b"get" => Ok(Call::Get { key }),
        b"free" => Ok(Call::Free { key }),
        b"later" => Ok(Call::Later { key }),
        _ => Err(Cause::Form),
    }
}

/// A retirement. A number that does not fit is kept as the greatest that does, since no line may
/// ask for so many groups. It stays out of the reader of lines, of which most are others.
#[inline(never)]
fn retire_call(most: &[u8]) -> Result<Call, Cause>
    ensures { result ≡ within_call (retire_call most.now) }
{
    let most = clipped_number(most).ok_or(Cause::Form)?;
    Ok(Call::Retire { most })
}

/// A call with one word behind its verb: a number or a key.
fn aimed_call(verb: &[u8], word: &[u8]) -> Result<Call, Cause>
    ensures { result ≡ within_call (aimed_call verb.now word.now) }
{
    if verb == b"retire".as_slice() {
        retire_call(word)
    } else {
        key_call(verb, word)
    }
}

/// A call with a name and a value.
fn value_call(verb: &[u8], name: &[u8], value: &[u8]) -> Result<Call, Cause>
    ensures { result ≡ within_call (value_call verb.now name.now value.now) }
{
    let class = class_put(verb).ok_or(Cause::Form)?;
    let name = Name::new(name).ok_or(Cause::Form)?;
    match parse_number(value) {
        None => Err(Cause::Form),
        Some(Number::Large) => Err(Cause::Limit),
        Some(Number::Fits(value)) => Ok(Call::Put { name, class, value }),
    }
}

/// A set. Its class is that of the line that binds the name, of which its words say nothing: here
/// it is of one word. It stays out of the reader of lines, of which most are others.
#[inline(never)]
fn set_call(key: &[u8], value: &[u8]) -> Result<Call, Cause>
    ensures { result ≡ within_call (set_call key.now value.now) }
{
    let key = Reference::new(key).ok_or(Cause::Form)?;
    match parse_number(value) {
        None => Err(Cause::Form),
        Some(Number::Large) => Err(Cause::Limit),
        Some(Number::Fits(value)) => Ok(Call::Set {
            key,
            class: Class::C16,
            value,
        }),
    }
}

/// A call with a key or a name, and a value.
fn valued_call(verb: &[u8], target: &[u8], value: &[u8]) -> Result<Call, Cause>
    ensures { result ≡ within_call (valued_call verb.now target.now value.now) }
{
    if verb == b"set".as_slice() {
        set_call(target, value)
    } else {
        value_call(verb, target, value)
    }
}

/// A fill. A count that does not fit is kept as the greatest that does, since no fill has as many
/// keys.
fn fill_call(class: Class, name: &[u8], count: &[u8], value: &[u8]) -> Result<Call, Cause>
    ensures { result ≡ within_call (with_two (λ n a b. Fill n class a b) name.now count.now
        value.now) }
{
    let name = Name::new(name).ok_or(Cause::Form)?;
    let count = clipped_number(count).ok_or(Cause::Form)?;
    match parse_number(value) {
        None => Err(Cause::Form),
        Some(Number::Large) => Err(Cause::Limit),
        Some(Number::Fits(value)) => Ok(Call::Fill {
            name,
            class,
            count,
            value,
        }),
    }
}

/// A sweep. A bound that does not fit is kept as the greatest that does, since no name has such a
/// key.
fn sweep_call(name: &[u8], from: &[u8], to: &[u8]) -> Result<Call, Cause>
    ensures { result ≡ within_call (with_two (λ n a b. Sweep n a b) name.now from.now to.now) }
{
    let name = Name::new(name).ok_or(Cause::Form)?;
    let from = clipped_number(from).ok_or(Cause::Form)?;
    let to = clipped_number(to).ok_or(Cause::Form)?;
    Ok(Call::Sweep { name, from, to })
}

/// A call with a name and two numbers.
fn counted_call(verb: &[u8], name: &[u8], first: &[u8], second: &[u8]) -> Result<Call, Cause>
    ensures { result ≡ within_call (counted_call verb.now name.now first.now second.now) }
{
    match verb {
        b"sweep" => sweep_call(name, first, second),
        _ => {
            let class = class_filled(verb).ok_or(Cause::Form)?;
            fill_call(class, name, first, second)
        }
    }
}

/// A thread's call, whose verb the version must have. A number that does not fit is kept as the
/// greatest that does, since no trace has such a thread.
#[inline(always)]
fn thread_line(
    version: Version,
    thread: &[u8],
    verb: &[u8],
    call: Result<Call, Cause>,
) -> Result<Line, Cause>
    ensures { (form : Option Call) → call ≡ within_call form
        → result ≡ within (thread_line version thread.now verb.now form) }
{
    if !version.has_verb(verb) {
        return Err(Cause::Form);
    }
    let thread = clipped_number(thread).ok_or(Cause::Form)?;
    let call = call?;
    Ok(Line::Call { thread, call })
}

/// A line of one word.
fn one_word(word: &[u8]) -> Result<Line, Cause>
    ensures { result ≡ within (one_word word.now) }
{
    match word {
        b"mark" => Ok(Line::Mark),
        _ => Err(Cause::Form),
    }
}

/// The line of a shard that adopts. A number that does not fit is kept as a thread's is.
fn adopt_line(shard: &[u8]) -> Result<Line, Cause>
    ensures { result ≡ within (adopt_line shard.now) }
{
    let shard = clipped_number(shard).ok_or(Cause::Form)?;
    Ok(Line::Adopt { shard })
}

/// A line of two words.
fn two_words(version: Version, first: &[u8], second: &[u8]) -> Result<Line, Cause>
    ensures { result ≡ within (two_words version first.now second.now) }
{
    match first {
        b"adopt" => adopt_line(second),
        _ => thread_line(version, first, second, bare_call(second)),
    }
}

/// A line of these words.
fn line_of_words(version: Version, words: &[&[u8]]) -> Result<Line, Cause>
    ensures { result ≡ within (form_of_words version (contents_of words.now)) }
{
    match words {
        [word] => one_word(word),
        [first, second] => two_words(version, first, second),
        [thread, verb, word] => thread_line(version, thread, verb, aimed_call(verb, word)),
        [thread, verb, target, value] => {
            thread_line(version, thread, verb, valued_call(verb, target, value))
        }
        [thread, verb, name, first, second] => {
            thread_line(
                version,
                thread,
                verb,
                counted_call(verb, name, first, second),
            )
        }
        _ => Err(Cause::Form),
    }
}

/// What a line below a header of that version says.
pub fn read_line(version: Version, line: &[u8]) -> Result<Line, Cause>
    ensures { result ≡ within (form_of version line.now) }
{
    match line {
        [] | [b'#', ..] => Ok(Line::Silent),
        _ => match words(line) {
            None => Err(Cause::Form),
            Some(words) => line_of_words(version, words.as_slice()),
        },
    }
}

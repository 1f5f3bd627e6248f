// The parts of a number, and the number of its parts.
ghost use Rattle.std.specs.Prelude.{◌≡◌, ◌<◌, ◌≤◌, ◌+◌, ◌*◌, ◌/◌, ◌%◌, ◌^◌, IfNone, IfSome, IsTrue, ◌↔◌};
ghost use Rattle.span.specs.declared.key.Key.{Key};
ghost use Rattle.key_bits.specs.Numbers.{HasParts, HaveRoom, number_of_parts};

use crate::layout::KeyBits;
use span::names::{Key, SpanId};

/// The parts of a key's number, whatever numbers they are.
#[derive(Clone, Copy)]
pub(crate) struct Parts {
    pub(crate) generation: u64,
    pub(crate) shard: u64,
    pub(crate) serial: u64,
    pub(crate) slot: u8,
}

/// Whether each part fits its bits.
pub(crate) fn have_room(bits: KeyBits, parts: Parts) -> bool
    ensures { IsTrue result
        ↔ HaveRoom bits parts.generation parts.shard parts.serial parts.slot }
{
    parts.generation < 1 << bits.generation
        && parts.shard < 1 << bits.shard
        && parts.serial < 1 << bits.serial
}

/// The number with `part` in the last bits, behind the others.
fn appended(number: u64, width: u32, part: u64) -> u64
    requires width { width ≤ 32 }
    requires part { part < 2 ^ width }
    requires all { number * 2 ^ width + part < 2 ^ 64 }
    ensures { result ≡ number * 2 ^ width + part }
{
    number * (1 << width) + part
}

/// The number of these parts.
pub(crate) fn joined(bits: KeyBits, parts: Parts) -> u64
    requires { HaveRoom bits parts.generation parts.shard parts.serial parts.slot }
    ensures { result ≡ number_of_parts bits parts.generation parts.shard parts.serial parts.slot }
{
    let front = appended(parts.generation, bits.shard, parts.shard);
    let span = appended(front, bits.serial, parts.serial);
    appended(span, 8, u64::from(parts.slot))
}

/// The bits in front of the last ones, and the last ones.
fn split(number: u64, width: u32) -> (u64, u64)
    requires { width ≤ 32 }
    ensures front { result.0 ≡ number / 2 ^ width }
    ensures last { result.1 ≡ number % 2 ^ width }
{
    (number / (1 << width), number % (1 << width))
}

/// The parts of this number.
pub(crate) fn parted(bits: KeyBits, number: u64) -> Parts
    ensures number { number
        ≡ number_of_parts bits result.generation result.shard result.serial result.slot }
    ensures shard { result.shard < 2 ^ bits.shard }
    ensures serial { result.serial < 2 ^ bits.serial }
    ensures slot { result.slot < 2 ^ 8 }
{
    let (span, slot) = split(number, 8);
    let (front, serial) = split(span, bits.serial);
    let (generation, shard) = split(front, bits.shard);
    Parts {
        generation,
        shard,
        serial,
        slot: slot as u8,
    }
}

/// The key of these parts, or `None` if no key has them.
pub(crate) fn key_of(parts: Parts) -> Option<Key>
    requires generation { parts.generation < 2 ^ 32 }
    requires shard { parts.shard < 2 ^ 32 }
    requires serial { parts.serial < 2 ^ 32 }
    ensures some { IfSome result
        (HasParts parts.generation parts.shard parts.serial parts.slot) }
    ensures none { IfNone result ((key : Key)
        → HasParts parts.generation parts.shard parts.serial parts.slot key → ⊥) }
{
    let span = SpanId::new(parts.shard as u32, parts.serial as u32)?;
    Key::new(span, parts.slot, parts.generation as u32)
}

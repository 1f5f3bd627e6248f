// The number of a key, and the key of a number.
ghost use Rattle.std.specs.Prelude.{◌≡◌, ◌<◌, ◌≤◌, ◌+◌, ◌*◌, ◌^◌, ℕ, IfErr, IfNone, IfOk, IfSome};
ghost use Rattle.span.specs.declared.key.Key.{Key};

use crate::parts::{Parts, have_room, joined, key_of, parted};
use crate::width::width_of;
use span::names::{Key, SpanId};
use thiserror::Error;

/// How many bits the parts of a key take in its number, of 64. The slot takes 8.
#[derive(Clone, Copy, PartialEq, Eq, Debug)]
pub struct KeyBits {
    /// The bits of the shard, behind those of the generation.
    pub shard: u32,
    /// The bits of the serial, behind those of the shard.
    pub serial: u32,
    /// The bits of the generation, which stand first. The slot's 8 bits stand last.
    pub generation: u32,
    pub ghost shard_in_range: { shard ≤ 32 },
    pub ghost serial_in_range: { serial ≤ 32 },
    pub ghost generation_in_range: { generation ≤ 32 },
    pub ghost all_in_range: { generation + shard + serial ≤ 56 },
}

/// Why there is no such layout.
#[derive(Clone, Copy, PartialEq, Eq, Debug, Error)]
pub enum LayoutError {
    /// A part takes more than 32 bits, which no part of a key has.
    #[error("a part of a key takes at most 32 bits")]
    PartTooWide,
    /// The parts of a key take more than 64 bits.
    #[error("the parts of a key take {bits} bits, and a number has 64")]
    TooManyBits {
        /// How many bits they take.
        bits: u32,
    },
}

impl KeyBits {
    ghost use Rattle.key_bits.specs.Numbers.{AllFit, Fits, HasBits, IsLayoutFor, IsNoLayout, IsNumberOf, IsTooWide, TakesBits};

    /// The layout with so many bits for the shard, the serial and the generation.
    ///
    /// # Errors
    ///
    /// `PartTooWide` if one of them takes more than 32 bits, and else `TooManyBits` if these and
    /// the slot's 8 come to more than 64.
    pub fn new(shard: u32, serial: u32, generation: u32) -> Result<KeyBits, LayoutError>
        ensures ok { IfOk result (λ layout. HasBits layout shard serial generation) }
        ensures err { IfErr result (IsNoLayout shard serial generation) }
    {
        if shard > 32 || serial > 32 || generation > 32 {
            return Err(LayoutError::PartTooWide);
        }
        KeyBits::with_bits(shard, serial, generation)
    }

    // The same, of parts that take no more than 32 bits.
    fn with_bits(shard: u32, serial: u32, generation: u32) -> Result<KeyBits, LayoutError>
        requires shard { shard ≤ 32 }
        requires serial { serial ≤ 32 }
        requires generation { generation ≤ 32 }
        ensures ok { IfOk result (λ layout. HasBits layout shard serial generation) }
        ensures err { IfErr result (TakesBits (generation + shard + serial + 8)) }
    {
        let bits = generation + shard + serial + 8;
        if bits > 64 {
            return Err(LayoutError::TooManyBits { bits });
        }
        Ok(KeyBits {
            shard,
            serial,
            generation,
        })
    }

    /// The layout with the fewest bits in which each key has a number whose shard is below
    /// `shards`, whose serial is below `spans`, and whose generation is at most `generations`.
    ///
    /// # Errors
    ///
    /// `TooManyBits` if these parts and the slot's 8 bits come to more than 64.
    pub fn for_limits(shards: u32, spans: u32, generations: u32) -> Result<KeyBits, LayoutError>
        ensures ok { IfOk result (IsLayoutFor shards spans generations) }
        ensures err { IfErr result (IsTooWide shards spans generations) }
        ensures fits { IfOk result (AllFit shards spans generations) }
    {
        let shard = width_of(u64::from(shards));
        let serial = width_of(u64::from(spans));
        let generation = width_of(u64::from(generations) + 1);
        KeyBits::with_bits(shard, serial, generation)
    }

    /// 16 shards, of 268,435,456 spans each, and 16,777,215 generations: 64 bits.
    pub fn balanced() -> KeyBits
        ensures { HasBits result 4 28 24 }
    {
        KeyBits {
            shard: 4,
            serial: 28,
            generation: 24,
        }
    }

    /// How many bits the number of a key takes, at most 64.
    pub fn width(self) -> u32
        ensures { result ≡ self.generation + self.shard + self.serial + 8 }
    {
        self.shard + self.serial + self.generation + 8
    }

    /// The number of the key, or `None` if a part of the key does not fit its bits.
    pub fn to_number(self, key: Key) -> Option<u64>
        ensures number { IfSome result (IsNumberOf self key) }
        ensures none { IfNone result (Fits self key → ⊥) }

        // No other key has the number, no key has 0, and a number takes the bits of the layout.
        ensures alone { IfSome result (λ number. (other : Key) → IsNumberOf self other number
            → other ≡ key) }
        ensures above { IfSome result (λ number. 0 < number) }
        ensures below { IfSome result (λ number. number
            < 2 ^ (self.generation + self.shard + self.serial + 8)) }
    {
        let Key {
            span: SpanId { shard, serial },
            slot,
            generation,
        } = key;
        let parts = Parts {
            generation: u64::from(generation),
            shard: u64::from(shard),
            serial: u64::from(serial),
            slot,
        };
        if have_room(self, parts) {
            Some(joined(self, parts))
        } else {
            None
        }
    }

    /// The key of the number, or `None` if no key has it.
    pub fn from_number(self, number: u64) -> Option<Key>
        ensures key { IfSome result (λ key. IsNumberOf self key number) }
        ensures none { IfNone result ((key : Key) → IsNumberOf self key number → ⊥) }
    {
        let parts = parted(self, number);
        if !have_room(self, parts) {
            return None;
        }
        key_of(parts)
    }
}

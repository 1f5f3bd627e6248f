// Keys as numbers of 64 bits.
ghost use Rattle.std.specs.Prelude.{◌≡◌, MatchOption};
ghost use Rattle.teurlaks_c.specs.KeyNumbers.{IsLayoutOf, IsNoLayoutOf, SaysKey, SaysLayout, SaysNumber};

use crate::keys::{key_of, raw_of};
use crate::replies::RawKey;
use crate::status::{CONFIG, NONE, OK};
use key_bits::KeyBits;

/// How many bits of a number the shard, the serial and the generation of a key take. The slot takes
/// 8, and all together at most 64.
#[repr(C)]
#[derive(Clone, Copy)]
pub struct RawKeyBits {
    pub shard: u8,
    pub serial: u8,
    pub generation: u8,
    pub reserved: u8,
}

/// Which layout limits have: its bits if the status is `OK`, else zeros.
#[repr(C)]
#[derive(Clone, Copy)]
pub struct KeyBitsReply {
    pub status: u32,
    pub bits: RawKeyBits,
}

/// What the number of a key is: the number if the status is `OK`, else 0.
#[repr(C)]
#[derive(Clone, Copy)]
pub struct NumberReply {
    pub number: u64,
    pub status: u32,
}

/// What the key of a number is: the key if the status is `OK`, else zeros.
#[repr(C)]
#[derive(Clone, Copy)]
pub struct KeyReply {
    pub status: u32,
    pub key: RawKey,
}

/// The layout with the fewest bits in which each key has a number whose shard is below `shards`,
/// whose serial is below `spans`, and whose generation is at most `generations`.
///
/// `CONFIG` if they come to more than 64 bits with the slot's 8.
#[unsafe(no_mangle)]
pub extern "C" fn teurlaks_key_bits(shards: u32, spans: u32, generations: u32) -> KeyBitsReply
    ensures { SaysLayout shards spans generations result }
{
    match KeyBits::for_limits(shards, spans, generations) {
        Ok(bits) => KeyBitsReply {
            status: OK,
            bits: raw_bits(bits),
        },
        Err(_) => no_bits(CONFIG),
    }
}

/// The number of the key in the layout, which is never 0, and which no other key has.
///
/// `NONE` if no key has these numbers, or a part of it does not fit its bits; `CONFIG` if the
/// layout takes more than 64 bits, or a part more than 32.
#[unsafe(no_mangle)]
pub extern "C" fn teurlaks_key_to_u64(bits: RawKeyBits, key: RawKey) -> NumberReply
    ensures { SaysNumber bits key result }
{
    let Some(bits) = layout_of(bits) else {
        return no_number(CONFIG);
    };
    let Some(key) = key_of(key) else {
        return no_number(NONE);
    };
    match bits.to_number(key) {
        Some(number) => NumberReply { number, status: OK },
        None => no_number(NONE),
    }
}

/// The key of the number in the layout.
///
/// `NONE` if no key has the number; `CONFIG` as of `teurlaks_key_to_u64`.
#[unsafe(no_mangle)]
pub extern "C" fn teurlaks_key_from_u64(bits: RawKeyBits, number: u64) -> KeyReply
    ensures { SaysKey bits number result }
{
    let Some(bits) = layout_of(bits) else {
        return no_key_of(CONFIG);
    };
    match bits.from_number(number) {
        Some(key) => KeyReply {
            status: OK,
            key: raw_of(key),
        },
        None => no_key_of(NONE),
    }
}

/// The layout of these bits, or `None` if there is none.
fn layout_of(raw: RawKeyBits) -> Option<KeyBits>
    ensures { MatchOption result (IsNoLayoutOf raw) (IsLayoutOf raw) }
{
    let RawKeyBits {
        shard,
        serial,
        generation,
        reserved,
    } = raw;
    if reserved != 0 {
        return None;
    }
    match KeyBits::new(u32::from(shard), u32::from(serial), u32::from(generation)) {
        Ok(bits) => Some(bits),
        Err(_) => None,
    }
}

/// The bits of the layout.
fn raw_bits(bits: KeyBits) -> RawKeyBits
    ensures { IsLayoutOf result bits }
{
    let KeyBits {
        shard,
        serial,
        generation,
    } = bits;
    RawKeyBits {
        shard: shard as u8,
        serial: serial as u8,
        generation: generation as u8,
        reserved: 0,
    }
}

// No layout, for this cause.
fn no_bits(status: u32) -> KeyBitsReply
    ensures { result.status ≡ status }
{
    let bits = RawKeyBits {
        shard: 0,
        serial: 0,
        generation: 0,
        reserved: 0,
    };
    KeyBitsReply { status, bits }
}

// No number, for this cause.
fn no_number(status: u32) -> NumberReply
    ensures status { result.status ≡ status }
    ensures number { result.number ≡ 0 }
{
    NumberReply { number: 0, status }
}

// No key, for this cause.
fn no_key_of(status: u32) -> KeyReply
    ensures { result.status ≡ status }
{
    let key = RawKey {
        serial: 0,
        generation: 0,
        shard: 0,
        slot: 0,
        reserved: 0,
    };
    KeyReply { status, key }
}

//! Keys as numbers: numbers that were worked out by hand, keys beyond their layout, and layouts for
//! limits.
use key_bits::{KeyBits, LayoutError};
use span::names::{Key, SpanId};

// The number of the key of these parts.
fn number(bits: KeyBits, shard: u32, serial: u32, slot: u8, generation: u32) -> Option<u64> {
    let span = SpanId::new(shard, serial)?;
    bits.to_number(Key::new(span, slot, generation)?)
}

// The parts of the key of the number.
fn parts(bits: KeyBits, number: u64) -> Option<(u32, u32, u8, u32)> {
    let Key {
        span: SpanId { shard, serial },
        slot,
        generation,
    } = bits.from_number(number)?;
    Some((shard, serial, slot, generation))
}

// The bits of the shard, the serial and the generation, or how many bits were wanted, if no part is
// too wide.
fn parted(made: Result<KeyBits, LayoutError>) -> Result<(u32, u32, u32), Option<u32>> {
    match made {
        Ok(bits) => Ok((bits.shard, bits.serial, bits.generation)),
        Err(LayoutError::TooManyBits { bits }) => Err(Some(bits)),
        Err(LayoutError::PartTooWide) => Err(None),
    }
}

#[test]
fn a_number_has_the_bits_of_the_parts(rt: HostRuntime) {
    let bits = KeyBits::balanced();
    assert_eq!(rt;
        (
            number(bits, 0, 0, 0, 1),
            number(bits, 3, 17, 255, 1),
            number(bits, 15, 268_435_455, 255, 16_777_215),
        ),
        (
            Some(0x0000_0100_0000_0000),
            Some(0x0000_0130_0000_11ff),
            Some(u64::MAX),
        )
    );
}

#[test]
fn a_key_beyond_its_layout_has_no_number(rt: HostRuntime) {
    let bits = KeyBits::balanced();
    assert_eq!(rt;
        (
            number(bits, 16, 0, 0, 1),
            number(bits, 0, 268_435_456, 0, 1),
            number(bits, 0, 0, 0, 16_777_216),
        ),
        (None, None, None)
    );
}

#[test]
fn a_number_is_read_if_a_key_has_it(rt: HostRuntime) {
    let bits = KeyBits::balanced();
    assert_eq!(rt;
        (
            parts(bits, 0),
            parts(bits, 0x0000_00ff_ffff_ffff),
            parts(bits, 0x0000_0130_0000_11ff),
            parts(bits, u64::MAX),
        ),
        (
            None,
            None,
            Some((3, 17, 255, 1)),
            Some((15, 268_435_455, 255, 16_777_215)),
        )
    );
}

#[test]
fn a_layout_for_doubles_has_53_bits(rt: HostRuntime) {
    let bits = match KeyBits::new(3, 18, 24) {
        Ok(bits) => bits,
        Err(_) => KeyBits::balanced(),
    };
    assert_eq!(rt;
        (
            bits.width(),
            number(bits, 7, 262_143, 255, 16_777_215),
            parts(bits, 0x001f_ffff_ffff_ffff),
            parts(bits, 0x0020_0000_0000_0000),
        ),
        (
            53,
            Some(0x001f_ffff_ffff_ffff),
            Some((7, 262_143, 255, 16_777_215)),
            None,
        )
    );
}

#[test]
fn limits_have_the_layout_with_the_fewest_bits(rt: HostRuntime) {
    assert_eq!(rt;
        (
            parted(KeyBits::for_limits(1, 1, 1)),
            parted(KeyBits::for_limits(2, 1000, 9)),
            parted(KeyBits::for_limits(16, 268_435_456, 16_777_215)),
            parted(KeyBits::for_limits(64, u32::MAX, u32::MAX)),
        ),
        (
            Ok((0, 0, 1)),
            Ok((1, 10, 4)),
            Ok((4, 28, 24)),
            Err(Some(78)),
        )
    );
}

#[test]
fn a_layout_takes_64_bits_at_most(rt: HostRuntime) {
    assert_eq!(rt;
        (
            parted(KeyBits::new(4, 28, 24)),
            parted(KeyBits::new(4, 28, 25)),
            parted(KeyBits::new(0, 33, 0)),
        ),
        (Ok((4, 28, 24)), Err(Some(65)), Err(None))
    );
}

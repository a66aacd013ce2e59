//! How fields are cut out of registers: everywhere by `cut`.

ghost use Rattle.std.specs.Prelude.{◌≡◌, ◌+◌, ◌-◌, ◌*◌, ◌/◌, ◌%◌, ◌^◌, ◌<◌, ◌≤◌, length, take, drop};
ghost use Rattle.sdv_frames.specs.Bits.{bits, bits_of};
ghost use Rattle.sdv_registers.specs.Field.{field};

use byteorder::{BigEndian, ByteOrder};

/// The `count` bits of a number from its bit `low` up.
pub(crate) fn cut(number: u128, low: u32, count: u32) -> u64
    requires place { low < 128 }
    requires width { count ≤ 64 }
    ensures { result ≡ number / 2 ^ low % 2 ^ count }
{
    let mask = (1u128 << count) - 1;
    (number >> low & mask) as u64
}

/// The field `[high:low]` of a word of 32 bits.
pub(crate) fn word_field(word: u32, high: u32, low: u32) -> u32
    requires order { low ≤ high }
    requires within { high ≤ 31 }
    ensures value { result ≡ field 31 high low (bits 32 word) }
    ensures width { result < 2 ^ (high + 1 - low) }
{
    cut(word as u128, low, high + 1 - low) as u32
}

/// The field `[high:low]` of a register whose bits 127..8 are these bytes.
pub(crate) fn register_field(register: &[u8; 15], high: u32, low: u32) -> u64
    requires above { 8 ≤ low }
    requires order { low ≤ high }
    requires within { high ≤ 127 }
    requires narrow { high < low + 64 }
    ensures value { result ≡ field 127 high low (bits_of register.now) }
    ensures width { result < 2 ^ (high + 1 - low) }
{
    let number = BigEndian::read_uint128(register, 15);
    cut(number, low - 8, high + 1 - low)
}

/// The bytes of a register from this place on, as many as `count`.
pub(crate) fn characters(register: &[u8; 15], place: usize, count: usize) -> &[u8]
    requires { place + count ≤ 15 }
    ensures { bits_of result.now ≡ take (8 * count) (drop (8 * place) (bits_of register.now)) }
{
    &register[place..place + count]
}

//! The CRC7 of the command line.

ghost use Rattle.std.specs.Prelude.{◌<◌, ◌^◌, [], ◌∷◌, ◌++◌};
ghost use Rattle.sdv_frames.specs.Bits.{Bits, bits, bits_of};
ghost use Rattle.sdv_frames.specs.Polynomial.{IsCrc7};

/// The generator x^7 + x^3 + 1 without its highest term.
const GENERATOR: u8 = 0b000_1001;

/// The seven bits of a remainder.
const REMAINDER: u8 = 0b111_1111;

/// The CRC7 of a message with one more bit, by that of the message.
fn with_bit(crc: u8, bit: bool) -> u8
    requires { crc < 2 ^ 7 }
    ensures remainder { (message : Bits) → IsCrc7 message (bits 7 crc) → IsCrc7 (message ++ bit ∷ []) (bits 7 result) }
    ensures degree { result < 2 ^ 7 }
{
    let shifted = crc * 2 & REMAINDER;
    if (crc >= 64) == bit {
        shifted
    } else {
        shifted ^ GENERATOR
    }
}

/// The CRC7 of a message with one more byte, by that of the message.
fn with_byte(crc: u8, byte: u8) -> u8
    requires { crc < 2 ^ 7 }
    ensures remainder { (message : Bits) → IsCrc7 message (bits 7 crc)
        → IsCrc7 (message ++ bits 8 byte) (bits 7 result) }
    ensures degree { result < 2 ^ 7 }
{
    let mut after = crc;
    for place in 0..8u8 {
        after = with_bit(after, byte >> (7 - place) & 1 == 1);
    }
    after
}

/// The CRC7 of bytes, the highest bit of each first: the remainder of their bits, as a polynomial
/// times x^7, by x^7 + x^3 + 1 (SD Physical Layer Simplified Specification, section 4.5).
pub fn crc7(bytes: &[u8]) -> u8
    ensures remainder { IsCrc7 (bits_of bytes.now) (bits 7 result) }
    ensures degree { result < 2 ^ 7 }
{
    let mut crc = 0;
    for byte in bytes {
        crc = with_byte(crc, *byte);
    }
    crc
}

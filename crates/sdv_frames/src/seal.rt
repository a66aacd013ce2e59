//! The bytes of frames.

ghost use Rattle.std.specs.Prelude.{true, ◌≡◌, ◌<◌, ◌^◌, [], ◌∷◌, ◌++◌};
ghost use Rattle.sdv_frames.specs.Bits.{bits, bits_of};
ghost use Rattle.sdv_frames.specs.Frame.{IsSealed};

use crate::crc::crc7;
use crate::layout::END_BIT;
use byteorder::{BigEndian, ByteOrder};

/// The last byte of a frame: a CRC7 and the end bit.
pub fn last_byte(crc: u8) -> u8
    requires { crc < 2 ^ 7 }
    ensures { bits 8 result ≡ bits 7 crc ++ true ∷ [] }
{
    crc << 1 | END_BIT
}

/// The six bytes of a frame of 48 bits.
pub fn frame_of(first: u8, word: u32, last: u8) -> [u8; 6]
    ensures { bits_of result ≡ (bits 8 first ++ bits 32 word) ++ bits 8 last }
{
    let mut frame = [first, 0, 0, 0, 0, last];
    BigEndian::write_u32(&mut frame[1..5], word);
    frame
}

/// The six bytes of a frame of 48 bits under their CRC7.
pub fn sealed(first: u8, word: u32) -> [u8; 6]
    ensures { IsSealed (bits 8 first ++ bits 32 word) (bits_of result) }
{
    let mut front = [first, 0, 0, 0, 0];
    BigEndian::write_u32(&mut front[1..], word);
    frame_of(first, word, last_byte(crc7(&front)))
}

//! Why bytes are no frame.

use thiserror::Error;

/// Why bytes are no frame. Of several faults the first in this order is answered.
#[derive(Clone, Copy, Debug, PartialEq, Eq, Error)]
pub enum FrameFault {
    /// The bytes are more or fewer than those of the frame that was asked for.
    #[error("the frame has another length")]
    Length,
    /// The first bit is not 0.
    #[error("the start bit is not 0")]
    StartBit,
    /// The second bit is not that of the side that sends: 1 from the host, 0 from the card.
    #[error("the direction bit is that of the other side")]
    Direction,
    /// The six bits of the command index are not those that were asked for.
    #[error("the command index is another one")]
    Index,
    /// The CRC7 is not that of the bits that it covers.
    #[error("the CRC7 is wrong")]
    Crc,
    /// The last bit is not 1.
    #[error("the end bit is not 1")]
    EndBit,
    /// The seven bits before the end bit of an R3 are not all 1.
    #[error("reserved bits are not all 1")]
    Reserved,
}

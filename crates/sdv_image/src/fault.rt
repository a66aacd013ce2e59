//! Why there is no simulated card.

use thiserror::Error;

/// Why there is no simulated card. Of several faults the first in this order is answered.
#[derive(Clone, Copy, Debug, PartialEq, Eq, Error)]
pub enum SimFault {
    /// A line of the card's description is not as it must be, or a value of the schedule is too great.
    #[error("the description or the schedule is not as it must be")]
    Description,
    /// The description gives more blocks than a card of its kind and unit can have.
    #[error("the card would have too many blocks")]
    Capacity,
    /// The image has not as many blocks as the description gives, or is not whole blocks.
    #[error("the image has another length")]
    ImageLength,
    /// The first block of the image could not be read.
    #[error("the image cannot be read")]
    ImageRead,
    /// Memory ran out.
    #[error("out of memory")]
    Memory,
}

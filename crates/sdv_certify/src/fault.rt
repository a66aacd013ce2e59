//! Why a script has no certificate.

ghost use Rattle.std.specs.Prelude.{◌≡◌};

use sdv_card::Shape;
use std::alloc::AllocError;
use thiserror::Error;

/// Why a script has no certificate. A point is named by its number, from 0.
#[derive(Clone, Copy, Debug, PartialEq, Eq, Error)]
pub enum CertifyFault {
    /// The event is not legal at the shape, the least of those of the point where it is not.
    #[error("the event of point {point} is not legal at the shape {shape:?}")]
    Illegal {
        /// The point.
        point: usize,
        /// The shape.
        shape: Shape,
    },
    /// The blocks of the point's command are not known to lie on the card, or are addressed in another unit.
    #[error("the address of point {point} is not known to fit the card")]
    Address {
        /// The point.
        point: usize,
    },
    /// A card may be in another state than the transfer state at the `done` of the point.
    #[error("the card may not be in the transfer state at point {point}")]
    EndState {
        /// The point.
        point: usize,
    },
    /// More than 65,536 shapes are possible over all points, or a bound is above 2^40.
    #[error("too many shapes are possible, or a bound is too great")]
    TooMany,
    /// Memory was refused.
    #[error("out of memory")]
    Memory,
}

impl From<AllocError> for CertifyFault {
    ghost use Rattle.sdv_certify.specs.declared.fault.CertifyFault.TheVariants.{Memory};

    ghost from_gives = { λ _ fault. fault ≡ Memory };

    fn from(_refused: AllocError) -> CertifyFault {
        CertifyFault::Memory
    }
}

//! Why a text is no certificate.

ghost use Rattle.std.specs.Prelude.{◌≡◌};
ghost use Rattle.sdv_check.specs.declared.text.fault.CertFault.TheVariants.{Memory};

use std::alloc::{AllocError, AllocFailed};
use thiserror::Error;

/// Why a text is no certificate: the first fault in reading order. Lines are counted from 1.
#[derive(Clone, Copy, Debug, PartialEq, Eq, Error)]
pub enum CertFault {
    /// The first line is not that of a certificate.
    #[error("certificate fault Header")]
    Header,
    /// Another line departs from the form.
    #[error("certificate fault Syntax line {line}")]
    Syntax {
        /// The line that departs, or that is missing.
        line: u32,
    },
    /// The shapes of a line do not rise.
    #[error("certificate fault Order line {line}")]
    Order {
        /// Their line.
        line: u32,
    },
    /// The text is too long, or a number, the points, or the items of a line or of all lines pass their limit.
    #[error("certificate fault Limit")]
    Limit,
    /// Memory ran out.
    #[error("certificate fault Memory")]
    Memory,
}

impl From<AllocError> for CertFault {
    ghost from_gives = { λ _ e. e ≡ Memory };

    fn from(_e: AllocError) -> CertFault {
        CertFault::Memory
    }
}

impl<T: Drop> From<AllocFailed<T>> for CertFault {
    ghost from_gives = { λ _ e. e ≡ Memory };

    fn from(_e: AllocFailed<T>) -> CertFault {
        CertFault::Memory
    }
}

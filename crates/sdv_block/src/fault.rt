//! Why requests are not served.

ghost use Rattle.std.specs.Prelude.{◌≡◌};
ghost use Rattle.sdv_block.specs.declared.fault.BlockFault.TheVariants.{Memory};

use sdv_certify::CertifyFault;
use sdv_check::VerifyFault;
use sdv_run::RunFault;
use std::alloc::AllocError;
use thiserror::Error;

/// Why requests were not served.
#[derive(Clone, Copy, Debug, PartialEq, Eq, Error)]
pub enum BlockFault {
    /// There is no request.
    #[error("there is no request")]
    Empty,
    /// A request has no block, more than 65,535, or one above the greatest card.
    #[error("a request has no block, more than 65,535, or one that no card has")]
    Range,
    /// The text of the requests' script would break a limit of scripts.
    #[error("the script of the requests would break a limit")]
    Limit,
    /// The script has no certificate.
    #[error("{0}")]
    Certify(CertifyFault),
    /// The script or its certificate is not accepted.
    #[error("{0}")]
    Verify(VerifyFault),
    /// The run stopped before its end.
    #[error("{0}")]
    Run(RunFault),
    /// Memory was refused.
    #[error("out of memory")]
    Memory,
}

impl From<AllocError> for BlockFault {
    ghost from_gives = { λ _ fault. fault ≡ Memory };

    fn from(_refused: AllocError) -> BlockFault {
        BlockFault::Memory
    }
}

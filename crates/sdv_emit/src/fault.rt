//! Why no table is printed.

ghost use Rattle.sdv_emit.specs.declared.fault.EmitFault.TheVariants.{Memory};

use sdv_check::VerifyFault;
use sdv_table::Part;
use std::alloc::{AllocError, AllocFailed};
use thiserror::Error;

/// Why no table is printed.
#[derive(Clone, Copy, Debug, PartialEq, Eq, Error)]
pub enum EmitFault {
    /// The name of the array is no identifier of C, or C has it for itself.
    #[error("the name is no identifier of C, or it is taken there")]
    Name,
    /// The script and the certificate were not verified.
    #[error("the script is not certified")]
    Verify(VerifyFault),
    /// This part of the script has no room in a table.
    #[error("a part of the script does not fit a table")]
    Wide(Part),
    /// Memory was refused.
    #[error("out of memory")]
    Memory,
}

impl From<AllocError> for EmitFault {
    ghost use Rattle.std.specs.Prelude.{◌≡◌};

    ghost from_gives = { λ _ fault. fault ≡ Memory };

    fn from(_refused: AllocError) -> EmitFault {
        EmitFault::Memory
    }
}

//! Why a register is not read.

use thiserror::Error;

/// Why a register is not read. Of several faults the first in this order is answered.
#[derive(Clone, Copy, Debug, PartialEq, Eq, Error)]
pub enum RegisterFault {
    /// CSD_STRUCTURE is above 1, on an SD card. On an e.MMC device it is not tested.
    #[error("the CSD has an unknown structure")]
    Structure,
    /// READ_BL_LEN is outside 9 to 11, in a register whose capacity it enters.
    #[error("the CSD has another block length than 512, 1,024 or 2,048 bytes")]
    BlockLength,
}

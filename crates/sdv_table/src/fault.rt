//! Why a graph has no table, and why words are none.

ghost use Rattle.sdv_table.specs.declared.fault.TableFault.TheVariants.{Memory};

use std::alloc::{AllocError, AllocFailed};
use thiserror::Error;

/// A part of a graph that has no room in a table.
#[derive(Clone, Copy, Debug, PartialEq, Eq)]
pub enum Part {
    /// There are more than 8 number variables.
    Numbers,
    /// There are more than 4 flags.
    Flags,
    /// There are more than 8,191 points.
    Points,
    /// A run may have 2^64 moves or more.
    Moves,
    /// The target of the first point.
    First,
    /// The statement of the point with this number: a variable or a flag that is not declared, a target behind the last
    /// point, more than 6 guards in a case or 255 cases, a number above 2^40, a name of more than 16 bytes, or a command
    /// that its kind of card does not have.
    Point(usize),
    /// The table would have 65,536 words or more.
    Words,
}

/// Why a graph has no table.
#[derive(Clone, Copy, Debug, PartialEq, Eq, Error)]
pub enum TableFault {
    /// A part of the graph has no room.
    #[error("a part of the script does not fit a table")]
    Wide(Part),
    /// Memory was refused.
    #[error("out of memory")]
    Memory,
}

impl From<AllocError> for TableFault {
    ghost use Rattle.std.specs.Prelude.{◌≡◌};

    ghost from_gives = { λ _ fault. fault ≡ Memory };

    fn from(_refused: AllocError) -> TableFault {
        TableFault::Memory
    }
}

impl<T: Drop> From<AllocFailed<T>> for TableFault {
    ghost use Rattle.std.specs.Prelude.{◌≡◌};

    ghost from_gives = { λ _ fault. fault ≡ Memory };

    fn from(_refused: AllocFailed<T>) -> TableFault {
        TableFault::Memory
    }
}

/// Why words are no table. Of several faults the first in this order is answered, and of several points the first.
#[derive(Clone, Copy, Debug, PartialEq, Eq, Error)]
pub enum NoTable {
    /// The first word is another one.
    #[error("these words are no table")]
    Magic,
    /// The version is another one.
    #[error("the table has another version")]
    Version,
    /// The number of words is another one than the header's, or too small for the points.
    #[error("the table has another size")]
    Size,
    /// The header's kind of card is none, or it counts more than 8 number variables, 4 flags or 8,191 points.
    #[error("the header counts too much")]
    Counts,
    /// The first target is no point.
    #[error("the table begins at no point")]
    First,
    /// The row of this point is not inside the table, or what it says does not fit.
    #[error("the row of point {point} is not well formed")]
    Row {
        /// The point.
        point: usize,
    },
}

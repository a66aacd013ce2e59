//! Why a certificate is refused.

use crate::text::CertFault;
use sdv_script::ScriptFault;
use thiserror::Error;

/// Why a certificate is not closed for a graph. A point is named by its number, from 0.
#[derive(Clone, Copy, Debug, PartialEq, Eq, Error)]
pub enum CheckFault {
    /// The certificate is not of the graph's points, their loops and number variables.
    #[error("the certificate is not of the script's points")]
    Points,
    /// Point 0 has not each shape of a card before the first command, or says more of numbers than is known then.
    #[error("the certificate says more than holds at the start")]
    Start,
    /// The event is not legal at a shape of the point.
    #[error("the event of point {0} is not legal at one of its shapes")]
    Illegal(usize),
    /// The blocks of the point's command are not known to lie on the card, or are addressed in another unit.
    #[error("the address of point {0} is not known to fit the card")]
    Address(usize),
    /// The target of an edge of the point has not the shape after it.
    #[error("a shape that follows point {0} is missing at its target")]
    Shape(usize),
    /// The target of an edge of the point says more of numbers than the edge carries.
    #[error("the numbers at a target of point {0} say more than is carried there")]
    Number(usize),
    /// The bound does not fall along an edge of the point by the commands sent.
    #[error("the bound does not fall after point {0}")]
    Bound(usize),
    /// A card may be in another state than the transfer state at the `done` of the point.
    #[error("the card may not be in the transfer state at point {0}")]
    EndState(usize),
}

/// Why the texts of a script and a certificate are not accepted.
#[derive(Clone, Copy, Debug, PartialEq, Eq, Error)]
pub enum VerifyFault {
    /// The first text is no script.
    #[error("{0}")]
    Script(ScriptFault),
    /// The second text is that of no certificate within the limits.
    #[error("{0}")]
    Certificate(CertFault),
    /// The certificate is not closed for the script's graph.
    #[error("{0}")]
    Check(CheckFault),
    /// Memory ran out.
    #[error("memory ran out")]
    Memory,
}

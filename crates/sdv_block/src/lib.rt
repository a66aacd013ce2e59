//! A disk: batches of requests, served by a script that is certified before it runs.
//!
//! Begin at `specs/Disk.antt`, which says what a plain disk does, and at `specs/RequestStatements.antt`, which says
//! what a script's text asks of a card for it. `batch` writes that text, and `serve` runs it. A request of one block
//! is a single-block transfer, one of more blocks a multiple-block transfer that is stopped.
//!
//! - `batch` is Ok only with the text of `specs/BatchText.antt`: a bring-up for the kind, the refusal of a card that
//!   is too small, and the reads and writes in their order. That text is a script within the limits
//!   (`batches_are_scripts`). The faults come exactly where `specs/Batch.antt` says, unless memory is refused.
//! - `serve` does nothing, or a run of the batch's text over the port (`specs/Serves.antt`). It never returns
//!   `Verify`.
//! - The disk (`specs/ServedOver.antt`): suppose the port shows a card of the profile, in any state. In `Done` the
//!   blocks of its user area, the output and the rest of the input are those of a plain disk; in a fault the output is
//!   a beginning of that disk's. In both, and if the run stopped, no block changed that no request writes, and the
//!   boot partitions did not change. The fault `beyond` comes only where a request passes the end of the card. `Run`
//!   never comes with `Reply`.
//! - `batches_serve` says the same of every walk of the text beside a card of the profile.
#![tactic(auto)]

mod batching;
mod fault;
mod laws;
mod request;
mod running;
mod text;

pub use batching::batch;
pub use fault::BlockFault;
pub use laws::{batches_are_scripts, batches_serve};
pub use request::Request;
pub use running::serve;

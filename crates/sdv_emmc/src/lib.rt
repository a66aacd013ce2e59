//! The state table of e.MMC devices: what is legal at a shape, and what may follow.
//!
//! Begin at `EmmcTable` and `next`, a line a row. `EmmcTable` implements `CardTable` of `sdv_card` with all its laws,
//! preset counts included: `legal` is exact for every number and event. `outcomes` returns, for a legal event, exactly
//! the outcomes of the definition, each once, in at most 32 places and without memory.
#![tactic(auto)]

mod rows;
mod table;

pub use table::EmmcTable;

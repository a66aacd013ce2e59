//! The state table of SD cards: what is legal at a shape, and what may follow.
//!
//! Begin at `SdTable` and `next`, a line a row. `SdTable` implements `CardTable` of `sdv_card` with all its laws:
//! `legal` is exact for every number and event. `outcomes` returns, for a legal event, exactly the outcomes of the
//! definition, each once, in at most 32 places and without memory.
#![tactic(auto)]

mod rows;
mod table;

pub use table::SdTable;

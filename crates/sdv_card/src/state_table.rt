//! What the state tables of both kinds share: the command table, how a card takes a command, and the rules of each part.
//! A kind gives its rows (`Rows`), and `legal_by_rows` and `outcomes_by_rows` the rest. The crates of the kinds name this
//! module `laws`.
//!
//! Each function computes the definition that its contract names.

mod branches;
mod by_rows;
mod commands;
mod distinct;
mod modes;
mod phases;
mod rows;
mod rules;
mod shapes;
mod takes;

pub use by_rows::{legal_by_rows, order_legal, outcomes_by_rows};
pub use commands::order;
pub use modes::{may_stay_pending, same_width};
pub use phases::{after_phase, after_wait, give_legal, recv_legal, recv_reg_legal, wait_legal};
pub use rows::Rows;
pub use rules::{
    erase_after, erase_allows, length_allows, own_step, own_target, preset_allows, response,
    row_index, transfer_after,
};
pub use shapes::{has_width, is_shape};
pub use takes::{matches, taken_as};

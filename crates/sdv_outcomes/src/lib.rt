//! The converse of the laws that tie shapes to cards: each outcome at a shape is of a step of a card, each history of
//! shapes is that of a run of a card, and an event that is not legal at a shape is not legal at some card.
//!
//! The definitions stand in `specs/`: begin at `specs/OutcomeSteps.antt`, and then `specs/Histories.antt` and
//! `specs/Runs.antt`. The laws stand on the functions of `laws`:
//!
//! - `each_outcome_has_card`: each outcome of a legal event belongs to a step of some card of the shape.
//! - `outcomes_are_steps`: it belongs to a step of every representative card of the shape
//!   (`specs/Representative.antt`: no unshown error; SD of version 2; e.MMC with blocks in its boot partitions). The
//!   one exception: an SD card that took CMD3 unheard does not match a host that holds no address
//!   (`impossible_matches_are_no_steps`). `examples::premises_are_needed` shows that each premise is needed.
//! - `histories_have_runs`, `runs_have_histories`, `start_runs_are_histories`, `some_card_runs`: histories of shapes
//!   are the runs of representative cards and of the profile, in both directions (`specs/StartCards.antt`).
//! - `only_these_are_open`: what is seen of an answer decides every guard except `clean`, `ready` and `ocr.block`; the
//!   laws hold for any values of these three.
//! - `none_has_more`, `each_start_has_card`: no card of the profile has more blocks than `most_blocks` gives, and each
//!   kind and start shape has a representative card with that many.
//! - `each_illegal_shape_has_card`, `illegal_shapes_are_real`: where an event is not legal at a shape, some card of
//!   the shape beside a host that can make the event forbids it, also at the end of a run from a start
//!   (`specs/EachShape.antt`, `specs/IllegalShapes.antt`).
#![tactic(auto)]

pub mod examples;
mod greatest;
pub mod laws;

pub use greatest::most_blocks;

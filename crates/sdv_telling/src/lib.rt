//! Words for shapes, statements, numbers, refusals and ways, for everything that tells a person of a script.
//!
//! Begin at `put_listing`, `put_refused` and `put_way`. A refusal tells the line of `certify`, the place of the point,
//! a card and the reason; the line is that of the point's statement. The words are tested, not proved (`tests/`).
#![tactic(auto)]

mod cases;
mod guards;
mod illegality;
mod listing;
mod quoted;
mod refused;
mod shapes;
mod statements;
mod text;
mod visit;
mod way;

pub use guards::put_guards;
pub use illegality::{Illegality, Reason, put_event_illegality};
pub use listing::{put_listing, put_place};
pub use quoted::put_quoted;
pub use refused::{Beside, Why, put_reason, put_refused, refused_word};
pub use shapes::{lines_words, numbered_state_word, put_card, put_shape, state_word};
pub use statements::{put_name, put_seen, put_statement};
pub use text::{Text, pad, put, put_all, put_number, put_numbered, put_with_number};
pub use visit::Visit;
pub use way::put_way;

//! What is known at a point of a script: the shapes that a card may have there beside its host, and bounds of numbers.
//!
//! The definitions stand in `specs/`. Begin at `specs/FactsHold.antt`, which says when facts hold of a card and its
//! host. `specs/AfterLet.antt`, `specs/AfterTest.antt` and `specs/Covers.antt` say what an edge of the script's graph
//! carries, and `specs/AddressFits.antt` which addresses lie on the card. `specs/Edges.antt` lists the edges of a
//! point at a shape (`EachEdge`) and says what guards may make of what is seen, and `specs/Closed.antt` says when a
//! certificate is closed.
//!
//! - `covers`, `after_let`, `after_test` and `address_ok` compute exactly these rules, and the rules are sound: facts
//!   that hold before a step hold, carried, after it. Where `address_ok` is true, the argument that is sent is the
//!   address of the script's position in the card's unit, and the blocks from there on lie in the partition in access
//!   (`IsOnCard`).
//! - `legal_at`, `address_holds` and `ends_at` decide exactly the clauses Illegal, Address and EndState of a
//!   statement; `all_may_hold`, `one_may_fail`, `Decision::by` and `cases_of_phase` what guards and tests may do. The
//!   checker and the writer call the same functions; none of those that the checker calls takes memory.
//! - Contracts see a certificate as its version and the list of its points, each with its list of shapes
//!   (`specs/Shared.antt`), though points share sets in memory (`SetTable`, `specs/SharedSets.antt`).
//! - `laws::each_point_steps_well`: where the clauses of a point hold, every move from there, beside a card of which
//!   the point's facts hold, is as the headline asks (`specs/Stands.antt`). From there `proofs/` go to every run of a
//!   closed certificate (`StepLaws`, `RunLaws`, `Headline`). `laws::resets_let_any_card_start`: where a script begins
//!   with CMD0, the same is so beside a card in any state (`RunsWellAnywhere`, `specs/Beside.antt`).
#![tactic(auto)]

mod address;
mod certificate;
mod clause;
mod comparison;
mod cover;
mod facts;
mod gap;
mod guards;
pub mod laws;
mod numbers;
mod search;
mod set_table;
mod setting;
mod statement;
mod steps;
mod test;
mod units;
pub mod words;

pub use address::address_ok;
pub use certificate::{Certificate, MAX_BYTES, MAX_SHAPES, PointFacts, Version};
pub use clause::Clause;
pub use comparison::{after_test, numbers_after_test};
pub use cover::covers;
pub use facts::Facts;
pub use guards::{all_may_hold, one_may_fail};
pub use numbers::{Numbers, VarFacts};
pub use search::holds_shape;
pub use set_table::{SetId, SetTable};
pub use setting::{after_let, numbers_after_let};
pub use statement::{
    address_holds, addresses_on_card, cases_of_phase, ends_at, event_of_phase, legal_at,
};
pub use steps::Steps;
pub use test::{Decision, Test};

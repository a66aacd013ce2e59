//! The writer of certificates: what is known at each point of a script, how many commands are sent from there on, and
//! the text of a certificate.
//!
//! Begin at `certify`, and at `specs/Assembled.antt`, which says what it answers: what is known at each point, with
//! its bound form. `specs/Family.antt` says what passes over the points reach, `specs/Ways.antt` what is carried along
//! edges, `specs/VersionOf.antt` which version a script's certificate has, and `specs/Refusal.antt` which scripts are
//! refused. `specs/Forms.antt` defines the bounds of points, by the syntax alone, and `specs/FormsPay.antt` says that
//! they fall along each edge as a certificate's should; `bound_forms` computes them. While passes go on each point has
//! a list of its shapes, and in the certificate the name of a set (`assembling`). `facts_of_shapes` and `join_facts`
//! compute the sets and joins of `sdv_facts/specs/Joins.antt`. `write` writes exactly the text of a certificate.
//!
//! - `certify` is Ok only with the certificate of the script, which is closed by the checker's own definition and
//!   within the limits. Otherwise it returns the refusal of the definition: TooMany for too many shapes or too great a
//!   bound, else the lowest point that fails with the first of Illegal (with its least shape), Address and EndState;
//!   or Memory.
//! - Fewest shapes (`specs/Fewest.antt`): for a script without number tests, each point's set is contained in that
//!   point's set of every certificate that `check` accepts, and a refusal as Illegal or EndState means that `check`
//!   accepts none.
//! - `survey` answers from one fixpoint what is known at each point, and the refusal if there is one, also of a script
//!   without a certificate; `certify`, `explain` and the drawing take the refusal from it.
//! - `ways_of`, `join_way`, `first_fault`, `block_forms` and `point_facts` are the same steps for graphs that are no
//!   script's.
//! - `laws::surveys_carry`: what a survey says holds at the start and goes along each edge from where events are
//!   legal. The other laws say that passes reach one family and that it is kept along each target and edge.
#![tactic(auto)]

mod assembling;
mod bounds;
mod fault;
mod form;
mod joining;
mod known;
pub mod laws;
mod listed_facts;
mod outcomes;
mod parts;
mod passes;
mod refusal;
mod sets;
mod spans;
mod versions;
mod ways;
mod writing;

pub use assembling::{ScriptSurvey, certify, point_facts, survey};
pub use bounds::block_forms;
pub use fault::CertifyFault;
pub use form::Form;
pub use listed_facts::ListedFacts;
pub use outcomes::Found;
pub use passes::join_way;
pub use refusal::first_fault;
pub use sets::{facts_of_shapes, join_facts};
pub use ways::{Way, ways_of};
pub use writing::write;

//! What a certificate leaves open: a review of an accepted script.
//!
//! Begin at `find`, `find_writes` and `find_shifts`, and at `specs/Findings.antt`, `specs/Writes.antt` and
//! `specs/Input.antt`, which say what is found.
//! `specs/Meaning.antt` and `specs/CertainData.antt` say what findings, and none, mean for every run beside any card
//! of the profile; `specs/Comes.antt` when a run comes to a point.
//!
//! `specs/Statuses.antt` says what each statement makes of the status of writes and erases, `specs/Carried.antt` and
//! `specs/Asked.antt` when statuses, and the partitions that may have been asked for last, go along each edge, and
//! `specs/Weights.antt` why that comes to an end. `specs/Confirmed.antt` says when an answer confirms a write of a
//! card. `specs/Given.antt` has the most blocks that a run gives. `proofs/KeptLaws.antt` says what a status means for a
//! run, and `proofs/DataLaws.antt` follows it along a path.
//!
//! - `find` returns exactly the findings of `specs/Findings.antt`. Where one says that no run comes to a statement,
//!   none does (`NoneComes`); a test that is said to come out one way does so in every run (`TestsComeOut`); where an
//!   address has no finding of partitions, it meets in every run the partition that is told (`PartitionsAreTold`).
//! - `find_writes`: where nothing is found of partitions, writes and erases, the data is there (`CertainData`;
//!   `docs/PROVED.md`).
//! - `find_shifts`: where nothing is found at a write phase, any two runs that come there gave as many blocks of the input
//!   before (`InputsAreTold` of `specs/Input.antt`).
//! - Each write and each erase of a run is followed on its own, whatever became of those before it: at its first command it is
//!   followed also as if none had begun (`CommandCarried` of `specs/Carried.antt`).
//! - There may be less than is found: statuses are kept apart by the shapes of a point (`layout`), which have the flags of
//!   the script, and joined where paths come to one shape. A set with more than eight holds only that nothing is known,
//!   and so it is above 66,666 shapes in all. The words of a finding are tested.
#![tactic(auto)]

mod asked;
mod conditions;
mod finding;
mod finds;
mod given;
mod input;
mod kinds;
pub mod laws;
mod layout;
mod matters;
mod names;
mod partitions;
mod spreading;
mod status;
mod table;
mod visiting;
mod words;
mod writes;

pub use finding::{Finding, Matter, Name, Reach};
pub use finds::find;
pub use given::most_of_block;
pub use input::{Tally, find_shifts};
pub use kinds::kind_word;
pub use status::{Erase, ErasePart, Status};
pub use words::matter_words;
pub use writes::find_writes;

//! Cards of SD and e.MMC as data: what a card is, every step that it may make at each event of a script, and the shape
//! under which the tools see it beside a host.
//!
//! The definitions stand in `specs/`. Begin at `specs/StateTable.antt`, `specs/Card.antt` and `specs/Step.antt` for
//! cards, and at `specs/Code.antt` and `specs/Outcomes.antt` for shapes; `specs/Laws.antt` says how the two agree.
//!
//! The steps cover every capacity, every reply that the standards allow, lost commands and answers, cut phases and
//! busy times. What a host sends, hears and learns is computed exactly (`specs/CommandTable.antt`,
//! `specs/Expected.antt`, `specs/Host.antt`, `specs/Seen.antt`, `specs/Guards.antt`). `legal_by_rows` and
//! `outcomes_by_rows` compute legality and outcomes at a shape from a kind's `state_table::Rows`, each outcome once.
//!
//! The laws of `specs/Laws.antt` are proved for both kinds (`proofs/TableLaws.antt`); `SdTable` and `EmmcTable` carry
//! them. *Beside*: the card stands beside its host (`IsPair`). *Made*: the host can make the event (`Makes`).
//!
//! | Law | Claim | Premises |
//! |---|---|---|
//! | `PairsHaveShapes` | the code of a card and its host is a shape | beside |
//! | `LegalIsExact` | an event is legal at the card exactly where it is legal at the shape | beside, made |
//! | `HasStep` | the card has a step at the event | beside, legal |
//! | `HasOutcome` | the event has an outcome at the shape | legal at the shape |
//! | `StepsAreOutcomes` | each step of the card is among the outcomes of its shape | beside, made, legal |
//! | `StepsAreExpected` | what a step returns is what the host waits for | |
//! | `StepsKeepPairs` | after a step the card stands beside its host | beside, made |
//! | `StepsKeepSame` | a step changes neither size nor registers | |
//! | `StepsKeepSound` | a step keeps true what the host knows of the card | beside, made, legal |
//! | `StepsKeepOnCard` | a step keeps the blocks of a due transfer on the card | beside, legal, in bounds |
//! | `AsksAddress` | an ask addresses the blocks of its command | |
//! | `StartsHold` | at first: a start shape, true knowledge, no transfer leaves the card | profile, no command yet |
//! | `VerdictsHold` | a guard that holds (fails) of an answer may hold (fail) of what is seen of it | beside, fits |
//!
//! - `damage::damaged_is_lost` (`specs/Damage.antt`): a damaged response can be taken as a lost one. Suppose a port
//!   keeps the tables over a bus that may damage responses. Then a port that hands each damaged response on as a
//!   time-out keeps the tables. Premise: damage is recognised, so a response that is handed on undamaged is as the
//!   card sent it.
//! - `resets::resets_start_cards` (`specs/Resets.antt`): CMD0 is legal and in bounds at every card of the profile, in
//!   any state, and leads to a card before its first command, with the same registers and contents.
//! - `examples` shows that the definitions allow what they should (a bring-up of each kind, a lost answer, programming
//!   that ends by itself) and forbid what they should (a stop outside the data state, the block behind the last one, a
//!   byte address on a card with block addresses, a phase over other data lines than the card's).
#![tactic(auto)]

mod answer;
mod command;
pub mod damage;
mod event;
pub mod examples;
mod fields;
mod guard;
mod host;
mod port;
pub mod resets;
mod seen;
mod sending;
mod shape;
mod state;
pub mod state_table;
mod table;

pub use answer::{Answer, DataEnd, WaitEnd};
pub use command::{Move, Order, Response, Row, Setting, TakenAs};
pub use event::{Aim, Ask, Branch, Event, Outcome, Seen};
pub use fields::Fields;
pub use guard::Guard;
pub use port::CardPort;
pub use sdv_registers::Kind;
pub use sending::{argument, expect};
pub use shape::{START_SHAPES, Shape};
pub use state::{EraseStage, Mode, Partition, Place, State, Transfer, Width};
pub use state_table as laws;
pub use table::CardTable;

//! Hosts and cards that speak in lines of text: requests go one way, and answers come back.
//!
//! A `LinePort` is a port that writes a request for each call and reads its answer. `serve` is the other side: it
//! makes each call that is asked for, at any port. `docs/PROTOCOL.md` has the lines as a table. Begin at
//! `specs/Requests.antt` and `specs/Answers.antt`, which say what each line is, and at `specs/Streams.antt`, which
//! says what a call does to the two streams; `specs/Serving.antt` has the other side, and `specs/Partner.antt` both.
//!
//! - Each call of a `LinePort` writes exactly its request, reads exactly an answer, and returns what the answer says
//!   (`LineSteps`). An answer `damaged` is heard as a time-out. Blanks at the end of a line say nothing (`trimmed`).
//! - A port over a `Quieted` reader has no lines before the first answer (`specs/Noise.antt`): those that have not the form
//!   of an answer to any request are left out, so many at most. No answer is left out (`laws::skips_noise_alone`).
//! - The request of a command announces nothing, or the data phase that the command table has for it (`specs/Due.antt`).
//!   Whoever made the port says how many blocks CMD18 and CMD25 move, and over how many data lines; `serve` makes the same
//!   call with and without an announcement.
//! - If a stream fails, ends or brings no answer, the port keeps why, and the command that was not answered, and from
//!   then on neither reads nor writes; it answers damaged, cut or late. At a command beyond `limit_commands` it gives up
//!   in the same way, and writes nothing (`Spends`).
//! - It keeps the command that was answered last, with the answer, until `take_answered` takes it (`PortSteps`).
//! - `serve` makes one call for each request, in order. It ends well at the host's last line, or where no byte is left
//!   between two requests, and nowhere else; else it names the first request that it did not serve, by its line.
//! - `laws::shows_the_card_of_the_other_side`: if the other side makes each call once, by a port that shows a card and
//!   keeps the tables over a bus that may damage responses, and tells what it returned, a damaged response as a lost
//!   one, then the calls of the port of lines are steps of that card.
#![tactic(auto)]

mod answer;
mod ask;
mod card_side;
mod digits;
mod due;
mod fault;
mod hearing;
pub mod laws;
mod line;
mod noise;
mod port;
mod request;
mod serving;
mod words;

pub use card_side::serve;
pub use due::{Announcement, Due, Load};
pub use fault::{AskFault, Found, PortFault, ProtocolFault, ServeFault, Wanted};
pub use noise::Quieted;
pub use port::LinePort;

//! Why a text is no script, in words: the line, the token at which the parser stops, what can stand there, and a hint.
//!
//! What can stand at a place is asked of the parser itself: it is given the text before the place with each word behind it,
//! and a word can stand there if the parser goes on behind it. So there is no second grammar, and what is offered follows
//! the parser's.

mod before;
mod every;
mod hint;
mod lines;
mod offers;
mod page;
mod place;
mod tries;

pub use every::{TextFault, TextFaults, faults_of};
pub use lines::text_line;
pub use page::fault_page;

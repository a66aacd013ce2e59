//! An accepted script as a table in C.
//!
//! Begin at `emit`, at `specs/CText.antt`, which has the text that is printed, and at `specs/Reading.antt`, which has
//! the words that are read in it. `specs/Emitted.antt` says what `emit` promises.
//!
//! - `emit` is Ok only if the certificate is closed for the script. Then the text is `c_text` of the table of the
//!   script's graph, with the certificate's bound, and the bytes are those words, the lowest byte first.
//! - `text_read`, `binary_read`: what C reads in the text, and the words in the bytes, are that table. A file's name
//!   or a statement ends no comment.
//! - A name that is no identifier of C, or that C has for itself (`specs/Identifier.antt`), is refused before anything
//!   else.
#![tactic(auto)]

mod array;
mod emitting;
mod fault;
mod identifier;
mod points;
mod text;
mod words;

pub use array::Labels;
pub use emitting::{Emitted, emit};
pub use fault::EmitFault;
pub use identifier::is_identifier;

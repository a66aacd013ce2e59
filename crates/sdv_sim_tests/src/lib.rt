//! Tests of what fails beside a simulated card: a read or a write of its image, of the file below that, of the output or of
//! the trace; and memory that is refused. Also how an image over a file keeps its buffers, and the texts of faults.
//!
//! `texts` has the script, cards and traces that several tests use, `requests` the requests, `scripts` accepts a script,
//! and `shared` has what else they call. The crate has no code of its own. What the built program shows stands in the
//! folder `tests` of the repository.
#![tactic(auto)]

#[cfg(test)]
mod failing_once;
#[cfg(test)]
mod fault_texts;
#[cfg(test)]
mod file_images;
#[cfg(test)]
mod requests;
#[cfg(test)]
mod scripts;
#[cfg(test)]
mod shared;
#[cfg(test)]
mod texts;

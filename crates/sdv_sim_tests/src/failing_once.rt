//! What fails once: a read or a write of an image, of its file, of the output or of the trace, in each run whose trace
//! is known to the letter; and an allocation, in rows that the script `checks/each-allocation` runs once for each of theirs.
//! `erases` has an image of which each later call fails.

mod devices;
mod erases;
mod files;
mod memory;
mod worked;

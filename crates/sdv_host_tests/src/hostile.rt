//! Ports and wires that answer anything.
//!
//! `names` names and counts how runs end, `port` is a port that draws its answers, and `wire` a wire that does.

mod names;
mod port;
mod port_tests;
mod wire;

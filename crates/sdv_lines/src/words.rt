//! The words of the protocol: what one side writes, and the other reads. The words of a line's end are given with its line
//! feed too, for who writes them alone.

// What begins a request: of a command before its index, of a phase before the number of its blocks or bytes.
pub const COMMAND: &[u8] = b"CMD";

pub const DATA_IN: &[u8] = b"IN ";

pub const DATA_OUT: &[u8] = b"OUT ";

pub const REGISTER: &[u8] = b"REG ";

pub const WAIT: &[u8] = b"WAIT";

pub const WAIT_LINE: &[u8] = b"WAIT\n";

// What stands before the number of data lines, and between the parts of a command.
pub const LINES: &[u8] = b" lines ";

pub const BYTES: &[u8] = b" bytes lines ";

pub const SPACE: &[u8] = b" ";

// What stands before the data phase that a command announces.
pub const IN_FOLLOWS: &[u8] = b" in ";

pub const OUT_FOLLOWS: &[u8] = b" out ";

// The last line of a host.
pub const DONE: &[u8] = b"done";

pub const FAULT: &[u8] = b"fault ";

// The response that is waited for, and what is heard where none is.
pub const NOTHING: &[u8] = b"-";

pub const R1: &[u8] = b"R1";

pub const R2: &[u8] = b"R2";

pub const R3: &[u8] = b"R3";

pub const R6: &[u8] = b"R6";

pub const R7: &[u8] = b"R7";

// The response that came, before its digits.
pub const R1_CAME: &[u8] = b"R1 ";

pub const R2_CAME: &[u8] = b"R2 ";

pub const R3_CAME: &[u8] = b"R3 ";

pub const R6_CAME: &[u8] = b"R6 ";

pub const R7_CAME: &[u8] = b"R7 ";

// No response that says anything.
pub const TIMEOUT: &[u8] = b"timeout";

pub const DAMAGED: &[u8] = b"damaged";

// How a phase or a wait ended.
pub const OK: &[u8] = b"ok";

pub const OK_LINE: &[u8] = b"ok\n";

pub const CUT: &[u8] = b"cut";

pub const CUT_LINE: &[u8] = b"cut\n";

pub const LATE: &[u8] = b"late";

pub const LATE_LINE: &[u8] = b"late\n";

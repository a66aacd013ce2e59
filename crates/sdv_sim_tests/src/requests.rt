//! Requests that several tests serve, and the blocks that these write.

use sdv_block::Request;

/// A block is written twice, and read.
pub const WRITES_AND_READ: &[Request] = &[
    Request::Write { first: 3, count: 1 },
    Request::Write { first: 3, count: 1 },
    Request::Read { first: 3, count: 1 },
];

/// Two blocks are written by one command, and read by one.
pub const WRITE_AND_READ_OF_TWO: &[Request] = &[
    Request::Write { first: 3, count: 2 },
    Request::Read { first: 3, count: 2 },
];

/// Two blocks that are written.
pub static INPUT: [[u8; 512]; 2] = [[0x11; 512], [0x22; 512]];

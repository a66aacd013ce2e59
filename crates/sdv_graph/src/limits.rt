//! The limits of a script that more than one crate goes by.

/// The greatest number of a script, and of a certificate.
pub const MAX_NUMBER: u64 = 1 << 40;

/// A script has at most so many statements, so its graph has at most so many points.
pub const MAX_STATEMENTS: usize = 4096;

//! The words of a certificate's text, as it is written and read.

/// The first line of version 1.
pub const VERSION_1: &[u8] = b"sdv-cert 1\n";

/// The first line of version 2.
pub const VERSION_2: &[u8] = b"sdv-cert 2\n";

/// What stands before the number of points.
pub const POINTS: &[u8] = b"points";

/// What begins the line of a point, before its place.
pub const POINT: &[u8] = b"p";

/// What stands before the bound on commands.
pub const BOUND: &[u8] = b" b";

/// What stands before the least capacity of the card.
pub const CAPACITY: &[u8] = b" m";

/// What stands before the least capacity of a boot partition.
pub const BOOT_CAPACITY: &[u8] = b" mb";

/// What stands before the facts of a number variable.
pub const VARIABLE: &[u8] = b" v";

/// A gap, where none is known.
pub const NO_GAP: &[u8] = b" -";

/// What stands before the shapes.
pub const SHAPES: &[u8] = b" s";

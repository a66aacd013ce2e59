//! Requests.

ghost use Rattle.std.specs.Prelude.{◌≡◌, true};
ghost use Rattle.sdv_block.specs.Batch.{blocks_fit, is_in_range};
ghost use Rattle.sdv_block.specs.Disk.{end_of};

/// The most blocks of a request.
const MAX_COUNT: u64 = 65_535;

/// No card has more blocks, by the greatest number of a script's addresses.
const MAX_BLOCKS: u64 = 1 << 32;

/// What is asked of a disk. Blocks have 512 bytes, and are counted from 0.
#[derive(Clone, Copy, Debug, PartialEq, Eq)]
pub enum Request {
    /// Blocks are read.
    Read {
        /// The first of them.
        first: u64,
        /// How many there are.
        count: u64,
    },
    /// Blocks are written.
    Write {
        /// The first of them.
        first: u64,
        /// How many there are.
        count: u64,
    },
}

/// Whether a request may have these blocks.
fn blocks_fit(first: u64, count: u64) -> bool
    ensures { result ≡ blocks_fit first count }
{
    count >= 1 && count <= MAX_COUNT && first <= MAX_BLOCKS - count
}

impl Request {
    /// Whether it has a block or more, at most 65,535, and none above the greatest card.
    pub(crate) fn is_in_range(self) -> bool
        ensures { result ≡ is_in_range self }
    {
        match self {
            Request::Read { first, count } => blocks_fit(first, count),
            Request::Write { first, count } => blocks_fit(first, count),
        }
    }

    /// The block after its last one.
    #[tactic(auto, using(crate::proofs::BatchLaws::end_small))]
    pub(crate) fn end(self) -> u64
        requires { is_in_range self ≡ true }
        ensures { result ≡ end_of self }
    {
        match self {
            Request::Read { first, count } => first + count,
            Request::Write { first, count } => first + count,
        }
    }
}

//! The two kinds of card.

/// The two kinds of card, whose registers and state tables differ.
#[derive(Clone, Copy, Debug, PartialEq, Eq)]
pub enum Kind {
    /// An SD memory card.
    Sd,
    /// An e.MMC device.
    Emmc,
}

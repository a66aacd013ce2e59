//! Images, the blocks of a simulated card.

ghost use Rattle.std.specs.Prelude.{◌≡◌, ◌<◌, ◌∷◌, [], ℕ, List, Option, OnOk, OnErr};
ghost use Rattle.sdv_card.specs.Card.{Block};
ghost use Rattle.sdv_image.specs.Images.{HasFailed, Shown, OnlyAt, AreSized};

/// A block could not be read or written.
#[derive(Clone, Copy, Debug, PartialEq, Eq)]
pub struct ImageFault;

/// The blocks of a card, of 512 bytes each.
///
/// An image shows its blocks to contracts, or it claims nothing of them, as one over a file of which nobody knows who
/// else writes it. A call that answers a fault raises the count of failures, unless that stands at its greatest; a call
/// that answers none leaves it.
pub trait Image {
    /// How many blocks it has.
    ghost size: { Self → ℕ };

    /// Its blocks, or none where it claims nothing of them.
    ghost blocks: { Self → Option (List Block) };

    /// How many of its calls failed. A count of 2^64 - 1 stands for as many or more.
    ghost failed: { Self → ℕ };

    /// How many blocks it has.
    fn len(&self) -> u64
        ensures size { result ≡ size self.now }
        ensures blocks { AreSized (size self.now) (blocks self.now) };

    /// Reads a block, which is below the length. Where that fails, the buffer holds anything. No block changes.
    fn read_block(&mut self, place: u64, block: &mut [u8; 512]) -> Result<(), ImageFault>
        requires { place < size self.old }
        ensures size { size self.new ≡ size self.old }
        ensures same { blocks self.new ≡ blocks self.old }
        ensures read { OnOk result (Shown place (block.new ∷ []) (blocks self.old)) }
        ensures fault { OnErr result (HasFailed (failed self.old) (failed self.new)) }
        ensures no_fault { OnOk result (failed self.new ≡ failed self.old) };

    /// Writes a block, which is below the length. Where that fails, the block holds anything. No other block changes.
    fn write_block(&mut self, place: u64, block: &[u8; 512]) -> Result<(), ImageFault>
        requires { place < size self.old }
        ensures size { size self.new ≡ size self.old }
        ensures written { OnOk result (Shown place (block.now ∷ []) (blocks self.new)) }
        ensures others { OnlyAt place 1 (blocks self.old) (blocks self.new) }
        ensures fit { AreSized (size self.old) (blocks self.old) → AreSized (size self.new) (blocks self.new) }
        ensures fault { OnErr result (HasFailed (failed self.old) (failed self.new)) }
        ensures no_fault { OnOk result (failed self.new ≡ failed self.old) };

    /// How many of its calls failed: at 2^64 - 1 the count stays.
    fn failures(&self) -> u64
        ensures { result ≡ failed self.now };
}

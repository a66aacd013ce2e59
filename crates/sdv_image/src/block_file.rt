//! Files of blocks.

ghost use Rattle.std.specs.Prelude.{◌≡◌, ◌<◌, ◌/◌, ◌∷◌, [], ℕ, List, Option, OnOk, OnErr};
ghost use Rattle.sdv_card.specs.Card.{Block};
ghost use Rattle.sdv_image.specs.Images.{HasFailed, Shown, OnlyAt, AreSized};

use crate::image::ImageFault;

/// A file that is read and written a block of 512 bytes at a time. A place is the number of a block.
///
/// A file shows its blocks to contracts, or it claims nothing of them, as one of which nobody knows who else writes it.
/// A call that answers a fault raises the count of failures, unless that stands at its greatest; a call that answers
/// none leaves it.
pub trait BlockFile {
    /// How many bytes it has.
    ghost byte_count: { Self → ℕ };

    /// Its whole blocks, or none where it claims nothing of them.
    ghost blocks: { Self → Option (List Block) };

    /// How many of its calls failed. A count of 2^64 - 1 stands for as many or more.
    ghost failed: { Self → ℕ };

    /// How many bytes it has.
    fn bytes(&self) -> u64
        ensures count { result ≡ byte_count self.now }
        ensures blocks { AreSized (byte_count self.now / 512) (blocks self.now) };

    /// Reads a block, which is a whole one of the file. Where that fails, the buffer holds anything. No block changes.
    fn read_at(&mut self, place: u64, block: &mut [u8; 512]) -> Result<(), ImageFault>
        requires { place < byte_count self.old / 512 }
        ensures size { byte_count self.new ≡ byte_count self.old }
        ensures same { blocks self.new ≡ blocks self.old }
        ensures read { OnOk result (Shown place (block.new ∷ []) (blocks self.old)) }
        ensures fault { OnErr result (HasFailed (failed self.old) (failed self.new)) }
        ensures no_fault { OnOk result (failed self.new ≡ failed self.old) };

    /// Writes a block, which is a whole one of the file. Where that fails, the block holds anything. No other block
    /// changes.
    fn write_at(&mut self, place: u64, block: &[u8; 512]) -> Result<(), ImageFault>
        requires { place < byte_count self.old / 512 }
        ensures size { byte_count self.new ≡ byte_count self.old }
        ensures written { OnOk result (Shown place (block.now ∷ []) (blocks self.new)) }
        ensures others { OnlyAt place 1 (blocks self.old) (blocks self.new) }
        ensures fit { AreSized (byte_count self.old / 512) (blocks self.old) →
            AreSized (byte_count self.new / 512) (blocks self.new) }
        ensures fault { OnErr result (HasFailed (failed self.old) (failed self.new)) }
        ensures no_fault { OnOk result (failed self.new ≡ failed self.old) };

    /// How many of its calls failed: at 2^64 - 1 the count stays.
    fn failures(&self) -> u64
        ensures { result ≡ failed self.now };
}

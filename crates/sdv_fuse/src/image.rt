//! An image of which one call fails.

ghost use Rattle.std.specs.Prelude.{◌≡◌, ◌<◌, ◌∷◌, [], IsErr, OnOk, OnErr};
ghost use Rattle.sdv_image.specs.Images.{HasFailed, Shown, OnlyAt, AreSized};

use crate::fuse::{Call, Fuse};
use sdv_image::{Image, ImageFault};

/// An image of which one read or write fails.
#[derive(Debug, Drop)]
pub struct FuseImage<I> {
    pub image: I,
    pub fuse: Fuse,
}

impl<I: Image> Image for FuseImage<I> {
    ghost use Rattle.sdv_fuse.specs.Fuses.{IsDue, after, failed_in_all};

    ghost size = { λ f. I.size f.image };

    ghost blocks = { λ f. I.blocks f.image };

    ghost failed = { λ f. failed_in_all (I.failed f.image) f.fuse };

    fn len(&self) -> u64 {
        self.image.len()
    }

    fn read_block(&mut self, place: u64, block: &mut [u8; 512]) -> Result<(), ImageFault>
        requires { place < I.size self.old.image }
        ensures size { I.size self.new.image ≡ I.size self.old.image }
        ensures same { I.blocks self.new.image ≡ I.blocks self.old.image }
        ensures read { OnOk result (Shown place (block.new ∷ []) (I.blocks self.old.image)) }
        ensures fault { OnErr result (HasFailed
            (failed_in_all (I.failed self.old.image) self.old.fuse)
            (failed_in_all (I.failed self.new.image) self.new.fuse)) }
        ensures no_fault { OnOk result
            (failed_in_all (I.failed self.new.image) self.new.fuse
            ≡ failed_in_all (I.failed self.old.image) self.old.fuse) }
        ensures fuse { self.new.fuse ≡ after Call.Read self.old.fuse }
        ensures due { IsDue Call.Read self.old.fuse → IsErr result × (self.new.image ≡ self.old.image) }
        ensures not_due { ¬ IsDue Call.Read self.old.fuse →
            OnErr result (HasFailed (I.failed self.old.image) (I.failed self.new.image)) }
    {
        if self.fuse.blows(Call::Read) {
            return Err(ImageFault);
        }
        self.image.read_block(place, block)
    }

    fn write_block(&mut self, place: u64, block: &[u8; 512]) -> Result<(), ImageFault>
        requires { place < I.size self.old.image }
        ensures size { I.size self.new.image ≡ I.size self.old.image }
        ensures written { OnOk result (Shown place (block.now ∷ []) (I.blocks self.new.image)) }
        ensures others { OnlyAt place 1 (I.blocks self.old.image) (I.blocks self.new.image) }
        ensures fit { AreSized (I.size self.old.image) (I.blocks self.old.image) →
            AreSized (I.size self.new.image) (I.blocks self.new.image) }
        ensures fault { OnErr result (HasFailed
            (failed_in_all (I.failed self.old.image) self.old.fuse)
            (failed_in_all (I.failed self.new.image) self.new.fuse)) }
        ensures no_fault { OnOk result
            (failed_in_all (I.failed self.new.image) self.new.fuse
            ≡ failed_in_all (I.failed self.old.image) self.old.fuse) }
        ensures fuse { self.new.fuse ≡ after Call.Write self.old.fuse }
        ensures due { IsDue Call.Write self.old.fuse → IsErr result × (self.new.image ≡ self.old.image) }
        ensures not_due { ¬ IsDue Call.Write self.old.fuse →
            OnErr result (HasFailed (I.failed self.old.image) (I.failed self.new.image)) }
    {
        if self.fuse.blows(Call::Write) {
            return Err(ImageFault);
        }
        self.image.write_block(place, block)
    }

    fn failures(&self) -> u64 {
        self.image
            .failures()
            .saturating_add(u64::from(self.fuse.good.is_none()))
    }
}

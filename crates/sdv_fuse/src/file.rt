//! A file of which one call fails.

ghost use Rattle.std.specs.Prelude.{◌≡◌, ◌<◌, ◌/◌, ◌∷◌, [], IsErr, OnOk, OnErr};
ghost use Rattle.sdv_image.specs.Images.{HasFailed, Shown, OnlyAt, AreSized};

use crate::fuse::{Call, Fuse};
use sdv_image::{BlockFile, ImageFault};

/// A file of blocks of which one read or write fails.
#[derive(Debug, Drop)]
pub struct FuseFile<F> {
    pub file: F,
    pub fuse: Fuse,
}

impl<F: BlockFile> BlockFile for FuseFile<F> {
    ghost use Rattle.sdv_fuse.specs.Fuses.{IsDue, after, failed_in_all};

    ghost byte_count = { λ f. F.byte_count f.file };

    ghost blocks = { λ f. F.blocks f.file };

    ghost failed = { λ f. failed_in_all (F.failed f.file) f.fuse };

    fn bytes(&self) -> u64 {
        self.file.bytes()
    }

    fn read_at(&mut self, place: u64, block: &mut [u8; 512]) -> Result<(), ImageFault>
        requires { place < F.byte_count self.old.file / 512 }
        ensures size { F.byte_count self.new.file ≡ F.byte_count self.old.file }
        ensures same { F.blocks self.new.file ≡ F.blocks self.old.file }
        ensures read { OnOk result (Shown place (block.new ∷ []) (F.blocks self.old.file)) }
        ensures fault { OnErr result (HasFailed
            (failed_in_all (F.failed self.old.file) self.old.fuse)
            (failed_in_all (F.failed self.new.file) self.new.fuse)) }
        ensures no_fault { OnOk result
            (failed_in_all (F.failed self.new.file) self.new.fuse
            ≡ failed_in_all (F.failed self.old.file) self.old.fuse) }
        ensures fuse { self.new.fuse ≡ after Call.Read self.old.fuse }
        ensures due { IsDue Call.Read self.old.fuse → IsErr result × (self.new.file ≡ self.old.file) }
        ensures not_due { ¬ IsDue Call.Read self.old.fuse →
            OnErr result (HasFailed (F.failed self.old.file) (F.failed self.new.file)) }
    {
        if self.fuse.blows(Call::Read) {
            return Err(ImageFault);
        }
        self.file.read_at(place, block)
    }

    fn write_at(&mut self, place: u64, block: &[u8; 512]) -> Result<(), ImageFault>
        requires { place < F.byte_count self.old.file / 512 }
        ensures size { F.byte_count self.new.file ≡ F.byte_count self.old.file }
        ensures written { OnOk result (Shown place (block.now ∷ []) (F.blocks self.new.file)) }
        ensures others { OnlyAt place 1 (F.blocks self.old.file) (F.blocks self.new.file) }
        ensures fit { AreSized (F.byte_count self.old.file / 512) (F.blocks self.old.file) →
            AreSized (F.byte_count self.new.file / 512) (F.blocks self.new.file) }
        ensures fault { OnErr result (HasFailed
            (failed_in_all (F.failed self.old.file) self.old.fuse)
            (failed_in_all (F.failed self.new.file) self.new.fuse)) }
        ensures no_fault { OnOk result
            (failed_in_all (F.failed self.new.file) self.new.fuse
            ≡ failed_in_all (F.failed self.old.file) self.old.fuse) }
        ensures fuse { self.new.fuse ≡ after Call.Write self.old.fuse }
        ensures due { IsDue Call.Write self.old.fuse → IsErr result × (self.new.file ≡ self.old.file) }
        ensures not_due { ¬ IsDue Call.Write self.old.fuse →
            OnErr result (HasFailed (F.failed self.old.file) (F.failed self.new.file)) }
    {
        if self.fuse.blows(Call::Write) {
            return Err(ImageFault);
        }
        self.file.write_at(place, block)
    }

    fn failures(&self) -> u64 {
        self.file
            .failures()
            .saturating_add(u64::from(self.fuse.good.is_none()))
    }
}

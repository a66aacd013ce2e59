//! An image that is kept in a file.

ghost use Rattle.std.specs.Prelude.{◌≡◌, ◌≢◌, ◌<◌, ◌/◌, ◌%◌, ◌⊎◌, ℕ, vec_len, IsOk, OnOk, OnErr, IfOk, IfErr, MatchResult, Some, option_map, [], ◌∷◌};
ghost use Rattle.sdv_image.specs.Images.{HasFailed, Shown, OnlyAt, AreSized};
ghost use Rattle.sdv_image.specs.Buffers.{AreSound};

use crate::block_file::BlockFile;
use crate::buffer::{Buffer, Held, empty_buffers, find};
use crate::fault::SimFault;
use crate::image::{Image, ImageFault};
use crate::order::{BUFFERS, Order};
use std::alloc::Global;

/// An image over a file of blocks. It keeps 16 of them in buffers, and writes one back when its buffer is needed for
/// another: that which was used least recently.
///
/// Only [`FileImage::finish`] writes all of them back. An image that is dropped leaves the file without the changes
/// that were not written back.
pub struct FileImage<F: BlockFile> {
    file: F,
    buffers: Vec<Buffer>,
    order: Order,
    ghost count: { vec_len buffers ≡ 16 },
    ghost sound: { AreSound buffers.items (F.byte_count file / 512) (F.blocks file) },
}

impl<F: BlockFile + Drop> Drop for FileImage<F> {
    // A caller that drops an image then reuses one proved `drop`.
    fn drop(self) {
        let FileImage {
            file: _file,
            buffers: _buffers,
            order: _order,
        } = self;
    }
}

impl<F: BlockFile + Drop> FileImage<F> {
    ghost use Rattle.sdv_image.specs.FileImages.{file_of, shown_of, IsWritten};
    ghost use Rattle.sdv_image.specs.Refused.{IsRefused};

    /// An image over a file, of which no block is to be written back. Later calls take no memory.
    ///
    /// # Errors
    ///
    /// [`SimFault::ImageLength`] where the file is not whole blocks of 512 bytes, and [`SimFault::Memory`]: the first
    /// of them. The file is dropped then, its blocks unchanged.
    pub fn new(alloc: Global, file: F) -> Result<FileImage<F>, SimFault>
        ensures { MatchResult result
            (λ image. (F.byte_count file % 512 ≡ 0) × (file_of image ≡ file) × (shown_of image ≡ F.blocks file)
            × IsWritten image)
            (IsRefused (F.byte_count file)) }
    {
        if file.bytes() % 512 != 0 {
            return Err(SimFault::ImageLength);
        }
        match empty_buffers(alloc, BUFFERS) {
            Ok(buffers) => Ok(FileImage {
                file,
                buffers,
                order: Order::new(),
            }),
            Err(_) => Err(SimFault::Memory),
        }
    }
}

impl<F: BlockFile> FileImage<F> {
    ghost use Rattle.std.specs.Prelude.{slice_get, slice_set};
    ghost use Rattle.sdv_image.specs.Buffers.{buffer_at, place_of, written_back, NoMorePlaces, IsUnwritten, IsFreeFor};
    ghost use Rattle.sdv_image.specs.FileImages.{file_of, buffers_of, order_of, bytes_of, size_of, shown_of, failed_of, IsWritten, NoMoreUnwritten};
    ghost use Rattle.sdv_image.specs.Orders.{used};

    /// Writes the block of a buffer back, where it changed.
    fn write_back(&mut self, index: usize) -> Result<(), ImageFault>
        requires { index < BUFFERS }
        ensures bytes { bytes_of self.new ≡ bytes_of self.old }
        ensures shown { shown_of self.new ≡ shown_of self.old }
        ensures written { let buffers = buffers_of self.old in
            OnOk result (buffers_of self.new ≡ slice_set buffers index (written_back (buffer_at buffers index))) }
        ensures kept { OnErr result (buffers_of self.new ≡ buffers_of self.old) }
        ensures unchanged { ((place : ℕ) → (buffer_at (buffers_of self.old) index).held ≢ Held.Changed place) →
            IsOk result × (file_of self.new ≡ file_of self.old) }
        ensures fault { OnErr result (HasFailed (failed_of self.old) (failed_of self.new)) }
        ensures no_fault { OnOk result (failed_of self.new ≡ failed_of self.old) }
    {
        let buffer = &mut self.buffers[index];
        if let Held::Changed(place) = buffer.held {
            self.file.write_at(place, &buffer.block)?;
            buffer.held = Held::Unchanged(place);
        }
        Ok(())
    }

    /// Writes the blocks of all buffers back, up to the first that fails.
    fn write_all_back(&mut self) -> Result<(), ImageFault>
        ensures bytes { bytes_of self.new ≡ bytes_of self.old }
        ensures shown { shown_of self.new ≡ shown_of self.old }
        ensures written { OnOk result (F.blocks (file_of self.new) ≡ shown_of self.old) }
        ensures unchanged { IsWritten self.old → IsOk result × (file_of self.new ≡ file_of self.old) }
        ensures unwritten { NoMoreUnwritten self.old self.new }
        ensures fault { OnErr result (HasFailed (failed_of self.old) (failed_of self.new)) }
        ensures no_fault { OnOk result (failed_of self.new ≡ failed_of self.old) }
    {
        for index in 0..BUFFERS {
            self.write_back(index)?;
        }
        Ok(())
    }

    /// Writes all changed blocks back, and gives the file. Where no block changed, that is the file as it is.
    ///
    /// # Errors
    ///
    /// The image with the fault, where a block could not be written back. It shows the blocks that it showed.
    pub fn finish(self) -> Result<F, (Self, ImageFault)>
        ensures bytes { MatchResult result
            (λ file. F.byte_count file ≡ bytes_of self)
            (λ refused. bytes_of refused.0 ≡ bytes_of self) }
        ensures shown { MatchResult result
            (λ file. F.blocks file ≡ shown_of self)
            (λ refused. shown_of refused.0 ≡ shown_of self) }
        ensures unchanged { IsWritten self → result ≡ Ok (file_of self) }
        ensures unwritten { IfErr result (λ refused. NoMoreUnwritten self refused.0) }
        ensures fault { IfErr result (λ refused. HasFailed (failed_of self) (failed_of refused.0)) }
        ensures no_fault { IfOk result (λ file. F.failed file ≡ failed_of self) }
    {
        let mut image = self;
        match image.write_all_back() {
            Ok(()) => Ok(image.into_file()),
            Err(fault) => Err((image, fault)),
        }
    }

    // The file, without what was not written back.
    fn into_file(self) -> F
        ensures { result ≡ file_of self }
    {
        let FileImage {
            file,
            buffers: _buffers,
            order: _order,
        } = self;
        file
    }

    /// Gives up the buffer that was used least recently, and says which.
    fn make_room(&mut self) -> Result<usize, ImageFault>
        ensures bytes { bytes_of self.new ≡ bytes_of self.old }
        ensures shown { shown_of self.new ≡ shown_of self.old }
        ensures index { IfOk result (λ index. index < BUFFERS) }
        ensures least_recent { IfOk result (λ index. slice_get (order_of self.old) 0 ≡ Some index) }
        ensures empty { IfOk result (λ index. (buffer_at (buffers_of self.new) index).held ≡ Held.Nothing) }
        ensures places { NoMorePlaces (buffers_of self.old) (buffers_of self.new) }
        ensures unwritten { NoMoreUnwritten self.old self.new }
        ensures fault { OnErr result (HasFailed (failed_of self.old) (failed_of self.new)) }
        ensures no_fault { OnOk result (failed_of self.new ≡ failed_of self.old) }
    {
        let index = self.order.least_recent();
        self.write_back(index)?;
        self.buffers[index].held = Held::Nothing;
        Ok(index)
    }

    /// The buffer that has the block at a place, or one that is given up for it.
    fn buffer_for(&mut self, place: u64) -> Result<usize, ImageFault>
        ensures bytes { bytes_of self.new ≡ bytes_of self.old }
        ensures shown { shown_of self.new ≡ shown_of self.old }
        ensures index { IfOk result (λ index. index < BUFFERS) }
        ensures free { IfOk result (λ index. IsFreeFor (buffers_of self.new) index place) }
        ensures unwritten { NoMoreUnwritten self.old self.new }
        ensures fault { OnErr result (HasFailed (failed_of self.old) (failed_of self.new)) }
        ensures no_fault { OnOk result (failed_of self.new ≡ failed_of self.old) }
    {
        match find(&self.buffers, place) {
            Some(index) => Ok(index),
            None => self.make_room(),
        }
    }

    /// A buffer gets the block at a place.
    fn hold(&mut self, index: usize, held: Held, block: &[u8; 512])
        requires index { index < BUFFERS }
        requires free { (place : ℕ) → place_of held ≡ Some place → IsFreeFor (buffers_of self.old) index place }
        requires within { (place : ℕ) → place_of held ≡ Some place → place < size_of self.old }
        requires same { (place : ℕ) → held ≡ Held.Unchanged place →
            Shown place (block.now ∷ []) (F.blocks (file_of self.old)) }
        ensures bytes { bytes_of self.new ≡ bytes_of self.old }
        ensures shown { (place : ℕ) → place_of held ≡ Some place →
            shown_of self.new ≡ option_map (λ blocks. slice_set blocks place block.now) (shown_of self.old) }
        ensures used { order_of self.new ≡ used (order_of self.old) index }
        ensures unwritten { (place : ℕ) → IsUnwritten (buffers_of self.new) place →
            (held ≡ Held.Changed place) ⊎ IsUnwritten (buffers_of self.old) place }
        ensures failed { failed_of self.new ≡ failed_of self.old }
    {
        let buffer = &mut self.buffers[index];
        buffer.held = held;
        buffer.block = *block;
        self.order.touch(index);
    }
}

impl<F: BlockFile> Image for FileImage<F> {
    ghost use Rattle.sdv_image.specs.FileImages.{size_of, shown_of, failed_of, NoMoreUnwritten, OneMoreUnwritten};

    ghost size = { size_of };

    ghost blocks = { shown_of };

    ghost failed = { failed_of };

    fn len(&self) -> u64 {
        self.file.bytes() / 512
    }

    // A read asks for no write but that of the block whose buffer it takes.
    fn read_block(&mut self, place: u64, block: &mut [u8; 512]) -> Result<(), ImageFault>
        requires { place < size_of self.old }
        ensures size { size_of self.new ≡ size_of self.old }
        ensures same { shown_of self.new ≡ shown_of self.old }
        ensures read { OnOk result (Shown place (block.new ∷ []) (shown_of self.old)) }
        ensures unwritten { NoMoreUnwritten self.old self.new }
        ensures fault { OnErr result (HasFailed (failed_of self.old) (failed_of self.new)) }
        ensures no_fault { OnOk result (failed_of self.new ≡ failed_of self.old) }
    {
        match find(&self.buffers, place) {
            Some(index) => {
                *block = self.buffers[index].block;
                self.order.touch(index);
            }
            None => {
                let index = self.make_room()?;
                self.file.read_at(place, block)?;
                self.hold(index, Held::Unchanged(place), block);
            }
        }
        Ok(())
    }

    // Where it fails, no block changes.
    fn write_block(&mut self, place: u64, block: &[u8; 512]) -> Result<(), ImageFault>
        requires { place < size_of self.old }
        ensures size { size_of self.new ≡ size_of self.old }
        ensures written { OnOk result (Shown place (block.now ∷ []) (shown_of self.new)) }
        ensures kept { OnErr result (shown_of self.new ≡ shown_of self.old) }
        ensures others { OnlyAt place 1 (shown_of self.old) (shown_of self.new) }
        ensures fit { AreSized (size_of self.old) (shown_of self.old)
            → AreSized (size_of self.new) (shown_of self.new) }
        ensures unwritten { OneMoreUnwritten place self.old self.new }
        ensures fault { OnErr result (HasFailed (failed_of self.old) (failed_of self.new)) }
        ensures no_fault { OnOk result (failed_of self.new ≡ failed_of self.old) }
    {
        let index = self.buffer_for(place)?;
        self.hold(index, Held::Changed(place), block);
        Ok(())
    }

    fn failures(&self) -> u64 {
        self.file.failures()
    }
}

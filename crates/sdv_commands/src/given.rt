//! What a run is given: the texts and bytes of its files.
ghost use Rattle.std.specs.Prelude.{◌≡◌, ◌⊎◌, ℕ, IfErr, IfOk, MatchOption, option_map};
ghost use Rattle.sdv_program.specs.Requests.{names_of};
ghost use Rattle.sdv_commands.specs.Run.{AreGiven, CannotBeUsed, GivesImage, GivesInput, GivesNoInput, GivesSchedule, as_image};
ghost use Rattle.sdv_commands.specs.Run.{IsImageFile, IsNew, IsOptional, IsUnread};
ghost use Rattle.sdv_commands.specs.Run.{code_of, new_image, schedule_codes, uses_of};
ghost use Rattle.sdv_commands.specs.RunImages.{IsOfName, image_given};

use crate::new_image::NewImage;
use sdv_program::{Fault, RunFiles, Store, bytes_in, text_in};
use sdv_text::number_of;
use std::alloc::{AllocError, Global};

/// The texts and bytes that a run is given, but for the image.
pub struct Given {
    pub script: String,
    pub certificate: String,
    /// The description of the card.
    pub card: String,
    /// The values of the schedule, one for each event.
    pub codes: Vec<u8>,
    /// The blocks that the script gives, one after another.
    pub input: Vec<u8>,
}

impl Drop for Given {
    // A caller that drops what a run is given then reuses one proved `drop`.
    fn drop(self) {
        let Given {
            script: _script,
            certificate: _certificate,
            card: _card,
            codes: _codes,
            input: _input,
        } = self;
    }
}

/// The image that a run is given.
#[derive(Drop)]
pub enum GivenImage<I> {
    /// A new one.
    New(NewImage),
    /// That of a file, which was opened.
    File(I),
}

/// Reads the files of a run, in the order of their names, and opens that of the image, which is given beside the rest.
///
/// # Errors
///
/// [`Fault::File`]: the file cannot be used; all before it could. [`Fault::Memory`]: memory was refused.
pub fn given_by<'a, S: Store>(
    alloc: Global,
    files: &S,
    names: &RunFiles<'a>,
) -> Result<(Given, GivenImage<S::Image>), Fault<'a>>
    ensures given { IfOk result (λ read. AreGiven (S.known files.now) (names_of names.now)
        read.0 (image_given S.Image.byte_count S.Image.blocks read.1)) }
    ensures image { IfOk result (λ read. IsOfName S.Image.failed (S.known files.now)
        names.now.image.now read.1) }
    ensures refused { IfErr result (IsUnread (S.known files.now) (uses_of (names_of names.now))) }
{
    let script = text_in(alloc, files, names.script)?;
    let certificate = text_in(alloc, files, names.certificate)?;
    let card = text_in(alloc, files, names.card)?;
    let image = image_in(alloc, files, names.image)?;
    let codes = codes_in(alloc, files, names.schedule)?;
    let input = input_in(alloc, files, names.input)?;
    let given = Given {
        script,
        certificate,
        card,
        codes,
        input,
    };
    Ok((given, image))
}

/// The image of a file, or zeros where the name asks for a new one.
pub fn image_in<'a, S: Store>(
    alloc: Global,
    files: &S,
    name: &'a str,
) -> Result<GivenImage<S::Image>, Fault<'a>>
    ensures given { IfOk result (λ image. GivesImage (S.known files.now) name.entry.now
        (image_given S.Image.byte_count S.Image.blocks image)) }
    ensures image { IfOk result
        (IsOfName S.Image.failed (S.known files.now) name.entry.now) }
    ensures refused { IfErr result
        (λ fault. (fault ≡ Fault.File name.entry) ⊎ (fault ≡ Fault.Memory)) }
    ensures unusable { IfErr result (λ fault. fault ≡ Fault.File name.entry
        → CannotBeUsed (S.known files.now) (as_image name.entry.now)) }
{
    match new_blocks(name) {
        Some(blocks) => Ok(GivenImage::New(NewImage::of_zeros(alloc, blocks)?)),
        None => {
            let file = files.open_image(name).ok_or(Fault::File(name))?;
            Ok(GivenImage::File(file))
        }
    }
}

/// The file of an image; a new one has none.
pub fn image_file(name: &str) -> Option<&str>
    ensures { IsImageFile name.entry.now (option_map (λ file. file.now) result) }
{
    match new_blocks(name) {
        Some(_) => None,
        None => Some(name),
    }
}

/// How many blocks a new image is to have, where a name asks for one.
pub fn new_blocks(name: &str) -> Option<u32>
    ensures { MatchOption result ((blocks : ℕ) → ¬ IsNew name.now blocks) (IsNew name.now) }
{
    number_of(name.strip_prefix("new:")?)
}

/// The values of a schedule; without one there are none.
pub fn codes_in<'a, S: Store>(
    alloc: Global,
    files: &S,
    name: Option<&'a str>,
) -> Result<Vec<u8>, Fault<'a>>
    ensures given { IfOk result (λ codes. GivesSchedule (S.known files.now)
        (option_map (λ file. file.now) name.entry) codes.items) }
    ensures refused { IfErr result (IsOptional (S.known files.now).unread name.entry) }
{
    match name {
        None => Ok(Vec::new(alloc)),
        Some(file) => {
            let bytes = bytes_in(alloc, files, file)?;
            Ok(codes_of(alloc, bytes.as_slice())?)
        }
    }
}

/// The values that the bytes of a schedule write: a digit from 0 to 7 is a value, a space and an end of a line are none,
/// and any other byte is 255, which is no value of a card (`laws::digits_alone_are_values`).
pub fn codes_of(alloc: Global, bytes: &[u8]) -> Result<Vec<u8>, AllocError>
    ensures { IfOk result (λ codes. codes.items ≡ schedule_codes bytes.now) }
{
    let mut codes = Vec::new(alloc);
    for byte in bytes {
        match *byte {
            b' ' | b'\r' | b'\n' => {}
            digit => codes.push(code_of(digit))?,
        }
    }
    Ok(codes)
}

fn code_of(byte: u8) -> u8
    ensures { result ≡ code_of byte }
{
    match byte {
        b'0'..=b'7' => byte - b'0',
        _ => 255,
    }
}

/// The bytes of the blocks that the script gives; without a file there are none.
pub fn input_in<'a, S: Store>(
    alloc: Global,
    files: &S,
    name: Option<&'a str>,
) -> Result<Vec<u8>, Fault<'a>>
    ensures given { IfOk result (λ bytes. GivesInput (S.known files.now)
        (option_map (λ file. file.now) name.entry) bytes.items) }
    ensures refused { IfErr result (IsOptional (GivesNoInput (S.known files.now)) name.entry) }
{
    let Some(file) = name else {
        return Ok(Vec::new(alloc));
    };
    let bytes = bytes_in(alloc, files, file)?;
    if bytes.len() % 512 != 0 {
        return Err(Fault::File(file));
    }
    Ok(bytes)
}

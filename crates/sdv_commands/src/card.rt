//! `card CARD IMAGE [SCHEDULE]`: a simulated card that answers lines.

ghost use Rattle.std.specs.Prelude.{◌≡◌, ◌⊎◌, OnOk, IfErr, IfOk, option_map};
ghost use Rattle.sdv_program.specs.Requests.{card_names_of};
ghost use Rattle.sdv_image.specs.FileImages.{shown_of};
ghost use Rattle.sdv_program.specs.Files.{image_of};
ghost use Rattle.sdv_commands.specs.Run.{IsUnread};
ghost use Rattle.sdv_commands.specs.RunImages.{IsOfName, MayHaveFailed, image_given};
ghost use Rattle.sdv_commands.specs.CardSide.{AreGiven, CardFails, EndsCard, FailsToKeep, IsKept, IsServed, RefusesCard, uses_of};

use crate::given::{GivenImage, codes_in, image_in};
use crate::named::Named;
use crate::run::{card_over, close_image};
use sdv_image::{BlockFile, FileImage};
use sdv_lines::{ServeFault, serve};
use sdv_program::{CardFiles, Fault, Store, text_in};
use std::alloc::Global;
use std::io::{Read, Write};

/// As many blocks as a command of a script announces at most. A request for more is none.
const ROOM: usize = 65_535;

/// What a card that answers lines is given, but for the image.
#[derive(Drop)]
pub struct Given {
    /// The description of the card.
    pub card: String,
    /// The values of the schedule, one for each event.
    pub codes: Vec<u8>,
}

/// How a card came out.
#[derive(Drop)]
pub struct Outcome<F: BlockFile> {
    pub end: Result<(), ServeFault>,
    /// The card's blocks after the last request. Those that changed are not all written back.
    pub image: FileImage<F>,
}

/// Answers requests by the simulated card of a description over an image, until the host's last line, or until its lines
/// end between two requests. The file of the image has all of the card's blocks after that, whatever the end; those of a
/// new image are dropped.
///
/// # Errors
///
/// - [`Fault::File`]: a file cannot be used, and each one before it was; then no request was read. Or the file of the image
///   did not take all that it had to.
/// - [`Fault::Card`]: there is no card by the description, over the image, with the schedule. No request was read.
/// - [`Fault::Memory`]: memory was refused. No request was read.
/// - [`Fault::Request`]: a request was not answered, by the number of its first line. All before it were.
pub fn serve_card<'a, S: Store, R: Read, W: Write>(
    alloc: Global,
    files: &S,
    names: CardFiles<'a>,
    reader: &mut R,
    writer: &mut W,
) -> Result<(), Fault<'a>>
    ensures done { OnOk result (EndsCard (S.known files.now) (card_names_of names.entry)
        (R.remaining reader.old) (R.remaining reader.new) (W.contents writer.old) (W.contents writer.new)) }
    ensures fails { IfErr result (λ fault. CardFails (S.known files.now) (card_names_of names.entry) fault
        (R.remaining reader.old) (R.remaining reader.new) (W.contents writer.old) (W.contents writer.new)) }
{
    let (given, image) = given_by(alloc, files, &names)?;
    let named = Named {
        alloc,
        files,
        names: &names,
    };
    match serve_kept(named, &given, image, reader, writer)? {
        Ok(()) => Ok(()),
        Err(fault) => Err(Fault::Request(fault)),
    }
}

/// Reads the files of a card, in the order of their names, and opens that of the image.
fn given_by<'a, S: Store>(
    alloc: Global,
    files: &S,
    names: &CardFiles<'a>,
) -> Result<(Given, GivenImage<S::Image>), Fault<'a>>
    ensures given { IfOk result (λ read. AreGiven (S.known files.now) (card_names_of names.now)
        read.0 (image_given S.Image.byte_count S.Image.blocks read.1)) }
    ensures image { IfOk result (λ read. IsOfName S.Image.failed (S.known files.now)
        names.now.image.now read.1) }
    ensures refused { IfErr result (IsUnread (S.known files.now) (uses_of (card_names_of names.now))) }
{
    let card = text_in(alloc, files, names.card)?;
    let image = image_in(alloc, files, names.image)?;
    let codes = codes_in(alloc, files, names.schedule)?;
    Ok((Given { card, codes }, image))
}

/// Answers requests by what was given, and then writes back what the file of the image has not got yet.
fn serve_kept<'a, S: Store, R: Read, W: Write>(
    named: Named<'_, S, CardFiles<'a>>,
    given: &Given,
    image: GivenImage<S::Image>,
    reader: &mut R,
    writer: &mut W,
) -> Result<Result<(), ServeFault>, Fault<'a>>
    requires { IsOfName S.Image.failed (S.known named.files.now) named.names.now.image.now image }
    ensures kept { IfOk result (λ end. IsKept (S.known named.entry.files.now)
        (card_names_of named.entry.names.now) given.now (image_given S.Image.byte_count S.Image.blocks image) end
        (R.remaining reader.old) (R.remaining reader.new) (W.contents writer.old) (W.contents writer.new)) }
    ensures fails { IfErr result (λ fault. FailsToKeep (S.known named.entry.files.now)
        (card_names_of named.entry.names.now) given.now (image_given S.Image.byte_count S.Image.blocks image) fault
        (R.remaining reader.old) (R.remaining reader.new) (W.contents writer.old) (W.contents writer.new)) }
{
    match image {
        GivenImage::New(image) => {
            let outcome = serve_given(named.alloc, given, image, reader, writer)?;
            Ok(outcome.end)
        }
        GivenImage::File(file) => {
            let Outcome { end, image } = serve_given(named.alloc, given, file, reader, writer)?;
            close_image(named.files, named.names.image, image)?;
            Ok(end)
        }
    }
}

/// Answers requests by the simulated card of a description over the image of a file. The image that is given back has to be
/// finished.
///
/// # Errors
///
/// [`Fault::Card`], [`Fault::Memory`]: there is no card. No request was read then, and the file was dropped, its blocks
/// unchanged.
fn serve_given<F: BlockFile + Drop, R: Read, W: Write>(
    alloc: Global,
    given: &Given,
    file: F,
    reader: &mut R,
    writer: &mut W,
) -> Result<Outcome<F>, Fault<'static>>
    ensures served { IfOk result (λ outcome. IsServed given.now (image_of (F.byte_count file) (F.blocks file))
        (shown_of outcome.image) outcome.end
        (R.remaining reader.old) (R.remaining reader.new) (W.contents writer.old) (W.contents writer.new)) }
    ensures refused { IfErr result
        (RefusesCard given.now (image_of (F.byte_count file) (F.blocks file)) (MayHaveFailed F.failed file)) }
    ensures unread { IfErr result (λ _. R.remaining reader.new ≡ R.remaining reader.old) }
    ensures quiet { IfErr result (λ _. W.contents writer.new ≡ W.contents writer.old) }
{
    let mut port = card_over(alloc, given.card.as_str(), file, given.codes.as_slice())?;
    let mut room = vec![in alloc; [0; 512]; ROOM]?;
    let end = serve(&mut port, reader, writer, room.as_mut_slice());
    let image = port.into_wire().into_image();
    Ok(Outcome { end, image })
}

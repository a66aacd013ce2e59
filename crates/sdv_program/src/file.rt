//! Files by their names: their texts and bytes, what is written to them, and images that they hold.
ghost use Rattle.std.specs.Prelude.{◌≡◌, ◌≤◌, ◌⊎◌, codes, length, not, List, ℕ, Err, IfErr, IfOk, IfSome, None, string_bytes, false, true};
ghost use Rattle.std.specs.Io.KnownBytes.{Appends};
ghost use Rattle.sdv_program.specs.Files.{Files as KnownFiles, GivesNoText, SomeCallFailed, image_of};

use crate::fault::Fault;
use crate::seek_file::SeekFile;
use crate::source::Source;
use sdv_image::BlockFile;
use std::alloc::{AllocError, Global};
use std::fs::{self, Metadata, OpenOptions};
use std::io::{self, ErrorKind, Read, Write};
use std::os::unix::fs::{FileTypeExt, MetadataExt};
use std::path::Path;
use std::rt::Files;

/// Files that are known by their names.
pub trait Store {
    /// What takes the bytes of a file that was made or emptied.
    type Sink: Write + Drop;

    /// A file that is read and written block by block.
    type Image: BlockFile + Drop;

    /// What gives the bytes of a file one after another.
    type Source: Read + Drop;

    /// What is known of its files, by their names.
    ghost known: { Self → KnownFiles };

    /// The file of this name was made or emptied, and its bytes go here.
    ghost opened: { Self → List ℕ → Self.Sink → Type 0 };

    /// The two names are of one file.
    fn is_same(&self, a: &str, b: &str) -> bool
        ensures same { result ≡ true → (known self.now).same a.now b.now }
        ensures apart { result ≡ false → (known self.now).apart a.now b.now };

    /// The bytes of a file. None where the file cannot be opened or read, or does not end.
    fn bytes_of(&self, alloc: Global, file: &str) -> Result<Option<Vec<u8>>, AllocError>
        ensures given { IfOk result
            (λ found. IfSome found (λ bytes. (known self.now).gives file.now bytes.items)) }
        ensures unread { IfOk result (λ found. found ≡ None → (known self.now).unread file.now) };

    /// Opens a file whose bytes are used while it is read. None where that cannot be done.
    fn open(&self, file: &str) -> Option<Self::Source>
        ensures given { IfSome result (λ source.
            IfSome (Self.Source.remaining source) (λ bytes. (known self.now).gives file.now bytes)) }
        ensures streamed { IfSome result
            (λ source. (known self.now).streamed file.now (Self.Source.remaining source)) }
        ensures unread { result ≡ None → (known self.now).unread file.now };

    /// Ends the reading of a file. False where a read failed.
    fn close(&self, file: &str, source: Self::Source) -> bool
        ensures read { result ≡ true → (known self.now).read_well file.now }
        ensures unread { result ≡ false → (known self.now).unread file.now };

    /// Opens a file whose blocks are read and written. None where that cannot be done.
    fn open_image(&self, file: &str) -> Option<Self::Image>
        ensures opened { IfSome result (λ image. (known self.now).images.opened file.now
            (image_of (Self.Image.byte_count image) (Self.Image.blocks image))) }
        ensures unopened { result ≡ None → (known self.now).images.unopened file.now }
        ensures failed { IfSome result
            (λ _. SomeCallFailed Self.Image.failed → (known self.now).images.failed file.now) };

    /// Closes a file after its blocks were read and written. False where it did not take all that was written.
    fn close_image(&self, file: &str, image: Self::Image) -> bool
        ensures closed { result ≡ true → (known self.now).images.closed file.now (Self.Image.blocks image) }
        ensures unclosed { result ≡ false → (known self.now).images.unclosed file.now };

    /// Makes a file, or empties it. None where that cannot be done.
    fn create(&self, file: &str) -> Option<Self::Sink>
        ensures made { IfSome result (opened self.now file.now) }
        ensures uncreated { result ≡ None → (known self.now).uncreated file.now };

    /// Ends what was written to a file. False where not all of it was taken.
    fn finish(&self, file: &str, sink: Self::Sink) -> bool
        ensures received { result ≡ true → (made : Self.Sink) (bytes : List ℕ) → opened self.now file.now made
            → Appends (Self.Sink.contents made) (Self.Sink.contents sink) bytes
            → (known self.now).received file.now bytes }
        ensures unfinished { result ≡ false → (known self.now).unfinished file.now };
}

/// The bytes of a file.
///
/// # Errors
///
/// [`Fault::File`]: it cannot be used. [`Fault::Memory`]: memory was refused.
pub fn bytes_in<'a, S: Store>(alloc: Global, files: &S, file: &'a str) -> Result<Vec<u8>, Fault<'a>>
    ensures given { IfOk result (λ bytes. (S.known files.now).gives file.entry.now bytes.items) }
    ensures refused { IfErr result
        (λ fault. (fault ≡ Fault.File file.entry) ⊎ (fault ≡ Fault.Memory)) }
    ensures unread { IfErr result
        (λ fault. fault ≡ Fault.File file.entry → (S.known files.now).unread file.entry.now) }
{
    files.bytes_of(alloc, file)?.ok_or(Fault::File(file))
}

/// The text of a file.
///
/// # Errors
///
/// [`Fault::File`]: it cannot be used, or is not UTF-8. [`Fault::Memory`]: memory was refused.
pub fn text_in<'a, S: Store>(alloc: Global, files: &S, file: &'a str) -> Result<String, Fault<'a>>
    ensures given { IfOk result (λ text. (S.known files.now).gives file.entry.now (string_bytes text)) }
    ensures refused { IfErr result
        (λ fault. (fault ≡ Fault.File file.entry) ⊎ (fault ≡ Fault.Memory)) }
    ensures no_text { IfErr result
        (λ fault. fault ≡ Fault.File file.entry → GivesNoText (S.known files.now) file.entry.now) }
{
    let bytes = bytes_in(alloc, files, file)?;
    String::from_utf8(bytes).map_err(|_| Fault::File(file))
}

/// The file of standard input.
const STANDARD_INPUT: &str = "/dev/stdin";

/// The file of this name, where it is read.
fn path_of(file: &str) -> &str {
    if file == "-" { STANDARD_INPUT } else { file }
}

/// The files of a machine. Nothing is claimed of them. The name `-` stands for standard input where a file is read, and
/// for no file where one is written.
#[derive(Clone, Copy)]
pub struct MachineFiles<'a, R: Files>(pub &'a R);

impl<'a, R: Files> Store for MachineFiles<'a, R> {
    type Sink = R::File;

    type Image = SeekFile<R::File>;

    type Source = Source<R::File>;

    ghost use Rattle.sdv_program.specs.Files.{any_files, any_images, any_sink};
    ghost use Rattle.sdv_program.specs.declared.seek_file.SeekFile.{SeekFile};

    ghost known = { λ _. any_files };

    ghost opened = { λ _. any_sink };

    // By what the file system says of them; of files that are yet to be made, by their folders and names. A pipe or a
    // terminal loses nothing by being written.
    fn is_same(&self, a: &str, b: &str) -> bool {
        let (a, b) = (path_of(a), path_of(b));
        match (fs::metadata(self.0, a), fs::metadata(self.0, b)) {
            (Ok(a), Ok(b)) => keeps_bytes(&a) && is_same_node(&a, &b),
            (Err(_), Err(_)) => a == b || is_same_entry(self.0, Path::new(a), Path::new(b)),
            _ => false,
        }
    }

    fn bytes_of(&self, alloc: Global, file: &str) -> Result<Option<Vec<u8>>, AllocError> {
        match fs::open(self.0, path_of(file)) {
            Ok(mut file) => bytes_within(alloc, LIMIT, &mut file),
            Err(_) => Ok(None),
        }
    }

    fn open(&self, file: &str) -> Option<Source<R::File>> {
        match fs::open(self.0, path_of(file)) {
            Ok(file) => Some(Source::new(file)),
            Err(_) => None,
        }
    }

    fn close(&self, _file: &str, source: Source<R::File>) -> bool
        ensures { result ≡ not source.failed }
    {
        !source.has_failed()
    }

    // Beside the name, the clauses repeat those of the trait; those of `create` too.
    fn open_image(&self, file: &str) -> Option<SeekFile<R::File>>
        ensures opened { IfSome result (λ image. any_images.opened file.now (image_of image.bytes None)) }
        ensures failed { IfSome result
            (λ _. SomeCallFailed (λ (image : SeekFile R.File). image.failures) → any_images.failed file.now) }
        ensures unnamed { file.now ≡ codes "-" → result ≡ None }
    {
        if file == "-" {
            return None;
        }
        let file = OpenOptions::new().read(true).write(true).open(self.0, file);
        SeekFile::new(file.ok()?).ok()
    }

    fn close_image(&self, _file: &str, image: SeekFile<R::File>) -> bool {
        image.close().is_ok()
    }

    fn create(&self, file: &str) -> Option<R::File>
        ensures made { IfSome result (any_sink file.now) }
        ensures unnamed { file.now ≡ codes "-" → result ≡ None }
    {
        if file == "-" {
            return None;
        }
        fs::create(self.0, file).ok()
    }

    fn finish(&self, _file: &str, mut sink: R::File) -> bool {
        sink.flush().is_ok()
    }
}

/// What two paths lead to is one file or folder.
fn is_same_node(a: &Metadata, b: &Metadata) -> bool {
    a.dev() == b.dev() && a.ino() == b.ino()
}

/// Two paths are of the same name in the same folder.
fn is_same_entry(files: &impl Files, a: Path<'_>, b: Path<'_>) -> bool {
    match (folder_of(files, a), folder_of(files, b)) {
        (Ok(in_a), Ok(in_b)) => a.file_name() == b.file_name() && is_same_node(&in_a, &in_b),
        _ => false,
    }
}

/// The folder in which a file is made.
fn folder_of(files: &impl Files, file: Path<'_>) -> io::Result<Metadata> {
    match file.parent() {
        Some(folder) if !folder.as_str().is_empty() => fs::metadata(files, folder),
        _ => fs::metadata(files, "."),
    }
}

/// A file of this kind has bytes that are lost where it is written anew.
fn keeps_bytes(metadata: &Metadata) -> bool {
    let kind = metadata.file_type();
    kind.is_file() || kind.is_block_device()
}

/// As many bytes and as many reads are allowed of one file.
const LIMIT: u64 = 1 << 32;

/// All that a reader has left. None where a read fails, or where the end has not come after so many bytes or reads.
pub fn bytes_within<F: Read>(
    alloc: Global,
    limit: u64,
    file: &mut F,
) -> Result<Option<Vec<u8>>, AllocError>
    ensures whole { IfOk result (λ found. IfSome found
        (λ bytes. IfSome (F.remaining file.old) (λ left. bytes.items ≡ left))) }
    ensures within { IfOk result (λ found. IfSome found (λ bytes. length bytes.items ≤ limit)) }
{
    let mut bytes = Vec::new(alloc);
    let mut buffer = [0; 4096];
    for _ in 0..limit {
        match file.read(&mut buffer) {
            Ok(0) => return Ok(Some(bytes)),
            Ok(count) => bytes.extend_from_slice(&buffer[..count])?,
            Err(error) if error.kind() == ErrorKind::Interrupted => {}
            Err(_) => return Ok(None),
        }
        if bytes.len() as u64 > limit {
            return Ok(None);
        }
    }
    Ok(None)
}

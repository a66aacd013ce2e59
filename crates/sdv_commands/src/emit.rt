//! `emit SCRIPT CERT NAME [--binary FILE]`: the table of a script, in C.
ghost use Rattle.sdv_program.specs.Requests.{emit_names_of};
ghost use Rattle.sdv_program.specs.Outcomes.{outcome_of};
ghost use Rattle.sdv_commands.specs.Emit.{EmitEnds, EmitsApart};

use sdv_emit::{Labels, emit};
use sdv_program::{EmitWords, Fault, Role, Store, clash, leave, print_text, text_in};
use std::alloc::Global;
use std::io::Write;

/// Prints the table of the script of a file, which is verified with the certificate of another, in C. The words of the table
/// also go to the file that is named for them, if one is, before anything is printed.
///
/// # Errors
///
/// - [`Fault::File`]: the file of the words is that of the script or of the certificate; then no file was opened. Or a file
///   cannot be used: that of the script, that of the certificate, or that of the words, which was made or emptied only where
///   the script was accepted. Nothing was printed.
/// - [`Fault::Usage`]: the array's name is no identifier of C. Nothing was printed.
/// - [`Fault::Script`], [`Fault::Certificate`], [`Fault::Refused`]: the texts are not accepted. Nothing was printed.
/// - [`Fault::Wide`]: a part of the script has no room in a table. Nothing was printed.
/// - [`Fault::Output`]: the output failed. A part of the table was printed.
/// - [`Fault::Memory`]: memory was refused. Nothing was printed.
pub fn emit_files<'a, S: Store, O: Write>(
    alloc: Global,
    files: &S,
    words: EmitWords<'a>,
    out: &mut O,
) -> Result<(), Fault<'a>>
    ensures { EmitEnds (S.known files.now) (emit_names_of words.entry)
        (outcome_of result) (O.contents out.old) (O.contents out.new) }
{
    let roles = [
        Role::Reads(Some(words.script)),
        Role::Reads(Some(words.certificate)),
        Role::Writes(words.binary),
    ];
    if let Some(file) = clash(files, &roles) {
        return Err(Fault::File(file));
    }
    emit_apart(alloc, files, words, out)
}

/// The same where the file of the words is none of the others.
fn emit_apart<'a, S: Store, O: Write>(
    alloc: Global,
    files: &S,
    words: EmitWords<'a>,
    out: &mut O,
) -> Result<(), Fault<'a>>
    ensures { EmitsApart (S.known files.now) (emit_names_of words.entry)
        (outcome_of result) (O.contents out.old) (O.contents out.new) }
{
    let script = text_in(alloc, files, words.script)?;
    let certificate = text_in(alloc, files, words.certificate)?;
    let labels = Labels {
        file: words.script,
        name: words.name,
    };
    let emitted = emit(alloc, script.as_str(), certificate.as_str(), &labels)?;
    leave(files, words.binary, emitted.binary.as_slice())?;
    print_text(emitted.text.as_slice(), out)
}

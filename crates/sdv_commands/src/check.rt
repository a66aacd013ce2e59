//! `check SCRIPT CERT`: what the checker says of a script and a certificate.
ghost use Rattle.sdv_text.specs.Written.{Writes};
ghost use Rattle.sdv_program.specs.Refused.{Refuses};
ghost use Rattle.sdv_program.specs.Outcomes.{Prints, outcome_of};
ghost use Rattle.sdv_commands.specs.Check.{CheckEnds, IsBoundLine, accepted_text};

use itoa::Buffer;
use sdv_check::verify;
use sdv_program::{Fault, Store, text_in};
use sdv_text::write_texts;
use std::alloc::Global;
use std::io::{self, Write};

/// Checks the script of a file with the certificate of another, and prints the bound of the commands where it is accepted.
/// The script is read first.
///
/// # Errors
///
/// - [`Fault::File`]: a file cannot be used; that of the certificate is read only where that of the script gave a text.
///   Nothing was printed.
/// - The faults of [`check_texts`].
pub fn check_files<'a, S: Store, O: Write>(
    alloc: Global,
    files: &S,
    script: &'a str,
    certificate: &'a str,
    out: &mut O,
) -> Result<(), Fault<'a>>
    ensures { CheckEnds (S.known files.now) script.entry.now certificate.entry.now
        (outcome_of result) (O.contents out.old) (O.contents out.new) }
{
    let script = text_in(alloc, files, script)?;
    let certificate = text_in(alloc, files, certificate)?;
    check_texts(alloc, script.as_str(), certificate.as_str(), out)
}

/// Checks a script with a certificate, by their texts, and prints the bound of the commands where they are accepted.
///
/// # Errors
///
/// - [`Fault::Script`], [`Fault::Certificate`], [`Fault::Refused`]: the texts are not accepted. Nothing was printed.
/// - [`Fault::Output`]: they are, and the output failed. A part of the line was printed.
/// - [`Fault::Memory`]: memory was refused. Nothing was printed.
pub fn check_texts<'a, O: Write>(
    alloc: Global,
    script: &str,
    certificate: &str,
    out: &mut O,
) -> Result<(), Fault<'a>>
    ensures { Prints (IsBoundLine script.now certificate.now) (Refuses script.now certificate.now)
        (outcome_of result) (O.contents out.old) (O.contents out.new) }
{
    let accepted = verify(alloc, script, certificate)?;
    print_bound(accepted.bound(), out).map_err(|_| Fault::Output)
}

fn print_bound<O: Write>(bound: u64, out: &mut O) -> io::Result<()>
    ensures { Writes (O.contents out.old) (O.contents out.new) result (accepted_text bound) }
{
    let mut digits = Buffer::new();
    write_texts(out, &[b"accepted ", digits.format(bound).as_bytes(), b"\n"])
}

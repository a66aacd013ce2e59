//! Bytes that go to a file of their own.
ghost use Rattle.std.specs.Prelude.{◌≡◌, option_map, IfErr, OnOk, false, true};
ghost use Rattle.sdv_program.specs.Left.{IsLeft, LeavesFault, LosesFile};

use crate::fault::Fault;
use crate::file::Store;
use sdv_text::write_text;
use std::io::Write;

/// Writes bytes to the file that is named for them, if one is.
///
/// # Errors
///
/// [`Fault::File`]: the file cannot be made, or did not take all of them.
pub fn leave<'a, S: Store>(files: &S, name: Option<&'a str>, bytes: &[u8]) -> Result<(), Fault<'a>>
    ensures left { OnOk result (IsLeft (S.known files.now) (option_map (λ file. file.now) name.entry) bytes.now) }
    ensures lost { IfErr result (LeavesFault (S.known files.now) name.entry bytes.now) }
{
    let Some(file) = name else {
        return Ok(());
    };
    if leave_in(files, file, bytes) {
        Ok(())
    } else {
        Err(Fault::File(file))
    }
}

/// Writes bytes to the file of a name. False where the file cannot be made, or did not take all of them.
fn leave_in<S: Store>(files: &S, file: &str, bytes: &[u8]) -> bool
    ensures left { result ≡ true → (S.known files.now).received file.now bytes.now }
    ensures lost { result ≡ false → LosesFile (S.known files.now) file.now bytes.now }
{
    let Some(mut sink) = files.create(file) else {
        return false;
    };
    match write_text(&mut sink, bytes) {
        Ok(()) => files.finish(file, sink),
        Err(_) => {
            files.finish(file, sink);
            false
        }
    }
}

//! `verify FILE.. [--json] [--no-run] [--save DIR] [--allow KIND]..`: all that is wrong with scripts, and what accepted ones leave
//! open.
ghost use Rattle.std.specs.Prelude.{◌≡◌, ◌⊎◌, IfErr, IfOk};
ghost use Rattle.sdv_program.specs.Requests.{verify_names_of};
ghost use Rattle.sdv_program.specs.Outcomes.{outcome_of};
ghost use Rattle.sdv_commands.specs.Report.{found_if};
ghost use Rattle.sdv_commands.specs.Verify.{IsToldOf, IsUnsaved, VerifyEnds, is_file, worse};

use crate::report::print_report;
use sdv_named_schedules::schedule_text;
use sdv_program::{Fault, Store, VerifyWords, leave, text_in};
use sdv_verdict::{Allowed, Form, Runs, Told, run_names, tell, tell_unread};
use std::alloc::{AllocError, Global};
use std::io::Write;

/// Prints the verdicts on the scripts of files, in their order. A file that cannot be used is named, and the others are judged.
/// Where a folder is named, it first takes what each run needs that was found.
///
/// # Errors
///
/// - [`Fault::File`]: a file cannot be used, the first of those, and all was printed; or the folder does not take what a run
///   needs, or a file there is one of the scripts, and nothing was printed.
/// - [`Fault::Found`]: a script is refused, or is none, or has a warning. All was printed.
/// - [`Fault::Output`]: the output failed. A part was printed.
/// - [`Fault::Memory`]: memory was refused. Nothing was printed.
pub fn verify_files<'a, S: Store, O: Write>(
    alloc: Global,
    files: &S,
    words: &VerifyWords<'a>,
    out: &mut O,
) -> Result<(), Fault<'a>>
    ensures { VerifyEnds (S.known files.now) (verify_names_of words.now)
        (outcome_of result) (O.contents out.old) (O.contents out.new) }
{
    let mut page = Vec::new(alloc);
    let mut saved = 0;
    let mut worst = None;
    for file in &words.files {
        let told = verify_file(alloc, files, words, file, &mut saved, &mut page)?;
        worst = worse(worst, told);
    }
    print_report(&page, worst, out)
}

/// Adds the verdict on the script of a file, and gives the fault that it tells of.
///
/// # Errors
///
/// - [`Fault::Memory`]: memory was refused.
/// - [`Fault::File`]: the folder does not take what a run needs.
fn verify_file<'a, S: Store>(
    alloc: Global,
    files: &S,
    words: &VerifyWords<'a>,
    file: &'a str,
    saved: &mut u64,
    page: &mut Vec<u8>,
) -> Result<Option<Fault<'a>>, Fault<'a>>
    ensures told { IfOk result (IsToldOf (S.known files.now) (verify_names_of words.now).allowed file.entry.now) }
    ensures unsaved { IfErr result (IsUnsaved (verify_names_of words.now)) }
{
    let form = if words.json { Form::Json } else { Form::Lines };
    let text = match text_in(alloc, files, file) {
        Ok(text) => text,
        Err(Fault::Memory) => return Err(Fault::Memory),
        Err(fault) => {
            page.extend_from_slice(&tell_unread(alloc, file, form)?)?;
            return Ok(Some(fault));
        }
    };
    let allowed = Allowed {
        text: text.as_str(),
        kinds: &words.allowed,
    };
    let told = tell(alloc, file, allowed, runs_of(words, *saved), form)?;
    page.extend_from_slice(&told.page)?;
    if let Some(folder) = words.save {
        save_runs(alloc, files, words, &told, folder, saved)?;
    }
    Ok(fault_if(!told.is_clear))
}

/// Something was found.
fn fault_if<'a>(is_found: bool) -> Option<Fault<'a>>
    ensures { result ≡ found_if is_found }
{
    if is_found { Some(Fault::Found) } else { None }
}

/// Which runs are looked for, where so many were saved before.
fn runs_of<'a>(words: &VerifyWords<'a>, before: u64) -> Runs<'a> {
    match words.save {
        _ if words.no_run => Runs::Unsought,
        Some(folder) => Runs::Saved { folder, before },
        None => Runs::Sought,
    }
}

/// What a run needs.
#[derive(Clone, Copy)]
struct Needs<'r> {
    card: &'r str,
    schedule: &'r [u8],
    input: &'r [[u8; 512]],
}

/// Writes what the runs that were found of a script need to files in a folder, where so many were saved before.
///
/// # Errors
///
/// As for each of them.
fn save_runs<'a, S: Store>(
    alloc: Global,
    files: &S,
    words: &VerifyWords<'a>,
    told: &Told,
    folder: &'a str,
    saved: &mut u64,
) -> Result<(), Fault<'a>>
    ensures { IfErr result (λ fault. (fault ≡ Fault.Memory) ⊎ (fault ≡ Fault.File folder.entry)) }
{
    for run in &told.runs {
        let needs = Needs {
            card: run.card.as_str(),
            schedule: run.schedule.as_slice(),
            input: &[],
        };
        save_run(alloc, files, words, needs, folder, saved)?;
    }
    for loss in &told.losses {
        let needs = Needs {
            card: loss.card.as_str(),
            schedule: loss.schedule.as_slice(),
            input: loss.input.as_slice(),
        };
        save_run(alloc, files, words, needs, folder, saved)?;
    }
    Ok(())
}

/// Writes what a run needs to its files, none of which is one of the scripts. There is none for blocks where it gives none.
///
/// # Errors
///
/// - [`Fault::File`]: the folder does not take them.
/// - [`Fault::Memory`]: memory was refused.
fn save_run<'a, S: Store>(
    alloc: Global,
    files: &S,
    words: &VerifyWords<'a>,
    needs: Needs<'_>,
    folder: &'a str,
    saved: &mut u64,
) -> Result<(), Fault<'a>>
    ensures { IfErr result (λ fault. (fault ≡ Fault.Memory) ⊎ (fault ≡ Fault.File folder.entry)) }
{
    *saved = saved.saturating_add(1);
    let names = run_names(alloc, folder, *saved)?;
    let schedule = schedule_text(alloc, needs.schedule)?;
    let blocks = bytes_of(alloc, needs.input)?;
    let is_left = is_saved(files, words, names.card.as_str(), needs.card.as_bytes())
        && is_saved(files, words, names.schedule.as_str(), schedule.as_slice())
        && (blocks.is_empty() || is_saved(files, words, names.input.as_str(), blocks.as_slice()));
    if is_left {
        Ok(())
    } else {
        Err(Fault::File(folder))
    }
}

/// A file takes the bytes, and it is none of the scripts.
fn is_saved<S: Store>(files: &S, words: &VerifyWords<'_>, file: &str, bytes: &[u8]) -> bool {
    let is_script = words.files.iter().any(|other| files.is_same(other, file));
    !is_script && leave(files, Some(file), bytes).is_ok()
}

/// The bytes of blocks, one after another.
fn bytes_of(alloc: Global, blocks: &[[u8; 512]]) -> Result<Vec<u8>, AllocError> {
    let mut bytes = Vec::new(alloc);
    for block in blocks {
        bytes.extend_from_slice(block)?;
    }
    Ok(bytes)
}

/// Of two faults the one by which a command ends that meets both: a file that cannot be used weighs more than a finding, and the
/// first counts of two that weigh as much.
fn worse<'a>(first: Option<Fault<'a>>, second: Option<Fault<'a>>) -> Option<Fault<'a>>
    ensures { result ≡ worse first.entry second.entry }
{
    if first.is_none() || (is_file(&second) && !is_file(&first)) {
        second
    } else {
        first
    }
}

/// The fault is a file that cannot be used.
fn is_file(fault: &Option<Fault<'_>>) -> bool
    ensures { result ≡ is_file fault.now }
{
    match fault {
        Some(Fault::File(_)) => true,
        _ => false,
    }
}

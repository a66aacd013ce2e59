//! `batch KIND REQUESTS`: the script that serves requests to a disk.
ghost use Rattle.std.specs.Prelude.{◌≡◌, IfErr, IfNone, IfOk, IfSome};
ghost use Rattle.sdv_program.specs.Outcomes.{outcome_of};
ghost use Rattle.sdv_commands.specs.Batch.{AreRequests, BatchEnds, IsRequest, NoRequest, NoRequests, kind_named};

use sdv_block::{Request, batch};
use sdv_program::{Fault, print_text};
use sdv_registers::Kind;
use sdv_text::number_of;
use std::alloc::Global;
use std::io::Write;

/// The kind of card that a word names.
pub(crate) fn kind_of(word: &str) -> Option<Kind>
    ensures { result ≡ kind_named word.now }
{
    match word {
        "sd" => Some(Kind::Sd),
        "emmc" => Some(Kind::Emmc),
        _ => None,
    }
}

/// The request that three words write.
fn request_of(action: &str, first: &str, count: &str) -> Option<Request>
    ensures request { IfSome result (IsRequest action.now first.now count.now) }
    ensures none { IfNone result (NoRequest action.now first.now count.now) }
{
    let first = u64::from(number_of(first)?);
    let count = u64::from(number_of(count)?);
    match action {
        "read" => Some(Request::Read { first, count }),
        "write" => Some(Request::Write { first, count }),
        _ => None,
    }
}

/// The requests that words write, three words each.
///
/// # Errors
///
/// - [`Fault::Usage`]: they write none.
/// - [`Fault::Memory`]: memory was refused.
fn requests_of<'a>(alloc: Global, words: &[&str]) -> Result<Vec<Request>, Fault<'a>>
    ensures requests { IfOk result (λ requests. AreRequests words.now requests.items) }
    ensures refused { IfErr result (NoRequests words.now) }
{
    if words.len() % 3 != 0 {
        return Err(Fault::Usage);
    }
    let mut requests = Vec::new(alloc);
    for i in 0..words.len() / 3 {
        let request = request_of(words[3 * i], words[3 * i + 1], words[3 * i + 2]).ok_or(
            Fault::Usage,
        )?;
        if requests.push(request).is_err() {
            return Err(Fault::Memory);
        }
    }
    Ok(requests)
}

/// Prints the script that serves requests to a card of a kind, `sd` or `emmc`. The requests are the words `read FIRST COUNT`
/// and `write FIRST COUNT`, with white space between them; numbers of blocks are below 2^32.
///
/// # Errors
///
/// - [`Fault::Usage`]: there is no such kind, or the words are no requests. Nothing was printed.
/// - [`Fault::Unserved`]: there is no such script, as `batch` of `sdv_block` says. Nothing was printed.
/// - [`Fault::Output`]: there is one, and the output failed. A part of its text was printed.
/// - [`Fault::Memory`]: memory was refused. Nothing was printed.
pub fn print_batch<'a, O: Write>(
    alloc: Global,
    kind: &str,
    requests: &str,
    out: &mut O,
) -> Result<(), Fault<'a>>
    ensures { BatchEnds kind.now requests.now (outcome_of result) (O.contents out.old) (O.contents out.new) }
{
    let kind = kind_of(kind).ok_or(Fault::Usage)?;
    let words: Vec<&str> = requests.split_whitespace().collect(alloc)?;
    let requests = requests_of(alloc, words.as_slice())?;
    let script = batch(alloc, kind, requests.as_slice())?;
    print_text(script.as_bytes(), out)
}

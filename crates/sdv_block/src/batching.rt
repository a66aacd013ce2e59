//! Batches: the scripts that serve requests.

ghost use Rattle.std.specs.Prelude.{◌≡◌, ◌≢◌, ◌<◌, ◌≤◌, true, None, Some, IfOk, IfErr, OnOk, length, string_bytes};
ghost use Rattle.std.specs.List.{list_all};
ghost use Rattle.sdv_script.specs.Rules.{max_bytes};
ghost use Rattle.sdv_script.specs.Script.{IsScript};
ghost use Rattle.sdv_block.specs.Batch.{Grows, batch_refusal, is_in_range};
ghost use Rattle.sdv_block.specs.BatchText.{batch_script, requests_text};
ghost use Rattle.sdv_block.specs.Disk.{greatest_end};

use crate::fault::BlockFault;
use crate::request::Request;
use crate::text::{bring_up, push_end, push_request, push_test, short_enough};
use sdv_registers::Kind;
use std::alloc::Global;

/// Whether each request is in range.
fn are_in_range(requests: &[Request]) -> bool
    ensures { result ≡ list_all is_in_range requests.now }
{
    requests.iter().all(|request| request.is_in_range())
}

/// The blocks that a disk must have for the requests.
fn greatest_end(requests: &[Request]) -> u64
    requires { list_all is_in_range requests.now ≡ true }
    ensures { result ≡ greatest_end requests.now }
{
    let mut greatest = 0;
    for request in requests {
        greatest = greatest.max(request.end());
    }
    greatest
}

/// Adds the lines of all requests.
fn push_requests(text: &mut String, requests: &[Request]) -> Result<(), BlockFault>
    ensures { Grows (string_bytes text.old) (string_bytes text.new) result (requests_text requests.now) }
{
    for request in requests {
        push_request(text, *request)?;
        short_enough(text.as_str())?;
    }
    Ok(())
}

/// The text of the script of requests.
fn script_text(alloc: Global, kind: Kind, requests: &[Request]) -> Result<String, BlockFault>
    requires { list_all is_in_range requests.now ≡ true }
    ensures text { IfOk result (λ text. string_bytes text ≡ (batch_script kind requests.now).text) }
    ensures short { OnOk result (length (batch_script kind requests.now).text ≤ max_bytes) }
    ensures long { IfErr result (λ fault. fault ≢ BlockFault.Memory →
        (fault ≡ BlockFault.Limit) × (max_bytes < length (batch_script kind requests.now).text)) }
{
    let mut text = String::from_str(alloc, bring_up(kind))?;
    push_test(&mut text, greatest_end(requests))?;
    push_requests(&mut text, requests)?;
    push_end(&mut text)?;
    short_enough(text.as_str())?;
    Ok(text)
}

/// The script that serves requests to a card of a kind: it brings the card up, refuses one that is too small, and then
/// reads and writes, in the order of the requests: one block by a single-block command, several by a multiple-block
/// command that is stopped.
///
/// # Errors
///
/// - [`BlockFault::Empty`]: there is no request.
/// - [`BlockFault::Range`]: else one has no block, more than 65,535, or one above the greatest card.
/// - [`BlockFault::Limit`]: else the text has more bytes than a script may have.
/// - [`BlockFault::Memory`]: memory was refused.
pub fn batch(alloc: Global, kind: Kind, requests: &[Request]) -> Result<String, BlockFault>
    ensures text { IfOk result (λ text. string_bytes text ≡ (batch_script kind requests.now).text) }
    ensures script { IfOk result (λ text. IsScript (batch_script kind requests.now)) }
    ensures served { IfOk result (λ text. batch_refusal kind requests.now ≡ None) }
    ensures refused { IfErr result (λ fault.
        fault ≢ BlockFault.Memory → batch_refusal kind requests.now ≡ Some fault) }
{
    if requests.is_empty() {
        return Err(BlockFault::Empty);
    }
    if !are_in_range(requests) {
        return Err(BlockFault::Range);
    }
    script_text(alloc, kind, requests)
}

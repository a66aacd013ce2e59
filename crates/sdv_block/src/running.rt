//! Requests that are served.

ghost use Rattle.std.specs.Prelude.{◌≡◌, List, IfOk, IfErr};
ghost use Rattle.sdv_card.specs.Card.{Block};
ghost use Rattle.sdv_check.specs.Verified.{IsGraphOfText};
ghost use Rattle.sdv_block.specs.Serves.{IsCertified, Serves, Uncertified, fault_of_script, fault_of_writer};

use crate::batching::batch;
use crate::fault::BlockFault;
use crate::request::Request;
use sdv_card::CardPort;
use sdv_certify::{CertifyFault, certify};
use sdv_check::{VerifyFault, check};
use sdv_graph::Graph;
use sdv_registers::Kind;
use sdv_run::{End, RunFault, run_graph};
use sdv_script::{FaultKind, ScriptFault, parse};
use std::alloc::Global;
use std::io::Write;

/// The fault of a text that is no script, or for which memory ran out.
fn fault_of_script(fault: ScriptFault) -> BlockFault
    ensures { result ≡ fault_of_script fault.kind fault }
{
    match fault.kind {
        FaultKind::Memory => BlockFault::Memory,
        _ => BlockFault::Verify(VerifyFault::Script(fault)),
    }
}

/// The fault of a script without a certificate, or for which memory ran out.
fn fault_of_writer(fault: CertifyFault) -> BlockFault
    ensures { result ≡ fault_of_writer fault }
{
    match fault {
        CertifyFault::Memory => BlockFault::Memory,
        fault => BlockFault::Certify(fault),
    }
}

/// The graph of the script that a text is, with a certificate that is closed for it.
fn certified_graph<'a>(alloc: Global, text: &'a str) -> Result<Graph<'a>, BlockFault>
    ensures graph { IfOk result (λ g. IsGraphOfText text.entry.now g) }
    ensures certified { IfOk result (λ g. IsCertified g) }
    ensures refused { IfErr result (Uncertified text.entry.now) }
{
    let script = match parse(alloc, text) {
        Ok(script) => script,
        Err(fault) => return Err(fault_of_script(fault)),
    };
    let certificate = match certify(alloc, &script) {
        Ok(certificate) => certificate,
        Err(fault) => return Err(fault_of_writer(fault)),
    };
    let Ok(graph) = script.graph(alloc) else {
        return Err(BlockFault::Memory);
    };
    match check(&graph, &certificate) {
        Ok(_) => Ok(graph),
        Err(fault) => Err(BlockFault::Verify(VerifyFault::Check(fault))),
    }
}

/// Serves requests over a port: makes the script of their batch, certifies it, checks the certificate, and runs it.
///
/// Writes take the next blocks of `input`, and the blocks that are read go to `out`, in the order of the requests;
/// `trace` gets a line for each event. What is so of every port: what happens there is nothing, or a run of the batch's
/// text. Where the port shows a card of the profile, of this kind, in any state, the requests are served as a plain disk
/// serves them, since the text begins with CMD0: in [`End::Done`] with its blocks, its output and the input that it leaves; in a fault with
/// a front of its output; and never is a block changed that no request writes. The fault `beyond` comes only where a
/// request passes the end of the disk.
///
/// # Errors
///
/// - [`BlockFault::Empty`], [`BlockFault::Range`], [`BlockFault::Limit`]: as from [`batch`]. Nothing happened.
/// - [`BlockFault::Certify`]: the batch's script has no certificate. Nothing happened.
/// - [`BlockFault::Run`]: the run stopped before its end, as `run` of `sdv_run` says.
/// - [`BlockFault::Memory`]: memory was refused. Nothing happened.
///
/// [`BlockFault::Verify`] never comes: the batch's text is a script, and its certificate is closed.
pub fn serve<P: CardPort, O: Write, T: Write>(
    alloc: Global,
    kind: Kind,
    requests: &[Request],
    port: &mut P,
    input: &[[u8; 512]],
    out: &mut O,
    trace: &mut T,
) -> Result<End, BlockFault>
    ensures { (left : List Block) × Serves P.steps P.card kind requests.now
        (record { port = port.old; input = input.now; out = O.contents out.old; trace = T.contents trace.old })
        (record { port = port.new; input = left; out = O.contents out.new; trace = T.contents trace.new }) result }
{
    let text = batch(alloc, kind, requests)?;
    let graph = certified_graph(alloc, text.as_str())?;
    match run_graph(alloc, &graph, port, input, out, trace) {
        Ok(end) => Ok(end),
        Err(RunFault::Memory) => Err(BlockFault::Memory),
        Err(fault) => Err(BlockFault::Run(fault)),
    }
}

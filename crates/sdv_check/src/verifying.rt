//! Scripts and certificates, verified by their texts.

ghost use Rattle.std.specs.Prelude.{◌≡◌, ◌≢◌, IfOk, MatchResult};
ghost use Rattle.sdv_check.specs.Headline.{EachRunOf};
ghost use Rattle.sdv_check.specs.Verified.{IsGraphOfText, IsNoScript, fault_of_script, Verified};

use crate::accepted::Accepted;
use crate::checker::check;
use crate::fault::VerifyFault;
use crate::text::{CertFault, read};
use sdv_graph::Graph;
use sdv_script::{FaultKind, ScriptFault, parse};
use std::alloc::Global;

/// The graph of the script that a text is.
fn graph_of_text<'a>(alloc: Global, text: &'a str) -> Result<Graph<'a>, ScriptFault>
    ensures { MatchResult result (λ g. IsGraphOfText text.entry.now g)
        (λ f. f.kind ≢ FaultKind.Memory → IsNoScript text.entry.now) }
{
    match parse(alloc, text) {
        Ok(script) => script.graph(alloc),
        Err(fault) => Err(fault),
    }
}

/// The fault of a text that is no script, or for which memory ran out.
fn fault_of_script(fault: ScriptFault) -> VerifyFault
    ensures { result ≡ fault_of_script fault.kind fault }
{
    match fault.kind {
        FaultKind::Memory => VerifyFault::Memory,
        _ => VerifyFault::Script(fault),
    }
}

/// What a certificate says of a script, both by their texts: where the certificate is closed for the script's graph, the
/// graph and the bound.
///
/// # Errors
///
/// [`VerifyFault::Script`] where the first text is no script, else [`VerifyFault::Certificate`] where the second is that
/// of no certificate within the limits, else [`VerifyFault::Check`] where that is not closed for the script's graph.
/// [`VerifyFault::Memory`] comes only where memory was refused.
pub fn verify<'a>(
    alloc: Global,
    script: &'a str,
    certificate: &str,
) -> Result<Accepted<'a>, VerifyFault>
    ensures verified { Verified script.entry.now certificate.entry.now result }
    ensures headline { IfOk result (λ a. EachRunOf script.entry.now a.bound) }
{
    let graph = match graph_of_text(alloc, script) {
        Ok(graph) => graph,
        Err(fault) => return Err(fault_of_script(fault)),
    };
    let certificate = match read(alloc, certificate) {
        Ok(certificate) => certificate,
        Err(CertFault::Memory) => return Err(VerifyFault::Memory),
        Err(fault) => return Err(VerifyFault::Certificate(fault)),
    };
    match check(&graph, &certificate) {
        Ok(bound) => Ok(Accepted::new(graph, bound)),
        Err(fault) => Err(VerifyFault::Check(fault)),
    }
}

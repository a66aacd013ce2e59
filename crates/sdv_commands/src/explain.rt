//! `explain SCRIPT [CERT] [--why]`: what is known at each point of a script, and why it is refused where it is, with a run that
//! refutes it; of a text that is no script, where it is wrong; of a certificate, why the checker refuses it.
ghost use Rattle.std.specs.Prelude.{◌≡◌, ◌≢◌, IfOk};
ghost use Rattle.sdv_check.specs.Verified.{IsNoScript};
ghost use Rattle.sdv_script.specs.OneGraph.{IsGraphOfScript};
ghost use Rattle.sdv_script.specs.Script.{IsScript};
ghost use Rattle.sdv_script.specs.Shown.{shown};
ghost use Rattle.sdv_program.specs.Requests.{explain_names_of};
ghost use Rattle.sdv_program.specs.Outcomes.{OverText, Reports, outcome_of};
ghost use Rattle.sdv_commands.specs.Explain.{ExplainEnds, ExplainsText, HasNoAnswer, IsExplanation, IsFaultPage, IsJudgement, IsTold};
ghost use Rattle.sdv_commands.specs.Explain.{fault_of_refusal, told_by};
ghost use Rattle.sdv_commands.specs.Report.{CanBeTold};

use crate::report::{Report, print_report};
use sdv_certify::{CertifyFault, ScriptSurvey, survey};
use sdv_explain::{CertificateRefusal, Explanation, Verdict, explain, fault_page, judge};
use sdv_graph::Graph;
use sdv_program::{ExplainWords, Fault, Store, text_in};
use sdv_script::{FaultKind, Script, ScriptFault, parse};
use sdv_search::shown_run;
use std::alloc::{AllocError, Global};
use std::io::Write;

/// Prints the explanation of the script of a file, or what the checker says of it with the certificate of another.
///
/// # Errors
///
/// - [`Fault::File`]: a file cannot be used; that of the certificate is read only where that of the script gave a text.
///   Nothing was printed.
/// - The faults of [`explain_text`] or of [`judge_file`].
pub fn explain_file<'a, S: Store, O: Write>(
    alloc: Global,
    files: &S,
    words: ExplainWords<'a>,
    out: &mut O,
) -> Result<(), Fault<'a>>
    ensures { ExplainEnds (S.known files.now) (explain_names_of words.entry)
        (outcome_of result) (O.contents out.old) (O.contents out.new) }
{
    let script = text_in(alloc, files, words.script)?;
    explain_given(alloc, files, words, script.as_str(), out)
}

/// The same of the text of the script.
fn explain_given<'a, S: Store, O: Write>(
    alloc: Global,
    files: &S,
    words: ExplainWords<'a>,
    script: &str,
    out: &mut O,
) -> Result<(), Fault<'a>>
    ensures { ExplainsText (S.known files.now) script.now (explain_names_of words.entry).certificate
        (outcome_of result) (O.contents out.old) (O.contents out.new) }
{
    match words.certificate {
        None => explain_text(alloc, script, words.why, out),
        Some(file) => judge_file(alloc, files, script, file, out),
    }
}

/// Prints what the checker says of a script with the certificate of a file.
///
/// # Errors
///
/// - [`Fault::File`]: the file cannot be used. Nothing was printed.
/// - [`Fault::Script`]: the first text is no script. The page of the fault was printed.
/// - [`Fault::Certificate`], [`Fault::Refused`]: the checker does not accept them, and the reason was printed.
/// - [`Fault::Output`]: the output failed. A part of the answer was printed.
/// - [`Fault::Memory`]: memory was refused. Nothing was printed.
fn judge_file<'a, S: Store, O: Write>(
    alloc: Global,
    files: &S,
    script: &str,
    file: &'a str,
    out: &mut O,
) -> Result<(), Fault<'a>>
    ensures { OverText (S.known files.now) file.entry.now
        (λ certificate. Reports (IsJudgement script.now certificate) HasNoAnswer)
        (outcome_of result) (O.contents out.old) (O.contents out.new) }
{
    let certificate = text_in(alloc, files, file)?;
    judge_texts(alloc, script, certificate.as_str(), out)
}

/// Prints the explanation of a script, by its text, or only why it is refused. Behind the reason of a refusal it shows a run that
/// refutes the script, if one was found.
///
/// # Errors
///
/// - [`Fault::Uncertified`]: the script has no certificate, and the explanation was printed, which says why.
/// - [`Fault::Script`]: the text is no script. The page of the fault was printed.
/// - [`Fault::Output`]: the output failed. A part of the explanation or of the page was printed.
/// - [`Fault::Memory`]: memory was refused. Nothing was printed.
pub fn explain_text<'a, O: Write>(
    alloc: Global,
    script: &str,
    only_why: bool,
    out: &mut O,
) -> Result<(), Fault<'a>>
    ensures { Reports (IsExplanation script.now) HasNoAnswer
        (outcome_of result) (O.contents out.old) (O.contents out.new) }
{
    let Report { page, told } = explained(alloc, script, only_why)?;
    print_report(&page, told, out)
}

/// What is explained of a text.
fn explained(alloc: Global, text: &str, only_why: bool) -> Result<Report, AllocError>
    ensures is { IfOk result (λ report. IsExplanation text.now report.told report.page.items) }
    ensures can { IfOk result (λ report. CanBeTold report.told) }
{
    match parse(alloc, text) {
        Ok(script) => script_explained(alloc, &script, only_why),
        Err(fault) => fault_shown(alloc, text, fault),
    }
}

/// The page of the fault of a text that is no script.
fn fault_shown(alloc: Global, text: &str, fault: ScriptFault) -> Result<Report, AllocError>
    requires { fault.kind ≢ FaultKind.Memory → IsNoScript text.now }
    ensures is { IfOk result (λ report. IsFaultPage text.now report.told report.page.items) }
    ensures can { IfOk result (λ report. CanBeTold report.told) }
{
    if fault.kind == FaultKind::Memory {
        return Err(AllocError);
    }
    let page = fault_page(alloc, text, fault)?;
    let told = Some(Fault::Script(fault));
    Ok(Report { page, told })
}

/// What is said where too many commands may be sent, or there are too many shapes.
const TOO_MANY: &str =
    "why: a run may send more than 1099511627776 commands, or its statements meet more than 65536 shapes of cards in all\n\
     hint: give loops fewer turns, or make two scripts of it, each with a bring-up of its own\n";

/// What is explained of a script.
fn script_explained(
    alloc: Global,
    script: &Script<'_>,
    only_why: bool,
) -> Result<Report, AllocError>
    requires { IsScript (shown script.now) }
    ensures is { IfOk result (λ report. IsTold script.now report.told) }
    ensures can { IfOk result (λ report. CanBeTold report.told) }
{
    let Ok(graph) = script.graph(alloc) else {
        return Err(AllocError);
    };
    match survey(alloc, script, &graph) {
        Ok(known) => {
            let page = page_of(alloc, script, &graph, &known, only_why)?;
            let told = told_by(known.refusal);
            Ok(Report { page, told })
        }
        Err(CertifyFault::Memory) => Err(AllocError),
        Err(fault) => {
            let page = Vec::from_slice(alloc, TOO_MANY.as_bytes())?;
            let told = told_by(Some(fault));
            Ok(Report { page, told })
        }
    }
}

/// How the program tells of a script that is refused so, or not at all.
pub(crate) fn told_by(refusal: Option<CertifyFault>) -> Option<Fault<'static>>
    ensures same { result ≡ told_by refusal }
    ensures can { CanBeTold result }
{
    match refusal {
        Some(fault) => Some(Fault::Uncertified(fault)),
        None => None,
    }
}

/// The words for what is known of a script: why it is refused, if it is, with a run that refutes it, if one is found; and then,
/// unless that is left out, what is known at each point.
fn page_of(
    alloc: Global,
    script: &Script<'_>,
    graph: &Graph<'_>,
    known: &ScriptSurvey,
    only_why: bool,
) -> Result<Vec<u8>, AllocError>
    requires script { IsScript (shown script.now) }
    requires graph { IsGraphOfScript (shown script.now) graph.now }
{
    let Explanation {
        mut reason,
        way,
        listing,
        ..
    } = explain(alloc, graph, known)?;
    if let Some(point) = refused_point(known.refusal) {
        if let Some(words) = shown_run(alloc, script, graph, point)? {
            reason.extend_from_slice(&words)?;
        }
    }
    reason.extend_from_slice(&way)?;
    if !only_why {
        reason.extend_from_slice(&listing)?;
    }
    Ok(reason)
}

/// The point that is refused.
fn refused_point(refusal: Option<CertifyFault>) -> Option<usize> {
    match refusal? {
        CertifyFault::Illegal { point, .. }
        | CertifyFault::Address { point }
        | CertifyFault::EndState { point } => Some(point),
        CertifyFault::TooMany | CertifyFault::Memory => None,
    }
}

/// Prints what the checker says of a script and a certificate, by their texts.
fn judge_texts<'a, O: Write>(
    alloc: Global,
    script: &str,
    certificate: &str,
    out: &mut O,
) -> Result<(), Fault<'a>>
    ensures { Reports (IsJudgement script.now certificate.now) HasNoAnswer
        (outcome_of result) (O.contents out.old) (O.contents out.new) }
{
    let Report { page, told } = judged(alloc, script, certificate)?;
    print_report(&page, told, out)
}

/// What the checker says of a script and a certificate, by their texts.
fn judged(alloc: Global, text: &str, certificate: &str) -> Result<Report, AllocError>
    ensures is { IfOk result (λ report. IsJudgement text.now certificate.now report.told report.page.items) }
    ensures can { IfOk result (λ report. CanBeTold report.told) }
{
    let script = match parse(alloc, text) {
        Ok(script) => script,
        Err(fault) => return fault_shown(alloc, text, fault),
    };
    let Ok(graph) = script.graph(alloc) else {
        return Err(AllocError);
    };
    let Verdict { words, refusal } = judge(alloc, &graph, certificate)?;
    let told = fault_of(refusal);
    Ok(Report { page: words, told })
}

/// How the program tells of a certificate that is refused so, or not at all.
fn fault_of(refusal: Option<CertificateRefusal>) -> Option<Fault<'static>>
    ensures same { result ≡ fault_of_refusal refusal }
    ensures can { CanBeTold result }
{
    match refusal {
        None => None,
        Some(CertificateRefusal::NoCertificate(fault)) => Some(Fault::Certificate(fault)),
        Some(CertificateRefusal::Open(fault)) => Some(Fault::Refused(fault)),
    }
}

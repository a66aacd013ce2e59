//! `explain --dot SCRIPT [--no-faults]`: the graph of a script, in the language of Graphviz.
ghost use Rattle.std.specs.Prelude.{IfOk};
ghost use Rattle.sdv_script.specs.Script.{IsScript};
ghost use Rattle.sdv_script.specs.Shown.{shown};
ghost use Rattle.sdv_program.specs.Requests.{graph_names_of};
ghost use Rattle.sdv_program.specs.Outcomes.{Reports, outcome_of};
ghost use Rattle.sdv_commands.specs.Graph.{GraphEnds, IsDrawing, IsDrawingOf, IsUndrawn};
ghost use Rattle.sdv_commands.specs.Report.{CanBeTold};

use crate::explain::told_by;
use crate::report::{Report, print_report};
use sdv_certify::{CertifyFault, survey};
use sdv_explain::{draw, refusal_of};
use sdv_program::{Fault, GraphWords, Store, text_in};
use sdv_script::{Script, parse};
use std::alloc::{AllocError, Global};
use std::io::Write;

/// Prints the drawing of the script of a file.
///
/// # Errors
///
/// - [`Fault::File`]: the file cannot be used. Nothing was printed.
/// - The faults of [`graph_text`].
pub fn graph_file<'a, S: Store, O: Write>(
    alloc: Global,
    files: &S,
    words: GraphWords<'a>,
    out: &mut O,
) -> Result<(), Fault<'a>>
    ensures { GraphEnds (S.known files.now) (graph_names_of words.entry)
        (outcome_of result) (O.contents out.old) (O.contents out.new) }
{
    let script = text_in(alloc, files, words.script)?;
    graph_text(alloc, script.as_str(), words.no_faults, out)
}

/// Prints the drawing of a script, by its text, without its faults if they are left out.
///
/// # Errors
///
/// - [`Fault::Uncertified`]: the script has no certificate. The drawing was printed, with the point marked that is refused.
/// - [`Fault::Script`]: the text is no script. Nothing was printed.
/// - [`Fault::Output`]: the output failed. A part of the drawing was printed.
/// - [`Fault::Memory`]: memory was refused. Nothing was printed.
pub fn graph_text<'a, O: Write>(
    alloc: Global,
    script: &str,
    no_faults: bool,
    out: &mut O,
) -> Result<(), Fault<'a>>
    ensures { Reports (IsDrawing no_faults script.now) (IsUndrawn script.now)
        (outcome_of result) (O.contents out.old) (O.contents out.new) }
{
    let script = parse(alloc, script)?;
    let Report { page, told } = drawn(alloc, &script, no_faults)?;
    print_report(&page, told, out)
}

/// The drawing of a script.
fn drawn(alloc: Global, script: &Script<'_>, no_faults: bool) -> Result<Report, AllocError>
    requires { IsScript (shown script.now) }
    ensures is { IfOk result (λ report. IsDrawingOf no_faults script.now report.told report.page.items) }
    ensures can { IfOk result (λ report. CanBeTold report.told) }
{
    let Ok(graph) = script.graph(alloc) else {
        return Err(AllocError);
    };
    match survey(alloc, script, &graph) {
        Ok(known) => {
            let refusal = refusal_of(alloc, &graph, &known)?;
            let page = draw(alloc, &graph, &refusal, no_faults)?;
            let told = told_by(known.refusal);
            Ok(Report { page, told })
        }
        Err(CertifyFault::Memory) => Err(AllocError),
        Err(fault) => {
            let page = draw(alloc, &graph, &None, no_faults)?;
            let told = told_by(Some(fault));
            Ok(Report { page, told })
        }
    }
}

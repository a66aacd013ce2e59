//! A verdict as lines of text, or as objects of JSON.

ghost use Rattle.std.specs.Prelude.{◌≡◌, ◌≢◌, [], All, IfOk, map};
ghost use Rattle.sdv_check.specs.Verified.{IsNoScript};
ghost use Rattle.sdv_script.specs.OneGraph.{IsGraphOfScript};
ghost use Rattle.sdv_script.specs.Script.{IsScript};
ghost use Rattle.sdv_script.specs.Shown.{shown};
ghost use Rattle.sdv_search.specs.Losses.{IsLoss};
ghost use Rattle.sdv_search.specs.Refuted.{IsRefutation};
ghost use Rattle.sdv_verdict.specs.Told.{IsTold, IsToldByVerdict};

use crate::allowed::Allowed;
use crate::judging::{Verdict, judge};
use crate::remark::{Remark, Severity};
use crate::run::{Below, Runs, doubts_of, losses_told, path_told, runs_told, text_of};
use crate::telling::{Subject, fault_remarks, remarks_of, unread_remark};
use sdv_explain::faults_of;
use sdv_graph::Graph;
use sdv_script::{FaultKind, Script, ScriptFault, parse};
use sdv_search::{Found, Loss, Refutation, find_losses, refute};
use sdv_telling::{Text, put, put_all, put_number, put_numbered};
use serde_json::{Value, json};
use std::alloc::{AllocError, Global};

/// The runs of a search count so much at most.
const BUDGET: u64 = 1_000_000;

/// The form of what is told.
#[derive(Clone, Copy, PartialEq, Eq)]
pub enum Form {
    /// A line for each remark, as compilers print them, and one for the script.
    Lines,
    /// An object of JSON a line.
    Json,
}

/// What is told of a script.
#[derive(Drop)]
pub struct Told {
    /// The lines or the objects.
    pub page: Text,
    /// The script is accepted, and nothing of its review counts.
    pub is_clear: bool,
    /// Runs that refute the script, if some were sought and found.
    pub runs: Vec<Refutation>,
    /// Runs of an accepted script that lose data, if some were.
    pub losses: Vec<Loss>,
}

/// What is told of a script by the name of its file: each fault of a text that is none, each statement that is refused, and what
/// a review finds and is not allowed; and at last the verdict.
///
/// # Errors
///
/// Memory was refused.
pub fn tell(
    alloc: Global,
    file: &str,
    allowed: Allowed<'_>,
    runs: Runs<'_>,
    form: Form,
) -> Result<Told, AllocError>
    ensures told { IfOk result (λ told. IsTold allowed.entry.text.now (map (λ kind. kind.now) allowed.entry.kinds.now)
        told.is_clear) }
    ensures runs { IfOk result (λ told. All (IsRefutation allowed.entry.text.now) told.runs.items) }
    ensures losses { IfOk result (λ told. All (IsLoss allowed.entry.text.now) told.losses.items) }
{
    match parse(alloc, allowed.text) {
        Ok(script) => tell_script(alloc, file, &script, allowed, runs, form),
        Err(fault) => tell_faults(alloc, file, allowed, fault, form),
    }
}

/// What is told of a file that cannot be used.
///
/// # Errors
///
/// Memory was refused.
pub fn tell_unread(alloc: Global, file: &str, form: Form) -> Result<Text, AllocError> {
    let mut remarks = Vec::new(alloc);
    remarks.push(unread_remark(alloc)?)?;
    let said = Said {
        file,
        remarks: &remarks,
        below: &[],
        outcome: Outcome::NotRead,
    };
    page_of(alloc, said, form)
}

/// What is told of a text that is no script.
fn tell_faults(
    alloc: Global,
    file: &str,
    allowed: Allowed<'_>,
    fault: ScriptFault,
    form: Form,
) -> Result<Told, AllocError>
    requires { fault.kind ≢ FaultKind.Memory → IsNoScript allowed.text.now }
    ensures runs { IfOk result (λ told. told.runs.items ≡ []) }
    ensures losses { IfOk result (λ told. told.losses.items ≡ []) }
    ensures told { IfOk result (λ told. IsTold allowed.entry.text.now (map (λ kind. kind.now) allowed.entry.kinds.now)
        told.is_clear) }
{
    if fault.kind == FaultKind::Memory {
        return Err(AllocError);
    }
    let remarks = fault_remarks(alloc, faults_of(alloc, allowed.text, fault)?)?;
    let said = Said {
        file,
        remarks: &remarks,
        below: &[],
        outcome: Outcome::NoScript,
    };
    Ok(Told {
        page: page_of(alloc, said, form)?,
        is_clear: false,
        runs: Vec::new(alloc),
        losses: Vec::new(alloc),
    })
}

/// What is told of a script.
fn tell_script(
    alloc: Global,
    file: &str,
    script: &Script<'_>,
    allowed: Allowed<'_>,
    runs: Runs<'_>,
    form: Form,
) -> Result<Told, AllocError>
    requires script { IsScript (shown script.now) }
    requires text { (shown script.now).text ≡ allowed.text.now }
    ensures told { IfOk result (λ told. IsToldByVerdict allowed.entry.text.now
        (map (λ kind. kind.now) allowed.entry.kinds.now) told.is_clear) }
    ensures runs { IfOk result (λ told. All (IsRefutation allowed.entry.text.now) told.runs.items) }
    ensures losses { IfOk result (λ told. All (IsLoss allowed.entry.text.now) told.losses.items) }
{
    let Ok(graph) = script.graph(alloc) else {
        return Err(AllocError);
    };
    let verdict = judge(alloc, script, &graph)?;
    let is_clear = allowed.is_clear(&graph, &verdict);
    let subject = Subject {
        allowed,
        graph: &graph,
    };
    let found = search_of(alloc, script, &graph, &verdict, runs)?;
    let remarks = remarks_of(alloc, subject, &verdict, found.unbreakable)?;
    let losses = losses_of(alloc, script, &graph, &remarks, runs)?;
    let below = below_of(alloc, file, &graph, (&found, &losses, runs), &remarks)?;
    let said = Said {
        file,
        remarks: &remarks,
        below: &below,
        outcome: outcome_of(&verdict),
    };
    let page = page_of(alloc, said, form)?;
    let Found {
        refutations,
        unbreakable: _,
        broken: _broken,
    } = found;
    Ok(Told {
        page,
        is_clear,
        runs: refutations,
        losses,
    })
}

/// What stands below the remarks: runs that refute the script or lose data, and what is told of a path.
fn below_of(
    alloc: Global,
    file: &str,
    graph: &Graph<'_>,
    (found, losses, runs): (&Found, &[Loss], Runs<'_>),
    remarks: &[Remark],
) -> Result<Vec<Below>, AllocError> {
    let mut below = runs_told(alloc, file, graph, (&found.refutations, runs), remarks)?;
    below.append(&mut losses_told(alloc, file, graph, (losses, runs), remarks)?)?;
    if let Some(path) = &found.broken {
        below.push(path_told(alloc, graph, path, remarks)?)?;
    }
    Ok(below)
}

/// What is found against a script that is refused at points, if runs are looked for.
fn search_of(
    alloc: Global,
    script: &Script<'_>,
    graph: &Graph<'_>,
    verdict: &Verdict,
    runs: Runs<'_>,
) -> Result<Found, AllocError>
    requires script { IsScript (shown script.now) }
    requires graph { IsGraphOfScript (shown script.now) graph.now }
    ensures { IfOk result (λ found. All (IsRefutation (shown script.now).text) found.refutations.items) }
{
    match verdict {
        Verdict::Refused { failures, .. } if runs.are_sought() => {
            let mut points = Vec::new(alloc);
            for failure in failures {
                points.push(failure.point)?;
            }
            refute(alloc, script, graph, &points, BUDGET)
        }
        _ => Ok(Found {
            refutations: Vec::new(alloc),
            unbreakable: false,
            broken: None,
        }),
    }
}

/// Runs of a script that lose data, one for each doubt of these remarks, if runs are looked for.
fn losses_of(
    alloc: Global,
    script: &Script<'_>,
    graph: &Graph<'_>,
    remarks: &[Remark],
    runs: Runs<'_>,
) -> Result<Vec<Loss>, AllocError>
    requires script { IsScript (shown script.now) }
    requires graph { IsGraphOfScript (shown script.now) graph.now }
    ensures { IfOk result (λ found. All (IsLoss (shown script.now).text) found.items) }
{
    if !runs.are_sought() {
        return Ok(Vec::new(alloc));
    }
    let doubts = doubts_of(alloc, remarks)?;
    find_losses(alloc, script, graph, &doubts, BUDGET)
}

/// How a script is judged.
#[derive(Clone, Copy)]
enum Outcome {
    NotRead,
    NoScript,
    Refused,
    Accepted { commands: u64, blocks: Option<u64> },
}

fn outcome_of(verdict: &Verdict) -> Outcome {
    match verdict {
        Verdict::Accepted { bound, given, .. } => Outcome::Accepted {
            commands: *bound,
            blocks: *given,
        },
        Verdict::TooMany | Verdict::Refused { .. } => Outcome::Refused,
    }
}

/// All that is said of a file.
#[derive(Clone, Copy)]
struct Said<'s> {
    file: &'s str,
    remarks: &'s [Remark],
    /// What is told below remarks.
    below: &'s [Below],
    outcome: Outcome,
}

fn page_of(alloc: Global, said: Said<'_>, form: Form) -> Result<Text, AllocError> {
    match form {
        Form::Lines => lines_of(alloc, said),
        Form::Json => objects_of(alloc, said),
    }
}

/// How many remarks weigh so much.
fn count(remarks: &[Remark], severity: Severity) -> u64 {
    remarks
        .iter()
        .filter(|remark| remark.severity == severity)
        .count() as u64
}

/// A line for each remark, and one for the script.
fn lines_of(alloc: Global, said: Said<'_>) -> Result<Text, AllocError> {
    let mut page = Vec::new(alloc);
    for (number, remark) in said.remarks.iter().enumerate() {
        put_remark(&mut page, said.file, remark)?;
        for below in said.below.iter().filter(|below| below.remark == number) {
            page.extend_from_slice(&below.lines)?;
        }
    }
    put_all(&mut page, &[said.file, ": "])?;
    match said.outcome {
        Outcome::NotRead => put(&mut page, "not read")?,
        Outcome::NoScript => put(&mut page, "no script")?,
        Outcome::Refused => put(&mut page, "refused")?,
        Outcome::Accepted { commands, blocks } => {
            let of_commands = if commands == 1 {
                " command"
            } else {
                " commands"
            };
            put_numbered(&mut page, "accepted, at most ", commands, of_commands)?;
            put_blocks(&mut page, blocks)?;
        }
    }
    put_counts(&mut page, said.remarks)?;
    put(&mut page, "\n")?;
    Ok(page)
}

/// Adds the most blocks that a script gives, if it gives any.
fn put_blocks(page: &mut Text, blocks: Option<u64>) -> Result<(), AllocError> {
    match blocks {
        None | Some(0) => Ok(()),
        Some(1) => put(page, ", gives at most 1 block"),
        Some(blocks) => put_numbered(page, ", gives at most ", blocks, " blocks"),
    }
}

/// Adds the line of a remark, that of the card beside which its statement is refused, and that of what may mend it.
fn put_remark(page: &mut Text, file: &str, remark: &Remark) -> Result<(), AllocError> {
    put_all(page, &[file, ":"])?;
    put_numbered(page, "", u64::from(remark.place.line), ":")?;
    put_numbered(page, "", remark.place.column as u64, ": ")?;
    put_all(page, &[remark.severity.word(), ": "])?;
    page.extend_from_slice(&remark.words)?;
    put_all(page, &[" [", remark.kind, "]\n"])?;
    if !remark.card.is_empty() {
        put(page, "    card     ")?;
        page.extend_from_slice(&remark.card)?;
        put(page, "\n")?;
    }
    if !remark.hint.is_empty() {
        put(page, "    hint     ")?;
        page.extend_from_slice(&remark.hint)?;
        put(page, "\n")?;
    }
    Ok(())
}

/// Adds how many errors, warnings and notes there are, if there are any.
fn put_counts(page: &mut Text, remarks: &[Remark]) -> Result<(), AllocError> {
    let mut front = " (";
    for severity in [Severity::Error, Severity::Warning, Severity::Note] {
        let number = count(remarks, severity);
        if number > 0 {
            put_numbered(page, front, number, " ")?;
            put_all(page, &[severity.word(), if number == 1 { "" } else { "s" }])?;
            front = ", ";
        }
    }
    put(page, if remarks.is_empty() { "" } else { ")" })
}

/// An object for each remark, and one for the script.
fn objects_of(alloc: Global, said: Said<'_>) -> Result<Text, AllocError> {
    let mut page = Vec::new(alloc);
    for (number, remark) in said.remarks.iter().enumerate() {
        let mut object = remark_object(alloc, said.file, remark)?;
        for below in said.below.iter().filter(|below| below.remark == number) {
            let told = &below.value;
            add(alloc, &mut object, below.member, json!(in alloc; told)?)?;
        }
        put_object(alloc, &mut page, object)?;
    }
    put_object(alloc, &mut page, verdict_object(alloc, said)?)?;
    Ok(page)
}

/// Adds the line of an object.
fn put_object(alloc: Global, page: &mut Text, object: Value) -> Result<(), AllocError> {
    let text = object.to_string(alloc)?;
    put_all(page, &[text.as_str(), "\n"])
}

/// A number, or null.
fn number_or_null(number: Option<usize>) -> Value {
    match number {
        Some(number) => Value::from(number as u64),
        None => Value::Null,
    }
}

fn remark_object(alloc: Global, file: &str, remark: &Remark) -> Result<Value, AllocError> {
    let (words, card) = (text_of(&remark.words), text_of(&remark.card));
    let (severity, kind) = (remark.severity.word(), remark.kind);
    let (line, column) = (remark.place.line, remark.place.column as u64);
    let point = number_or_null(remark.point);
    let mut object = json!(in alloc; {
        "file": file,
        "line": line,
        "column": column,
        "severity": severity,
        "kind": kind,
        "text": words,
        "point": point
    })?;
    if let Some(shape) = remark.shape {
        let mut digits = [0; 16];
        hex::encode_to_slice(shape.0.to_be_bytes(), &mut digits).unwrap();
        let digits = text_of(&digits);
        add(alloc, &mut object, "shape", json!(in alloc; digits)?)?;
        add(alloc, &mut object, "card", json!(in alloc; card)?)?;
    }
    if !remark.hint.is_empty() {
        let hint = text_of(&remark.hint);
        add(alloc, &mut object, "hint", json!(in alloc; hint)?)?;
    }
    Ok(object)
}

/// Adds a member to an object.
fn add(alloc: Global, object: &mut Value, name: &str, value: Value) -> Result<(), AllocError> {
    let key = String::from_str(alloc, name)?;
    if let Some(members) = object.as_object_mut() {
        members.insert(key, value)?;
    }
    Ok(())
}

fn verdict_object(alloc: Global, said: Said<'_>) -> Result<Value, AllocError> {
    let Said {
        file,
        remarks,
        outcome,
        ..
    } = said;
    let errors = count(remarks, Severity::Error);
    let warnings = count(remarks, Severity::Warning);
    let notes = count(remarks, Severity::Note);
    let object = match outcome {
        Outcome::Accepted { commands, blocks } => {
            let blocks = match blocks {
                Some(blocks) => Value::from(blocks),
                None => Value::Null,
            };
            json!(in alloc; {
                "file": file, "verdict": "accepted", "commands": commands, "blocks": blocks,
                "errors": errors, "warnings": warnings, "notes": notes
            })
        }
        Outcome::NotRead | Outcome::NoScript | Outcome::Refused => {
            let verdict = match outcome {
                Outcome::NotRead => "not read",
                Outcome::NoScript => "no script",
                _ => "refused",
            };
            json!(in alloc; {
                "file": file, "verdict": verdict,
                "errors": errors, "warnings": warnings, "notes": notes
            })
        }
    };
    object.map_err(|_| AllocError)
}

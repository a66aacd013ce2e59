//! What is said of a verdict, place by place.

use crate::allowed::{Allowed, is_warning};
use crate::causes::{Cause, causes_of};
use crate::columns::{Place, place_of_name, place_of_point, statement_places};
use crate::hints::{finding_hint, put_hint};
use crate::judging::Verdict;
use crate::loops::loops_once;
use crate::remark::{Remark, Severity};
use sdv_explain::{TextFault, TextFaults};
use sdv_facts::Certificate;
use sdv_graph::{Action, Graph};
use sdv_review::{Finding, Matter, Name, Status, kind_word, matter_words};
use sdv_script::FaultKind;
use sdv_search::Doubt;
use sdv_telling::{Beside, Text, put_numbered, put_reason, put_shape, refused_word};
use std::alloc::{AllocError, Global};

/// What is said where a script has too many shapes, or a run may send too many commands.
const TOO_MANY: &str =
    "a run may send more than 1099511627776 commands, or its statements meet more than 65536 shapes of cards in all; give loops fewer turns, or make two scripts of it";

/// What is said where a script is refused that no path of the state tables breaks.
const UNBROKEN: &str =
    "no card of the state tables breaks the script; it is refused because the certificate cannot tell some cases apart";

/// The word for a fault of a text.
fn fault_word(kind: FaultKind) -> &'static str {
    match kind {
        FaultKind::Token => "token",
        FaultKind::Syntax => "syntax",
        FaultKind::Name => "name",
        FaultKind::Command => "command",
        FaultKind::Argument => "argument",
        FaultKind::Guard => "guard",
        FaultKind::Limit => "limit",
        FaultKind::NoEnd => "no-end",
        FaultKind::Memory => "memory",
    }
}

/// What is said of a fault of a text.
fn fault_remark(alloc: Global, fault: TextFault) -> Remark {
    let TextFault {
        fault,
        column,
        words,
    } = fault;
    Remark {
        place: Place {
            line: fault.line,
            column,
        },
        severity: Severity::Error,
        kind: fault_word(fault.kind),
        words,
        card: Vec::new(alloc),
        hint: Vec::new(alloc),
        point: None,
        shape: None,
        doubt: None,
    }
}

/// What is said of the faults of a text.
pub fn fault_remarks(alloc: Global, faults: TextFaults) -> Result<Vec<Remark>, AllocError> {
    let TextFaults { first, further } = faults;
    let mut remarks = Vec::new(alloc);
    remarks.push(fault_remark(alloc, first))?;
    for fault in further {
        remarks.push(fault_remark(alloc, fault))?;
    }
    Ok(remarks)
}

/// A script, as a verdict is told of it.
#[derive(Clone, Copy)]
pub struct Subject<'s, 'g> {
    /// Its text, and what is allowed there.
    pub allowed: Allowed<'s>,
    /// Its graph.
    pub graph: &'s Graph<'g>,
}

/// What is said of a verdict, in the order of the text, and whether no path of the state tables breaks the script.
pub fn remarks_of(
    alloc: Global,
    subject: Subject<'_, '_>,
    verdict: &Verdict,
    is_unbroken: bool,
) -> Result<Vec<Remark>, AllocError> {
    let places = statement_places(alloc, subject.allowed.text)?;
    let mut remarks = Vec::new(alloc);
    match verdict {
        Verdict::TooMany => remarks.push(too_many(alloc)?)?,
        Verdict::Refused {
            failures,
            known,
            ..
        } => {
            for failure in failures {
                let place = place_of_point(subject.graph, &places, failure.point);
                for cause in causes_of(alloc, subject.graph, known, failure)? {
                    let at = (failure.point, place);
                    remarks.push(failure_remark(alloc, subject.graph, known, at, cause)?)?;
                }
            }
        }
        Verdict::Accepted { found, writes, .. } => {
            add_findings(alloc, subject, &places, found, &mut remarks)?;
            add_findings(alloc, subject, &places, writes, &mut remarks)?;
        }
    }
    add_loops(alloc, subject, &places, &mut remarks)?;
    remarks.sort_by_key(|remark| (remark.place.line, remark.place.column))?;
    if is_unbroken {
        let place = match remarks.first() {
            Some(remark) => remark.place,
            None => Place { line: 1, column: 1 },
        };
        remarks.push(unbroken_remark(alloc, place)?)?;
    }
    Ok(remarks)
}

/// The word for a loop that never turns twice.
const LOOP_ONCE: &str = "loop-once";

/// Adds what is said of loops that never turn twice.
fn add_loops(
    alloc: Global,
    subject: Subject<'_, '_>,
    places: &[Place],
    remarks: &mut Vec<Remark>,
) -> Result<(), AllocError> {
    let Subject { allowed, graph } = subject;
    for point in loops_once(alloc, graph)? {
        if !allowed.allows_note(LOOP_ONCE, graph, point) {
            remarks.push(loop_remark(alloc, graph, point, place_of_point(graph, places, point))?)?;
        }
    }
    Ok(())
}

/// What is said of a loop that never turns twice.
fn loop_remark(
    alloc: Global,
    graph: &Graph<'_>,
    point: usize,
    place: Place,
) -> Result<Remark, AllocError> {
    let mut words = Vec::new(alloc);
    if point < graph.len() {
        if let Action::Loop(turns, _, _) = &graph.point(point).action {
            let turns = u64::from(*turns);
            put_numbered(
                &mut words,
                "loop ",
                turns,
                " never turns twice: each way through its body leaves it",
            )?;
        }
    }
    Ok(Remark {
        place,
        severity: Severity::Note,
        kind: LOOP_ONCE,
        words,
        card: Vec::new(alloc),
        hint: Vec::new(alloc),
        point: Some(point),
        shape: None,
        doubt: None,
    })
}

/// What is said where a script is refused that no path of the state tables breaks.
fn unbroken_remark(alloc: Global, place: Place) -> Result<Remark, AllocError> {
    Ok(Remark {
        place,
        severity: Severity::Note,
        kind: "unbroken",
        words: Vec::from_slice(alloc, UNBROKEN.as_bytes())?,
        card: Vec::new(alloc),
        hint: Vec::new(alloc),
        point: None,
        shape: None,
        doubt: None,
    })
}

/// What is said of a file that cannot be used.
pub fn unread_remark(alloc: Global) -> Result<Remark, AllocError> {
    Ok(Remark {
        place: Place { line: 1, column: 1 },
        severity: Severity::Error,
        kind: "file",
        words: Vec::from_slice(alloc, b"the file cannot be opened or read, or is not UTF-8")?,
        card: Vec::new(alloc),
        hint: Vec::new(alloc),
        point: None,
        shape: None,
        doubt: None,
    })
}

/// What is said where there is too much.
fn too_many(alloc: Global) -> Result<Remark, AllocError> {
    Ok(Remark {
        place: Place { line: 1, column: 1 },
        severity: Severity::Error,
        kind: "too-many",
        words: Vec::from_slice(alloc, TOO_MANY.as_bytes())?,
        card: Vec::new(alloc),
        hint: Vec::new(alloc),
        point: None,
        shape: None,
        doubt: None,
    })
}

/// What is said of a point that fails for a cause.
fn failure_remark(
    alloc: Global,
    graph: &Graph<'_>,
    known: &Certificate,
    (point, place): (usize, Place),
    cause: Cause,
) -> Result<Remark, AllocError> {
    let Cause { why, shape } = cause;
    let mut remark = Remark {
        place,
        severity: Severity::Error,
        kind: "illegal",
        words: Vec::new(alloc),
        card: Vec::new(alloc),
        hint: Vec::new(alloc),
        point: Some(point),
        shape: Some(shape),
        doubt: None,
    };
    let (_table, points) = known.shown();
    if let Some(here) = points.get(point) {
        if point < graph.len() {
            let action = &graph.point(point).action;
            let beside = Beside {
                numbers: here.facts.numbers(),
                shape,
            };
            put_reason(&mut remark.words, graph, point, why, beside)?;
            put_shape(&mut remark.card, shape, &graph.names().flags)?;
            remark.kind = refused_word(action, why, shape);
            let is_unit = remark.kind == "address";
            put_hint(
                &mut remark.hint,
                graph,
                action,
                (why, shape.state()),
                is_unit,
            )?;
        }
    }
    Ok(remark)
}

/// Adds what is said of findings that are not allowed.
fn add_findings(
    alloc: Global,
    subject: Subject<'_, '_>,
    places: &[Place],
    found: &[Finding],
    remarks: &mut Vec<Remark>,
) -> Result<(), AllocError> {
    for finding in found {
        if !subject.allowed.allows(subject.graph, finding) {
            remarks.push(finding_remark(alloc, subject, places, finding)?)?;
        }
    }
    Ok(())
}

/// What is said of a finding.
fn finding_remark(
    alloc: Global,
    subject: Subject<'_, '_>,
    places: &[Place],
    finding: &Finding,
) -> Result<Remark, AllocError> {
    let Subject { allowed, graph } = subject;
    let place = match (finding.matter, finding.point) {
        (Matter::Unread(name), _) => place_of_name(allowed.text, name_of(graph, name)),
        (_, Some(point)) => place_of_point(graph, places, point),
        (_, None) => Place { line: 1, column: 1 },
    };
    let severity = if is_warning(finding.matter) {
        Severity::Warning
    } else {
        Severity::Note
    };
    Ok(Remark {
        place,
        severity,
        kind: kind_word(finding.matter),
        words: matter_words(alloc, graph, finding.point, finding.matter)?,
        card: Vec::new(alloc),
        hint: Vec::from_slice(alloc, finding_hint(finding.matter).as_bytes())?,
        point: finding.point,
        shape: None,
        doubt: doubt_of(finding),
    })
}

/// The point of the command of the write or the erase of a status.
fn command_of(status: Status) -> Option<usize> {
    match status {
        Status::Open(write) | Status::Failed(write) | Status::Left { write, .. } => Some(write),
        Status::EraseOpen(erase) | Status::EraseFailed(erase) => Some(erase.first),
        Status::EraseLeft { erase, .. } => Some(erase),
        Status::Quiet | Status::Unknown => None,
    }
}

/// The `done` of a finding, and the write or the erase that may not have been made there.
fn doubt_of(finding: &Finding) -> Option<Doubt> {
    let Matter::Unstored(status) = finding.matter else {
        return None;
    };
    Some(Doubt {
        done: finding.point?,
        command: command_of(status)?,
    })
}

/// The name that a script declares in this place.
fn name_of<'g>(graph: &'g Graph<'_>, name: Name) -> &'g str {
    let names = graph.names();
    let found = match name {
        Name::Number(place) => names.numbers.get(place),
        Name::Flag(place) => names.flags.get(place),
    };
    match found {
        Some(found) => found,
        None => "",
    }
}

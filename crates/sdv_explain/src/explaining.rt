//! The explanation of a script.

ghost use Rattle.std.specs.Prelude.{◌≡◌, [], IfNone, IfOk, IfSome, None};
ghost use Rattle.sdv_explain.specs.Explained.{IsRefusal};

use crate::failing::Failure;
use crate::known::known_at;
use crate::refusal::{Refusal, refusal_of};
use sdv_certify::ScriptSurvey;
use sdv_facts::Certificate;
use sdv_graph::Graph;
use sdv_telling::{Beside, Text, put, put_listing, put_refused, put_way};
use std::alloc::{AllocError, Global};

/// What is explained of a script: why it is refused, if it is, and the words for that.
#[derive(Drop)]
pub struct Explanation {
    /// Why the script is refused, if it is.
    pub refusal: Option<Refusal>,
    /// Which statement is refused beside which card, and why, on four lines; empty where the script is not refused.
    pub reason: Text,
    /// The way there, and then each further point that fails; empty where the script is not refused.
    pub way: Text,
    /// What is known at each point. It begins with an empty line where the script is refused.
    pub listing: Text,
}

/// What is known at each point of a script, and why it is refused where it is, by a survey of its graph.
///
/// # Errors
///
/// Memory was refused.
pub fn explain(
    alloc: Global,
    graph: &Graph<'_>,
    survey: &ScriptSurvey,
) -> Result<Explanation, AllocError>
    ensures none { IfOk result (λ e. IfNone e.refusal (survey.now.refusal ≡ None)) }
    ensures refusal { IfOk result (λ e. IfSome e.refusal (IsRefusal graph.now survey.now)) }
    ensures quiet { IfOk result (λ e. IfNone e.refusal ((e.reason.items ≡ []) × (e.way.items ≡ []))) }
{
    match refusal_of(alloc, graph, survey)? {
        Some(refusal) => explain_refusal(alloc, graph, &survey.known, refusal),
        None => Ok(Explanation {
            refusal: None,
            reason: Vec::new(alloc),
            way: Vec::new(alloc),
            listing: listing_words(alloc, graph, &survey.known, "")?,
        }),
    }
}

/// The explanation of a refusal.
fn explain_refusal(
    alloc: Global,
    graph: &Graph<'_>,
    known: &Certificate,
    refusal: Refusal,
) -> Result<Explanation, AllocError>
    ensures { IfOk result (λ e. e.refusal ≡ Some refusal) }
{
    let mut reason = Vec::new(alloc);
    if let Some(failure) = &refusal.refused {
        put_failure(&mut reason, graph, known, failure)?;
    }
    let way = way_words(alloc, graph, known, &refusal)?;
    let listing = listing_words(alloc, graph, known, "\n")?;
    Ok(Explanation {
        refusal: Some(refusal),
        reason,
        way,
        listing,
    })
}

/// Adds which statement is refused beside which card, and why.
fn put_failure(
    text: &mut Text,
    graph: &Graph<'_>,
    known: &Certificate,
    failure: &Failure,
) -> Result<(), AllocError> {
    if graph.len() <= failure.point {
        return Ok(());
    }
    let Some(here) = known_at(known, failure.point) else {
        return Ok(());
    };
    let beside = Beside {
        numbers: here.numbers,
        shape: failure.shape,
    };
    put_refused(text, graph, failure.point, failure.why, beside)
}

/// The way to what is refused, and then each further point that fails, behind an empty line.
fn way_words(
    alloc: Global,
    graph: &Graph<'_>,
    known: &Certificate,
    refusal: &Refusal,
) -> Result<Text, AllocError> {
    let mut text = Vec::new(alloc);
    put_way(&mut text, graph, &refusal.way)?;
    let [_, further @ ..] = refusal.failures.as_slice() else {
        return Ok(text);
    };
    for failure in further {
        put(&mut text, "\n")?;
        put_failure(&mut text, graph, known, failure)?;
    }
    Ok(text)
}

/// What is known at each point, behind a front.
fn listing_words(
    alloc: Global,
    graph: &Graph<'_>,
    known: &Certificate,
    front: &str,
) -> Result<Text, AllocError> {
    let mut text = Vec::new(alloc);
    put(&mut text, front)?;
    put_listing(alloc, &mut text, graph, known)?;
    Ok(text)
}

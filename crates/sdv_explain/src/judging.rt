//! What the checker says of a certificate, and why it refuses one.

ghost use Rattle.std.specs.Prelude.{◌≡◌, ℕ, IfOk, List};
ghost use Rattle.sdv_check.specs.Verified.{IsGraphOfText};
ghost use Rattle.sdv_explain.specs.Judged.{Judges, accepted_words};

use sdv_check::{CertFault, CheckFault, check, read};
use sdv_facts::Certificate;
use sdv_graph::Graph;
use sdv_telling::{Text, put, put_numbered, put_place, put_with_number};
use std::alloc::{AllocError, Global};

/// Why a certificate is refused.
#[derive(Clone, Copy, Debug, PartialEq, Eq)]
pub enum CertificateRefusal {
    /// Its text is that of no certificate.
    NoCertificate(CertFault),
    /// It is not closed for the script.
    Open(CheckFault),
}

/// What the checker says of a script and a certificate.
#[derive(Drop)]
pub struct Verdict {
    /// That they are accepted, or why they are not.
    pub words: Text,
    /// Why they are refused, if they are.
    pub refusal: Option<CertificateRefusal>,
}

/// What the checker says of a certificate, by its text, for the graph of a script.
///
/// # Errors
///
/// Memory was refused.
pub fn judge(alloc: Global, graph: &Graph<'_>, certificate: &str) -> Result<Verdict, AllocError>
    ensures { IfOk result (λ verdict. (script : List ℕ) → IsGraphOfText script graph.now
        → Judges script certificate.entry.now verdict) }
{
    let certificate = match read(alloc, certificate) {
        Ok(certificate) => certificate,
        Err(CertFault::Memory) => return Err(AllocError),
        Err(fault) => {
            return Ok(Verdict {
                words: text_page(alloc, fault)?,
                refusal: Some(CertificateRefusal::NoCertificate(fault)),
            });
        }
    };
    match check(graph, &certificate) {
        Ok(bound) => Ok(Verdict {
            words: accepted_page(alloc, bound)?,
            refusal: None,
        }),
        Err(fault) => Ok(Verdict {
            words: refusal_page(alloc, graph, &certificate, fault)?,
            refusal: Some(CertificateRefusal::Open(fault)),
        }),
    }
}

fn accepted_page(alloc: Global, bound: u64) -> Result<Text, AllocError>
    ensures { IfOk result (λ page. page.items ≡ accepted_words bound) }
{
    let mut page = Vec::new(alloc);
    put_numbered(&mut page, "accepted ", bound, "\n")?;
    Ok(page)
}

/// Why a text is no certificate.
fn text_page(alloc: Global, fault: CertFault) -> Result<Text, AllocError> {
    let mut page = Vec::new(alloc);
    let (before, line, after) = match fault {
        CertFault::Syntax { line } => ("line ", line, " is not of the form of a certificate\n"),
        CertFault::Order { line } => ("the shapes of line ", line, " do not rise\n"),
        CertFault::Header => (
            "line ",
            1,
            " is not that of a certificate, `sdv-cert 1` or `sdv-cert 2`\n",
        ),
        CertFault::Limit => {
            put(&mut page, "the certificate passes a limit\n")?;
            return Ok(page);
        }
        CertFault::Memory => {
            put(&mut page, "out of memory\n")?;
            return Ok(page);
        }
    };
    put_numbered(&mut page, before, u64::from(line), after)?;
    Ok(page)
}

/// The point of the script at which a clause fails, if it fails at one.
fn point_of(fault: CheckFault) -> Option<usize> {
    match fault {
        CheckFault::Points | CheckFault::Start => None,
        CheckFault::Illegal(point)
        | CheckFault::Address(point)
        | CheckFault::Shape(point)
        | CheckFault::Number(point)
        | CheckFault::Bound(point)
        | CheckFault::EndState(point) => Some(point),
    }
}

/// The words of a clause that fails.
fn clause_words(fault: CheckFault) -> &'static str {
    match fault {
        CheckFault::Points => {
            "a point has other loops or number variables than in the script: the certificate is of another script\n"
        }
        CheckFault::Start => {
            "the certificate says more than is known of a card before its first command\n"
        }
        CheckFault::Illegal(_) => {
            ": it is not legal for a card that the certificate lets come here\n"
        }
        CheckFault::Address(_) => {
            ": the certificate does not show that the card has these blocks, or it lets a card with another unit of addresses come here\n"
        }
        CheckFault::Shape(_) => ": the certificate leaves out a card that may come after it\n",
        CheckFault::Number(_) => {
            ": the certificate says more of the numbers after it than is known\n"
        }
        CheckFault::Bound(_) => {
            ": the certificate's bound is too low here, or too high at a point that follows\n"
        }
        CheckFault::EndState(_) => {
            ": the certificate lets a card come here that is not in tran state\n"
        }
    }
}

/// Why a certificate is not closed for the graph of a script.
fn refusal_page(
    alloc: Global,
    graph: &Graph<'_>,
    certificate: &Certificate,
    fault: CheckFault,
) -> Result<Text, AllocError> {
    let mut page = Vec::new(alloc);
    let (_table, points) = certificate.shown();
    if fault == CheckFault::Points && points.len() != graph.len() {
        let (has, wants) = (points.len() as u64, graph.len() as u64);
        put_numbered(
            &mut page,
            "this certificate has ",
            has,
            " points and the script ",
        )?;
        put_numbered(&mut page, "", wants, ": it is of another script\n")?;
        return Ok(page);
    }
    match point_of(fault) {
        Some(point) if point < graph.len() => put_place(&mut page, graph, point)?,
        Some(point) => put_with_number(&mut page, "point ", point as u64)?,
        None => {}
    }
    put(&mut page, clause_words(fault))?;
    Ok(page)
}

//! Certificates, read from their texts.

ghost use Rattle.std.specs.Prelude.{◌≡◌, ◌≢◌, ◌<◌, ◌≤◌, List, length, IfOk, IfErr, Err, All};
ghost use Rattle.sdv_facts.specs.Facts.{Certificate as Facts};
ghost use Rattle.sdv_facts.specs.CertificateText.{text_of, max_bytes, max_points, WithinLimits};
ghost use Rattle.sdv_facts.specs.Shared.{certificate_in, points_in, sets_of, IsNamed};
ghost use Rattle.sdv_check.specs.Reading.{Gives, read_version, read_count, read_lines, read_certificate, read_text};
ghost use Rattle.sdv_check.specs.declared.text.fault.CertFault.TheVariants.{Limit};

use crate::text::cursor::{TextCursor, expect, line_end, takes};
use crate::text::fault::CertFault;
use crate::text::items::number;
use crate::text::points::{NamedPoints, points};
use sdv_facts::{Certificate, MAX_BYTES, Version, words};
use sdv_graph::MAX_STATEMENTS;
use std::alloc::Global;

/// The certificate that a text is.
///
/// # Errors
///
/// The first fault from left to right, but [`CertFault::Limit`] at once for a text of more than 16,777,216 bytes.
/// [`CertFault::Memory`] comes only where memory was refused.
pub fn read(alloc: Global, text: &str) -> Result<Certificate, CertFault>
    ensures found { IfOk result (λ c. WithinLimits c × (text.entry.now ≡ text_of c)) }
    // Unless memory was refused, a text that is refused is that of no certificate within the limits.
    ensures only { IfErr result (λ f. f ≢ CertFault.Memory →
        (c : Facts) → WithinLimits c → text.entry.now ≡ text_of c → ⊥) }
    ensures long { max_bytes < length text.entry.now → result ≡ Err Limit }
{
    let (version, (table, points)) = whole(alloc, text.as_bytes())?;
    Ok(Certificate::from_points(version, table, points))
}

/// A text is that of one certificate at most.
pub fn one_certificate()
    ensures { (a b : Facts) → WithinLimits a → WithinLimits b → text_of a ≡ text_of b → a ≡ b }
{}

// How many points there are.
#[tactic(auto, unfolding(crate::specs::Reading::read_count))]
fn count(at: &mut TextCursor<'_>) -> Result<u64, CertFault>
    ensures read { Gives (λ x. (x, at.new.rest.now)) result (read_count at.old.rest.now) }
    ensures few { IfOk result (λ x. x ≤ max_points) }
{
    expect(at, words::POINTS)?;
    let count = number(at)?;
    if count > MAX_STATEMENTS as u64 {
        return Err(CertFault::Limit);
    }
    line_end(at)?;
    Ok(count)
}

/// The points with their table of sets, which stand behind the first line of a certificate's text.
///
/// # Errors
///
/// Those of [`read`], but [`CertFault::Header`].
#[tactic(auto, unfolding(crate::specs::Reading::read_lines))]
pub fn lines(alloc: Global, version: Version, at: TextCursor<'_>) -> Result<NamedPoints, CertFault>
    ensures read { Gives (λ x. points_in x.0 x.1.items) result (read_lines version at.entry.rest.now) }
    ensures named { IfOk result (λ x. All (IsNamed x.0) x.1.items) }
    ensures table { IfOk result (λ x. x.0 ≡ sets_of (points_in x.0 x.1.items)) }
{
    let mut at = at;
    let count = count(&mut at)?;
    let points = points(alloc, version, count, &mut at)?;
    if !at.rest.is_empty() {
        return Err(CertFault::Syntax { line: at.line });
    }
    Ok(points)
}

// The version that the first line says, and what follows it.
#[tactic(auto, unfolding(crate::specs::Reading::read_version))]
fn version(text: &[u8]) -> Result<(Version, TextCursor<'_>), CertFault>
    ensures { Gives (λ x. (x.0, x.1.rest.now)) result (read_version text.now) }
{
    let mut at = TextCursor {
        rest: text,
        line: 2,
    };
    if takes(&mut at, words::VERSION_1) {
        return Ok((Version::One, at));
    }
    if takes(&mut at, words::VERSION_2) {
        return Ok((Version::Two, at));
    }
    Err(CertFault::Header)
}

/// A version, and points with their table of sets.
type VersionedPoints = (Version, NamedPoints);

// The version and the points of a text that is not too long.
#[tactic(auto, unfolding(crate::specs::Reading::read_certificate))]
fn certificate(alloc: Global, text: &[u8]) -> Result<VersionedPoints, CertFault>
    ensures read { Gives (λ x. certificate_in x.1.0 x.0 x.1.1.items) result (read_certificate text.now) }
    ensures named { IfOk result (λ x. All (IsNamed x.1.0) x.1.1.items) }
    ensures table { IfOk result (λ x. x.1.0 ≡ sets_of (points_in x.1.0 x.1.1.items)) }
{
    let (version, at) = version(text)?;
    let points = lines(alloc, version, at)?;
    Ok((version, points))
}

// The version and the points of a text.
#[tactic(auto, unfolding(crate::specs::Reading::read_text))]
fn whole(alloc: Global, text: &[u8]) -> Result<VersionedPoints, CertFault>
    ensures read { Gives (λ x. certificate_in x.1.0 x.0 x.1.1.items) result (read_text text.now) }
    ensures named { IfOk result (λ x. All (IsNamed x.1.0) x.1.1.items) }
    ensures table { IfOk result (λ x. x.1.0 ≡ sets_of (points_in x.1.0 x.1.1.items)) }
    ensures long { max_bytes < length text.now → result ≡ Err Limit }
{
    if text.len() > MAX_BYTES {
        return Err(CertFault::Limit);
    }
    certificate(alloc, text)
}

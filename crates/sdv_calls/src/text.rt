//! Reading the text of a driver's certificate.

ghost use Rattle.std.specs.Prelude.{◌≡◌, ◌≢◌, List, IfOk, IfErr};
ghost use Rattle.sdv_facts.specs.Facts.{PointFacts};
ghost use Rattle.sdv_calls.specs.Text.{driver_text, saying, WithinDriverLimits};

use sdv_check::{CertFault, TextCursor, lines};
use sdv_facts::{Certificate, MAX_BYTES, Version};
use std::alloc::Global;

/// The first line of a driver's certificate.
pub const VERSION_3: &[u8] = b"sdv-cert 3\n";

/// What the certificate of a driver that a text is says of points.
///
/// # Errors
///
/// The first fault from left to right, but [`CertFault::Limit`] at once for a text of more than 16,777,216 bytes.
/// [`CertFault::Memory`] comes only where memory was refused.
pub fn read_driver(alloc: Global, text: &str) -> Result<Certificate, CertFault>
    ensures found { IfOk result (λ c. (c ≡ saying c.points) × WithinDriverLimits c.points
        × (text.entry.now ≡ driver_text c.points)) }
    // Unless memory was refused, a text that is refused is that of no certificate within the limits.
    ensures only { IfErr result (λ f. f ≢ CertFault.Memory →
        (ps : List PointFacts) → WithinDriverLimits ps → text.entry.now ≡ driver_text ps → ⊥) }
{
    if text.len() > MAX_BYTES {
        return Err(CertFault::Limit);
    }
    let Some(rest) = text.as_bytes().strip_prefix(VERSION_3) else {
        return Err(CertFault::Header);
    };
    let at = TextCursor { rest, line: 2 };
    let (table, points) = lines(alloc, Version::Two, at)?;
    Ok(Certificate::from_points(Version::Two, table, points))
}

/// A text says one thing of points at most.
pub fn one_driver_certificate()
    ensures { (ps qs : List PointFacts) → WithinDriverLimits ps → WithinDriverLimits qs → driver_text ps ≡ driver_text qs
        → ps ≡ qs }
{}

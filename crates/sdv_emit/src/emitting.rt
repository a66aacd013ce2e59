//! Scripts and certificates, as tables in C.

ghost use Rattle.std.specs.Prelude.{◌≡◌, Err, IfErr, IfOk, true, false};
ghost use Rattle.sdv_emit.specs.Emitted.{EmitFails, Emits, EmitsGraph, HasNoTable};
ghost use Rattle.sdv_emit.specs.Identifier.{is_identifier};

use crate::array::{Labels, c_text, little_endian};
use crate::fault::EmitFault;
use crate::identifier::is_identifier;
use sdv_check::{Accepted, VerifyFault, verify};
use sdv_table::{TableFault, encode};
use std::alloc::Global;

/// The table of an accepted script.
#[derive(Drop)]
pub struct Emitted {
    /// Its text in C.
    pub text: Vec<u8>,
    /// Its bytes, four a word, the lowest first.
    pub binary: Vec<u8>,
}

/// The table of a script, by its text and the text of a certificate.
///
/// # Errors
///
/// [`EmitFault::Name`] where the array cannot have its name, else [`EmitFault::Verify`] where the certificate is not
/// closed for the script's graph, else [`EmitFault::Wide`] where a part of the graph has no room in a table.
/// [`EmitFault::Memory`] comes only where memory was refused.
pub fn emit(
    alloc: Global,
    script: &str,
    certificate: &str,
    labels: &Labels<'_>,
) -> Result<Emitted, EmitFault>
    ensures emitted { IfOk result (Emits script.now certificate.now labels.now.file.now labels.now.name.now) }
    ensures fails { IfErr result (EmitFails script.now certificate.now labels.now.name.now) }
    ensures name { is_identifier labels.now.name.now ≡ false → result ≡ Err EmitFault.Name }
{
    if !is_identifier(labels.name) {
        return Err(EmitFault::Name);
    }
    match verify(alloc, script, certificate) {
        Ok(accepted) => emit_accepted(alloc, &accepted, labels),
        Err(VerifyFault::Memory) => Err(EmitFault::Memory),
        Err(fault) => Err(EmitFault::Verify(fault)),
    }
}

/// The table of an accepted script.
fn emit_accepted(
    alloc: Global,
    accepted: &Accepted<'_>,
    labels: &Labels<'_>,
) -> Result<Emitted, EmitFault>
    requires name { is_identifier labels.now.name.now ≡ true }
    ensures emitted { IfOk result (EmitsGraph accepted.now labels.now.file.now labels.now.name.now) }
    ensures fails { IfErr result (HasNoTable accepted.now.graph) }
{
    let graph = accepted.graph();
    let bound = accepted.bound();
    let words = match encode(alloc, graph, bound) {
        Ok(words) => words,
        Err(TableFault::Wide(part)) => return Err(EmitFault::Wide(part)),
        Err(TableFault::Memory) => return Err(EmitFault::Memory),
    };
    let binary = little_endian(alloc, words.as_slice())?;
    let text = c_text(alloc, labels, bound, graph, words.as_slice())?;
    Ok(Emitted { text, binary })
}

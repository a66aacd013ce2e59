//! Rows of which any allocation may be refused: each call then answers that memory ran out, and no run has begun.
//!
//! With ample memory each row is right. The script `checks/each-allocation` runs the test once for each of its
//! allocations, which is refused then, so that one row at most is without an answer.

use crate::failing_once::files::file_of;
use crate::failing_once::worked::fuse;
use crate::requests::{INPUT, WRITES_AND_READ};
use crate::scripts::name_of;
use crate::texts::{BLOCK_CARD, BLOCK_CARD_UP, BYTE_CARD, LAST_BLOCK};
use sdv_block::{BlockFault, Request, batch, serve};
use sdv_certify::{CertifyFault, certify, write};
use sdv_check::{Accepted, VerifyFault, verify};
use sdv_controller::Controller;
use sdv_facts::Certificate;
use sdv_fuse::Call;
use sdv_image::{FileImage, Image};
use sdv_registers::Kind;
use sdv_run::{End, RunFault, run};
use sdv_script::{FaultKind, ScriptFault, parse};
use sdv_sim::{CardDesc, MemImage, Sim, SimFault};
use std::alloc::{AllocError, Global};
use std::io;
use std::test::Fail;

/// Why a row has no answer.
#[derive(Clone, Copy)]
enum Stopped {
    /// A call answered that memory ran out.
    Memory,
    /// Something else came than what is right.
    Wrong(&'static str),
}

impl From<AllocError> for Stopped {
    fn from(_: AllocError) -> Stopped {
        Stopped::Memory
    }
}

/// What stops a row where a call was refused.
fn refused_by(is_memory: bool, call: &'static str) -> Stopped {
    if is_memory {
        Stopped::Memory
    } else {
        Stopped::Wrong(call)
    }
}

impl From<ScriptFault> for Stopped {
    fn from(fault: ScriptFault) -> Stopped {
        refused_by(fault.kind == FaultKind::Memory && fault.line == 0, "parse")
    }
}

impl From<CertifyFault> for Stopped {
    fn from(fault: CertifyFault) -> Stopped {
        refused_by(fault == CertifyFault::Memory, "certify")
    }
}

impl From<VerifyFault> for Stopped {
    fn from(fault: VerifyFault) -> Stopped {
        refused_by(fault == VerifyFault::Memory, "verify")
    }
}

impl From<SimFault> for Stopped {
    fn from(fault: SimFault) -> Stopped {
        refused_by(fault == SimFault::Memory, "card")
    }
}

impl From<BlockFault> for Stopped {
    fn from(fault: BlockFault) -> Stopped {
        refused_by(fault == BlockFault::Memory, "batch")
    }
}

/// Goes on where what was found is right.
fn right(is_right: bool, what: &'static str) -> Result<(), Stopped> {
    if is_right {
        Ok(())
    } else {
        Err(Stopped::Wrong(what))
    }
}

/// A script's certificate.
fn certified(alloc: Global, script: &str) -> Result<Certificate, Stopped> {
    let script = parse(alloc, script)?;
    Ok(certify(alloc, &script)?)
}

/// The text of a certificate. A vector takes it, or is refused memory.
fn text_of(alloc: Global, certificate: &Certificate) -> Result<String, Stopped> {
    let mut text = Vec::new(alloc);
    match write(certificate, &mut text) {
        Ok(()) => String::from_utf8(text).map_err(|_| Stopped::Wrong("the certificate")),
        Err(_) => Err(Stopped::Memory),
    }
}

/// The text of a script's certificate.
fn certificate_of(alloc: Global, script: &str) -> Result<String, Stopped> {
    text_of(alloc, &certified(alloc, script)?)
}

/// A card of a description, over an image of zeros.
fn card(alloc: Global, text: &str, schedule: &[u8]) -> Result<Controller<Sim<MemImage>>, Stopped> {
    let desc = CardDesc::parse(text)?;
    let bytes = vec![in alloc; 0; (desc.capacity as usize).saturating_mul(512)]?;
    let sim = Sim::new(alloc, desc, MemImage::from_bytes(bytes)?, schedule)?;
    Ok(Controller::new(sim))
}

/// How a row ends whose run is right, or was refused memory before it was.
fn ended(is_right: bool, is_refused: bool) -> Result<(), Stopped> {
    match (is_right, is_refused) {
        (true, false) => Ok(()),
        (true, true) => Err(Stopped::Memory),
        (false, _) => Err(Stopped::Wrong("the run")),
    }
}

/// As many bytes as a trace may have.
const ROOM: usize = 2048;

/// The schedule of the script's run, in which an answer is lost.
const SCHEDULE: [u8; 4] = [0, 0, 0, 2];

/// The lines up to the loss of that answer.
const LOST: &str = "CMD0 00000000 -
CMD8 000001aa timeout
CMD55 00000000 R1 00000120
CMD41 40ff8000 timeout
fault lost41
";

/// An accepted script is run. Where the run is refused memory, it has not begun, and a second one is whole: an event
/// more would have met another value of the schedule.
fn ran(
    alloc: Global,
    accepted: &Accepted<'_>,
    port: &mut Controller<Sim<MemImage>>,
) -> Result<(), Stopped> {
    let mut trace = [0; ROOM];
    let mut left = trace.as_mut_slice();
    let mut outcome = run(alloc, accepted, port, &[], &mut io::sink(), &mut left);
    let is_refused = matches!(outcome, Err(RunFault::Memory));
    let is_unbegun = !is_refused || left.len() == ROOM;
    if is_refused {
        outcome = run(alloc, accepted, port, &[], &mut io::sink(), &mut left);
    }
    let count = ROOM.saturating_sub(left.len());
    let is_right = is_unbegun
        && name_of(&outcome) == "lost41"
        && trace.get(..count) == Some(LOST.as_bytes());
    ended(is_right, is_refused)
}

/// A script is certified, verified and run.
fn script(alloc: Global) -> Result<(), Stopped> {
    let certificate = certificate_of(alloc, LAST_BLOCK)?;
    let accepted = verify(alloc, LAST_BLOCK, &certificate)?;
    right(accepted.bound() == 2008, "the bound")?;
    let mut port = card(alloc, BYTE_CARD, &SCHEDULE)?;
    ran(alloc, &accepted, &mut port)
}

/// The lines of the requests that are served, behind a bring-up.
const SERVED: &str = "CMD24 00000003 R1 00000900
OUT 1 ok
WAIT ok
CMD13 12340000 R1 00000900
CMD24 00000003 R1 00000900
OUT 1 ok
WAIT ok
CMD13 12340000 R1 00000900
CMD17 00000003 R1 00000900
IN 1 ok
done
";

/// Serves the requests, and again where that is refused memory, which it is before it begins: whether what came is
/// right, and whether memory was refused.
fn served(alloc: Global, lines: &str, port: &mut Controller<Sim<MemImage>>) -> (bool, bool) {
    let (mut output, mut trace) = ([0; 512], [0; ROOM]);
    let (mut out, mut left) = (output.as_mut_slice(), trace.as_mut_slice());
    let kind = Kind::Sd;
    let mut end = serve(
        alloc,
        kind,
        WRITES_AND_READ,
        port,
        &INPUT,
        &mut out,
        &mut left,
    );
    let is_refused = matches!(end, Err(BlockFault::Memory));
    let is_unbegun = !is_refused || (out.len(), left.len()) == (512, ROOM);
    if is_refused {
        end = serve(
            alloc,
            kind,
            WRITES_AND_READ,
            port,
            &INPUT,
            &mut out,
            &mut left,
        );
    }
    let count = ROOM.saturating_sub(left.len());
    let is_right = is_unbegun
        && matches!(end, Ok(End::Done))
        && trace.get(..count) == Some(lines.as_bytes())
        && output == [0x22; 512];
    (is_right, is_refused)
}

fn requests(alloc: Global) -> Result<(), Stopped> {
    let lines = format!(in alloc; "{BLOCK_CARD_UP}{SERVED}")?;
    let mut port = card(alloc, BLOCK_CARD, &[])?;
    let (is_right, is_refused) = served(alloc, &lines, &mut port);
    let image = port.into_wire().into_image().into_bytes();
    ended(is_right && has_one_block(&image), is_refused)
}

/// Block 3 has what was written, and all others have zeros.
fn has_one_block(image: &[u8]) -> bool {
    let mut is_right = true;
    for (place, byte) in image.iter().enumerate() {
        is_right = is_right && *byte == if place / 512 == 3 { 0x22 } else { 0 };
    }
    is_right
}

/// Requests that are refused.
fn refused_requests(alloc: Global) -> Result<(), Stopped> {
    let none = batch(alloc, Kind::Sd, &[]).err();
    right(none == Some(BlockFault::Empty), "no request")?;
    let empty = [Request::Read { first: 0, count: 0 }];
    let refused = batch(alloc, Kind::Sd, &empty).err();
    right(refused == Some(BlockFault::Range), "no block")
}

static BEYOND: [Request; 1] = [Request::Read {
    first: 1024,
    count: 1,
}];

/// Requests that are refused, and one beyond the end of the card.
fn batches(alloc: Global) -> Result<(), Stopped> {
    refused_requests(alloc)?;
    let mut port = card(alloc, BLOCK_CARD, &[])?;
    let (mut out, mut trace) = (io::sink(), io::sink());
    let kind = Kind::Sd;
    let end = serve(alloc, kind, &BEYOND, &mut port, &[], &mut out, &mut trace)?;
    right(name_of(&Ok(end)) == "beyond", "the end")
}

/// An image over a file.
fn files(alloc: Global) -> Result<(), Stopped> {
    let file = file_of(alloc, fuse(Call::Read, None))?;
    right(FileImage::new(alloc, file)?.len() == 1024, "the length")
}

#[derive(Clone, Copy, Debug)]
enum Row {
    Script,
    Requests,
    Batches,
    Files,
}

static ROWS: [Row; 4] = [Row::Script, Row::Requests, Row::Batches, Row::Files];

fn found(alloc: Global, row: Row) -> Result<(), Stopped> {
    match row {
        Row::Script => script(alloc),
        Row::Requests => requests(alloc),
        Row::Batches => batches(alloc),
        Row::Files => files(alloc),
    }
}

/// Each row is right, but for one where memory ran out.
#[test]
fn one_allocation_is_refused(rt: HostRuntime) -> Result<(), Fail> {
    let mut refused: u8 = 0;
    for row in ROWS {
        match found(rt.alloc(), row) {
            Ok(()) => {}
            Err(Stopped::Memory) => refused = refused.saturating_add(1),
            Err(Stopped::Wrong(what)) => assert!(&rt; false, "{row:?}: {what}"),
        }
    }
    assert!(&rt; refused < 2);
    Ok(())
}

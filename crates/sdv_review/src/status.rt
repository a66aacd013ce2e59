//! The status of writes and erases, and how each statement changes it.

ghost use Rattle.std.specs.Prelude.{◌≡◌, slice_get};
ghost use Rattle.sdv_graph.specs.Graph.{seen_action};
ghost use Rattle.sdv_review.specs.declared.status.Status.TheVariants.{EraseLeft, Left};
ghost use Rattle.sdv_review.specs.Statuses.{action_reads, after_event, after_let, after_phase, answered, begins, begun, confirms, ends_well, erase_begun, erase_on, erase_reads, erase_sent, erased, given, is_erase, is_first, is_last, is_moved, is_or_lacks, is_write, keeps, last_reads, moved, part_of, place_reads, sent, suits, with_part};

use crate::asked::moves;
use crate::finding::Name;
use crate::names::address_reads;
use sdv_card::{Ask, Seen};
use sdv_graph::{Action, Graph, Phase};

/// The commands of an erase that were sent so far, by their points.
#[derive(Clone, Copy, Debug, PartialEq, Eq)]
pub struct Erase {
    /// CMD32 or CMD35, with the first block.
    pub first: usize,
    /// CMD33 or CMD36, with the last block.
    pub last: Option<usize>,
    /// CMD38.
    pub cmd38: Option<usize>,
}

/// A command of an erase.
#[derive(Clone, Copy, Debug, PartialEq, Eq)]
pub enum ErasePart {
    /// CMD32 or CMD35.
    First,
    /// CMD33 or CMD36.
    Last,
    /// CMD38.
    Cmd38,
}

/// Whether the blocks of the write commands so far are known to be stored, and the erases to be done. A write is named by the
/// point of its command. An erase is its first block, its last block and CMD38 together.
#[derive(Clone, Copy, Debug, Default, PartialEq, Eq)]
pub enum Status {
    /// Each is, or there was none.
    #[default]
    Quiet,
    /// The blocks of this write were given, and no status has shown yet that they are stored.
    Open(usize),
    /// The blocks of this write were not given yet or were cut, or an error may have gone unseen.
    Failed(usize),
    /// This write may have failed, and was left for another one, for an erase or for another place, by the statement at this
    /// point.
    Left { write: usize, next: usize },
    /// This erase was sent, and no status has shown yet that it is done.
    EraseOpen(Erase),
    /// This erase has begun and is not sent yet, or it was lost, or an error may have gone unseen.
    EraseFailed(Erase),
    /// The erase with its first block at a point may have failed, and was left for another one, for a write or for another
    /// place, by the statement at this point.
    EraseLeft { erase: usize, next: usize },
    /// Nothing is known.
    Unknown,
}

fn confirms(ask: &Ask, seen: Seen) -> bool
    ensures { result ≡ confirms ask.now seen }
{
    match seen {
        Seen::Status {
            state,
            doubt: false,
            ..
        } => state == 4 && ask.index != 3,
        _ => false,
    }
}

fn keeps(ask: &Ask, seen: Seen) -> bool
    ensures { result ≡ keeps ask.now seen }
{
    match seen {
        Seen::Status { doubt: false, .. } | Seen::Ocr { .. } | Seen::Bare | Seen::Sent => {
            ask.index != 0
        }
        _ => false,
    }
}

/// After the answer to a command.
fn answered(ask: &Ask, seen: Seen, status: Status) -> Status
    ensures { result ≡ answered ask.now seen status }
{
    match status {
        Status::Open(_) if confirms(ask, seen) => Status::Quiet,
        Status::Open(_) if keeps(ask, seen) => status,
        Status::Open(point) => Status::Failed(point),
        Status::EraseOpen(_) if confirms(ask, seen) => Status::Quiet,
        Status::EraseOpen(_) if keeps(ask, seen) => status,
        Status::EraseOpen(erase) => Status::EraseFailed(erase),
        _ => status,
    }
}

/// CMD24 and CMD25, which begin a write.
pub fn is_write(ask: &Ask) -> bool
    ensures { result ≡ is_write ask.now }
{
    ask.index == 24 || ask.index == 25
}

/// A write that was left, by the statement at a point.
fn left(write: usize, next: usize) -> Status
    ensures { result ≡ Left write next }
{
    Status::Left { write, next }
}

/// An erase that was left, by the statement at a point.
fn erase_left(erase: usize, next: usize) -> Status
    ensures { result ≡ EraseLeft erase next }
{
    Status::EraseLeft { erase, next }
}

/// After the command of a write at a point: it counts as failed until a phase of its blocks ends well.
fn begun(point: usize, status: Status) -> Status
    ensures { result ≡ begun point status }
{
    match status {
        Status::Quiet => Status::Failed(point),
        Status::Open(other) | Status::Failed(other) => {
            if other == point {
                Status::Failed(other)
            } else {
                left(other, point)
            }
        }
        Status::EraseOpen(erase) | Status::EraseFailed(erase) => erase_left(erase.first, point),
        _ => status,
    }
}

fn is_first(ask: &Ask) -> bool
    ensures { result ≡ is_first ask.now }
{
    ask.index == 32 || ask.index == 35
}

fn is_last(ask: &Ask) -> bool
    ensures { result ≡ is_last ask.now }
{
    ask.index == 33 || ask.index == 36
}

fn is_erase(ask: &Ask) -> bool
    ensures { result ≡ is_erase ask.now }
{
    ask.index == 38
}

/// A write or an erase begins with the command.
pub fn begins(ask: &Ask) -> bool
    ensures { result ≡ begins ask.now }
{
    is_write(ask) || is_first(ask)
}

/// The command of an erase that this is, if it is one.
fn part_of(ask: &Ask) -> Option<ErasePart>
    ensures { result ≡ part_of ask.now }
{
    if is_first(ask) {
        return Some(ErasePart::First);
    }
    if is_last(ask) {
        return Some(ErasePart::Last);
    }
    if is_erase(ask) {
        Some(ErasePart::Cmd38)
    } else {
        None
    }
}

/// The erase has no such command yet, or the one at the point.
fn is_or_lacks(known: Option<usize>, point: usize) -> bool
    ensures { result ≡ is_or_lacks known point }
{
    match known {
        Some(other) => other == point,
        None => true,
    }
}

/// The command at the point is one of this erase.
fn suits(part: ErasePart, point: usize, erase: Erase) -> bool
    ensures { result ≡ suits part point erase }
{
    match part {
        ErasePart::First => erase.first == point,
        ErasePart::Last => is_or_lacks(erase.last, point),
        ErasePart::Cmd38 => is_or_lacks(erase.cmd38, point),
    }
}

/// The erase with the command at the point.
fn with_part(part: ErasePart, point: usize, erase: Erase) -> Erase
    ensures { result ≡ with_part part point erase }
{
    let Erase { first, last, cmd38 } = erase;
    match part {
        ErasePart::First => erase,
        ErasePart::Last => Erase {
            first,
            last: Some(point),
            cmd38,
        },
        ErasePart::Cmd38 => Erase {
            first,
            last,
            cmd38: Some(point),
        },
    }
}

/// After a command of the erase, with a response without a doubt or not.
fn erase_sent(part: ErasePart, kept: bool, erase: Erase) -> Status
    ensures { result ≡ erase_sent part kept erase }
{
    match (part, kept) {
        (ErasePart::Cmd38, true) => Status::EraseOpen(erase),
        _ => Status::EraseFailed(erase),
    }
}

/// After a command of an erase at a point, where this erase is not known to be done: it is the same one, or it is left.
fn erase_on(part: ErasePart, point: usize, kept: bool, erase: Erase) -> Status
    ensures { result ≡ erase_on (suits part point erase) part point kept erase }
{
    if suits(part, point, erase) {
        erase_sent(part, kept, with_part(part, point, erase))
    } else {
        erase_left(erase.first, point)
    }
}

/// After the command of an erase at a point, where none has begun.
fn erase_begun(part: ErasePart, point: usize) -> Status
    ensures { result ≡ erase_begun part point }
{
    match part {
        ErasePart::First => Status::EraseFailed(Erase {
            first: point,
            last: None,
            cmd38: None,
        }),
        _ => Status::Unknown,
    }
}

/// After a command of an erase at a point.
fn erased(part: ErasePart, point: usize, kept: bool, status: Status) -> Status
    ensures { result ≡ erased part point kept status }
{
    match status {
        Status::Quiet => erase_begun(part, point),
        Status::Open(write) | Status::Failed(write) => left(write, point),
        Status::EraseOpen(erase) | Status::EraseFailed(erase) => erase_on(part, point, kept, erase),
        _ => status,
    }
}

/// After the blocks that the commands name became others, by the statement at a point.
fn moved(point: usize, status: Status) -> Status
    ensures { result ≡ moved point status }
{
    match status {
        Status::Open(write) | Status::Failed(write) => left(write, point),
        Status::EraseOpen(erase) | Status::EraseFailed(erase) => erase_left(erase.first, point),
        _ => status,
    }
}

/// After a command at a point, and its answer.
fn sent(point: usize, ask: &Ask, seen: Seen, status: Status) -> Status
    ensures { result ≡ sent point ask.now seen status }
{
    let status = answered(ask, seen, status);
    if is_write(ask) {
        return begun(point, status);
    }
    if let Some(part) = part_of(ask) {
        return erased(part, point, keeps(ask, seen), status);
    }
    if moves(ask) {
        moved(point, status)
    } else {
        status
    }
}

fn ends_well(seen: Seen) -> bool
    ensures { result ≡ ends_well seen }
{
    matches!(seen, Seen::Ok)
}

/// After a write phase.
fn given(seen: Seen, status: Status) -> Status
    ensures { result ≡ given seen status }
{
    match status {
        Status::Open(point) | Status::Failed(point) => {
            if ends_well(seen) {
                Status::Open(point)
            } else {
                Status::Failed(point)
            }
        }
        Status::Left { .. } | Status::EraseLeft { .. } => status,
        _ => Status::Unknown,
    }
}

fn after_phase(phase: Phase, seen: Seen, status: Status) -> Status
    ensures { result ≡ after_phase phase seen status }
{
    match phase {
        Phase::GiveBlocks => given(seen, status),
        _ => status,
    }
}

/// After the event of a statement at a point.
pub fn after_event(point: usize, action: &Action<'_>, seen: Seen, status: Status) -> Status
    ensures { result ≡ after_event point (seen_action action.now) seen status }
{
    match action {
        Action::Send(command, _, _) => sent(point, &command.ask, seen, status),
        Action::Phase(phase, _, _) => after_phase(*phase, seen, status),
        _ => status,
    }
}

/// The address of the command is by the variable, or there is no command.
fn action_reads(action: &Action<'_>, variable: usize) -> bool
    ensures { result ≡ action_reads (seen_action action.now) variable }
{
    match action {
        Action::Send(command, _, _) => address_reads(Name::Number(variable), &command.address),
        _ => true,
    }
}

/// The same of the statement at a point.
fn place_reads(graph: &Graph<'_>, point: usize, variable: usize) -> bool
    ensures { result ≡ place_reads (slice_get graph.now.points point) variable }
{
    if point >= graph.len() {
        return true;
    }
    action_reads(&graph.point(point).action, variable)
}

/// The same of the last block of an erase, if it has one yet.
fn last_reads(graph: &Graph<'_>, last: Option<usize>, variable: usize) -> bool
    ensures { result ≡ last_reads graph.now.points last variable }
{
    match last {
        Some(point) => place_reads(graph, point, variable),
        None => false,
    }
}

fn erase_reads(graph: &Graph<'_>, erase: Erase, variable: usize) -> bool
    ensures { result ≡ erase_reads graph.now.points erase variable }
{
    place_reads(graph, erase.first, variable) || last_reads(graph, erase.last, variable)
}

fn is_moved(graph: &Graph<'_>, variable: usize, status: Status) -> bool
    ensures { result ≡ is_moved graph.now.points variable status }
{
    match status {
        Status::Open(point) | Status::Failed(point) => place_reads(graph, point, variable),
        Status::EraseOpen(erase) | Status::EraseFailed(erase) => {
            erase_reads(graph, erase, variable)
        }
        _ => false,
    }
}

/// After the variable was set at a point.
pub fn after_let(graph: &Graph<'_>, point: usize, variable: usize, status: Status) -> Status
    ensures { result ≡ after_let graph.now.points point variable status }
{
    if is_moved(graph, variable, status) {
        moved(point, status)
    } else {
        status
    }
}

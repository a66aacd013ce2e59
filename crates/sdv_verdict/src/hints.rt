//! What may mend a statement that is refused, or what a review warns of.

use sdv_card::State;
use sdv_graph::{Action, Address, Graph, Position, Unit};
use sdv_review::{Matter, Status};
use sdv_telling::{Reason, Text, Why, put, put_all, put_numbered};
use std::alloc::AllocError;

/// The command of a statement, if it sends one.
fn index_of(action: &Action<'_>) -> Option<u8> {
    match action {
        Action::Send(command, _, _) => Some(command.ask.index),
        _ => None,
    }
}

/// What may mend a command that is not legal in a state.
fn state_hint(index: Option<u8>, state: State) -> &'static str {
    match (state, index) {
        (State::Idle, _) => "the bring-up may not have come so far: end the run where it fails",
        (State::Ready, Some(1 | 41 | 55)) => {
            "a card whose answer is lost may be ready: turn again only on an answer, as `answer { } else { fault lost }`"
        }
        (State::Ready, _) => "CMD2 may not have been taken: end the run unless it is answered",
        (State::Ident, _) => "CMD3 may not have been taken: go on in its case `clean` alone",
        (State::Stby, _) => "CMD7 may not have been taken: go on in its case `clean` alone",
        (State::Tran, Some(12)) => {
            "the transfer may have ended: send CMD12 where the status shows `state=data` or `state=rcv`"
        }
        (State::Tran, _) => "the card may be selected: begin anew with CMD0",
        (State::Data, _) => "a read may be open: `send 12` ends it",
        (State::Rcv, _) => "a write may be open: `send 12` ends it",
        (State::Prg, _) =>
            "the card may be busy: `wait { ok { } else { fault busy } }` comes first",
        (State::Dis, _) => "the card may not be selected: CMD7 selects it",
    }
}

/// What may mend an event that is not legal.
fn legal_hint(index: Option<u8>, reason: Reason) -> &'static str {
    match reason {
        Reason::State(state) => state_hint(index, state),
        Reason::OnlyForApplications => {
            "go on in the case `app` of CMD55, which is taken only where the card takes an application command next"
        }
        Reason::NotForApplications => {
            "a card may have taken a CMD55 whose answer is lost: another CMD55 shows it, by `app`"
        }
        Reason::BlockLength => "go on in the case `clean` of `send 16`, which comes behind CMD7",
        Reason::EraseSequence => {
            "send the three commands of an erase one right after the other, each in the case `clean` of the one before"
        }
        Reason::PresetCount(_) => "announce the blocks that CMD23 announced",
        Reason::NoReadDue | Reason::NoRegisterDue => {
            "receive in the case `clean` of the command that reads"
        }
        Reason::NoWriteDue => "give in the case `clean` of the command that writes",
        Reason::OtherLines { .. } => {
            "`bus.lines` follows the command that switches the card, where the switch is known to be done"
        }
        Reason::NoCard | Reason::NoCommand => "",
    }
}

/// What may mend an end in another state than the transfer state.
fn end_hint(state: State) -> &'static str {
    match state {
        State::Prg => "the card may be busy: `wait { ok { } else { fault busy } }` comes first",
        State::Data => "a read may be open: `send 12` ends it, or `recv` takes its blocks",
        State::Rcv => "a write may be open: `give` ends it, or `send 12`",
        State::Idle | State::Ready | State::Ident | State::Stby | State::Dis | State::Tran => {
            "the bring-up may not have come so far: end the run in a fault where it fails"
        }
    }
}

/// The first flag by which the script addresses blocks, or else its only one.
fn unit_flag<'g>(graph: &'g Graph<'_>) -> Option<&'g str> {
    let flags = &graph.names().flags;
    for point in 0..graph.len() {
        if let Action::Send(command, _, _) = &graph.point(point).action {
            if let Some(
                Address {
                    unit: Unit::By(flag),
                    ..
                },
            ) = command.address
            {
                return flags.get(flag).copied();
            }
        }
    }
    only(flags)
}

/// The name that stands there alone.
fn only<'g>(names: &[&'g str]) -> Option<&'g str> {
    match names {
        [name] => Some(*name),
        _ => None,
    }
}

/// Adds what may mend the unit of an address.
fn put_unit_hint(text: &mut Text, graph: &Graph<'_>, unit: Unit) -> Result<(), AllocError> {
    if let Unit::By(_) = unit {
        return put(
            text,
            "set the flag in the case `ocr.ready & ocr.block`, and nowhere else",
        );
    }
    let flag = match unit_flag(graph) {
        Some(flag) => flag,
        None => "FLAG",
    };
    put_all(
        text,
        &[
            "`at by ",
            flag,
            "` addresses both sorts of cards, where the case `ocr.ready & ocr.block` alone sets ",
            flag,
        ],
    )
}

/// Adds what may mend an address beyond the capacity, of so many blocks.
fn put_room_hint(
    text: &mut Text,
    graph: &Graph<'_>,
    address: &Address,
    blocks: u16,
) -> Result<(), AllocError> {
    match address.position {
        Position::Number(first) => {
            let needed = first.saturating_add(u64::from(blocks));
            let number = only(&graph.names().numbers).unwrap_or("CAPACITY");
            put_all(text, &["it needs `if ", number, " >= "])?;
            put_numbered(text, "", needed, " { } else { fault small }` before it")
        }
        Position::Variable(_, _) => put(
            text,
            "go on only where the capacity is known to be above its last block",
        ),
    }
}

/// Adds what may mend an address. It is the unit that does not fit, or the blocks.
fn put_address_hint(
    text: &mut Text,
    graph: &Graph<'_>,
    action: &Action<'_>,
    is_unit: bool,
) -> Result<(), AllocError> {
    let Action::Send(command, _, _) = action else {
        return Ok(());
    };
    match (&command.address, command.ask.addressed_blocks()) {
        (Some(address), _) if is_unit => put_unit_hint(text, graph, address.unit),
        (Some(address), Some(blocks)) => put_room_hint(text, graph, address, blocks),
        _ => Ok(()),
    }
}

/// Adds what may mend a statement that is refused for this reason beside a card in a state; nothing where none is known. Of an
/// address it is the unit that does not fit, or the blocks.
pub fn put_hint(
    text: &mut Text,
    graph: &Graph<'_>,
    action: &Action<'_>,
    (why, state): (Why, State),
    is_unit: bool,
) -> Result<(), AllocError> {
    match why {
        Why::Illegal(Some(illegality)) => {
            put(text, legal_hint(index_of(action), illegality.reason))
        }
        Why::Illegal(None) => Ok(()),
        Why::Address => put_address_hint(text, graph, action, is_unit),
        Why::EndState => put(text, end_hint(state)),
    }
}

/// What may mend what a review finds; nothing where none is known.
pub fn finding_hint(matter: Matter) -> &'static str {
    match matter {
        Matter::Unstored(Status::Open(_)) => {
            "behind the wait, `send 13 { clean & state=tran { .. } else { .. } }` shows that it is stored"
        }
        Matter::Unstored(Status::EraseOpen(_)) => {
            "behind the wait, `send 13 { clean & state=tran { .. } else { .. } }` shows that it is done"
        }
        Matter::Unstored(Status::Failed(_) | Status::EraseFailed(_)) => {
            "end the run in a fault, or do it again, where it is lost, cut or answered with an error"
        }
        Matter::Partition(..) | Matter::Misplaced(_) => {
            "go on in the case `clean` of a CMD13 behind the switch, in the transfer state"
        }
        _ => "",
    }
}

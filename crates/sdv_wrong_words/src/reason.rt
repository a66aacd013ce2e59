//! Why what comes next is not allowed at a card.

ghost use Rattle.std.specs.Prelude.{◌≡◌, option_and_then};
ghost use Rattle.sdv_explain.specs.Reason.{illegality_of};
ghost use Rattle.sdv_wrong_words.specs.WrongEvent.{event_of, illegality, other_unit, why_illegal, why_not_in_bounds, why_words};

use sdv_card::{Event, Kind, Shape};
use sdv_emmc::EmmcTable;
use sdv_explain::reason_of;
use sdv_refute::{Next, Sight, Wrong};
use sdv_sd::SdTable;
use sdv_telling::{Illegality, Reason};

/// The event that the state tables speak of; none for `done`.
fn event_of(next: &Next) -> Option<Event>
    ensures { result ≡ event_of next.now }
{
    match next {
        Next::Send { ask, .. } => Some(Event::Send(*ask)),
        Next::Receive(_) => Some(Event::RecvBlocks),
        Next::ReceiveRegister(_) => Some(Event::RecvReg),
        Next::Give(_) => Some(Event::Give),
        Next::Wait => Some(Event::Wait),
        Next::Done => None,
    }
}

/// Why an event is not legal at a shape, if it is not.
fn illegality_at(kind: Kind, event: &Event, shape: Shape) -> Option<Illegality>
    ensures { result ≡ illegality_of kind shape.0 event.now }
{
    match kind {
        Kind::Sd => reason_of::<SdTable>(event, shape),
        Kind::Emmc => reason_of::<EmmcTable>(event, shape),
    }
}

/// Why what comes next is not legal at the card, if it is not.
pub fn illegality(wrong: &Wrong) -> Option<Illegality>
    ensures { result ≡ illegality wrong.now }
{
    match event_of(&wrong.next) {
        Some(event) => illegality_at(wrong.kind, &event, wrong.shape),
        None => None,
    }
}

/// Why what comes next is not allowed at a card.
#[derive(Clone, Copy, Debug, PartialEq, Eq)]
pub enum Why {
    /// The kind of card has no such command.
    NoCommand,
    /// The card takes the next command as an application command, and this is none.
    Application,
    /// The command is an application command, and the card does not take the next command as one.
    NoApplication,
    /// It is not legal in the card's state.
    State,
    /// The block length is not 512.
    BlockLength,
    /// The erase sequence is not so far.
    EraseSequence,
    /// Another count is preset.
    PresetCount,
    /// No read of blocks is due.
    NoRead,
    /// No register is due.
    NoRegister,
    /// No write of blocks is due.
    NoWrite,
    /// The card uses other data lines than the host.
    OtherLines,
    /// The card has not so many blocks.
    Blocks,
    /// The card has block addresses, and the argument is none of the block.
    BlockUnit,
    /// The card has byte addresses, and the argument is none of the block.
    ByteUnit,
    /// The run ends, and the card is not in the transfer state.
    End,
}

/// The reason why an event is not legal.
pub fn why_illegal(reason: Reason) -> Why
    ensures { result ≡ why_illegal reason }
{
    match reason {
        Reason::NoCard | Reason::NoCommand => Why::NoCommand,
        Reason::NotForApplications => Why::Application,
        Reason::OnlyForApplications => Why::NoApplication,
        Reason::State(_) => Why::State,
        Reason::BlockLength => Why::BlockLength,
        Reason::EraseSequence => Why::EraseSequence,
        Reason::PresetCount(_) => Why::PresetCount,
        Reason::NoReadDue => Why::NoRead,
        Reason::NoRegisterDue => Why::NoRegister,
        Reason::NoWriteDue => Why::NoWrite,
        Reason::OtherLines { .. } => Why::OtherLines,
    }
}

/// The reason why a legal command is not in bounds, or the run may not end.
pub fn why_not_in_bounds(next: &Next, sight: &Sight) -> Why
    ensures { result ≡ why_not_in_bounds next.now sight.now }
{
    match next {
        Next::Send {
            position,
            argument,
            ..
        } => {
            let position = u128::from(*position);
            let wanted = if sight.block_unit {
                position
            } else {
                512 * position
            };
            if u128::from(*argument) == wanted {
                Why::Blocks
            } else {
                other_unit(sight.block_unit)
            }
        }
        _ => Why::End,
    }
}

/// The argument is not in the card's unit.
fn other_unit(block_unit: bool) -> Why
    ensures { result ≡ other_unit block_unit }
{
    if block_unit {
        Why::BlockUnit
    } else {
        Why::ByteUnit
    }
}

/// What is amiss, behind the state of the card.
pub fn why_words(why: Why) -> &'static str
    ensures { result.now ≡ why_words why }
{
    match why {
        Why::NoCommand => ", which has no such command",
        Why::Application => " with the application flag",
        Why::NoApplication => " without the application flag",
        Why::State => ", where it is not legal",
        Why::BlockLength => " whose block length is not 512 bytes",
        Why::EraseSequence => " whose erase sequence is not so far",
        Why::PresetCount => " with another count preset",
        Why::NoRead => " with no read of blocks due",
        Why::NoRegister => " with no register due",
        Why::NoWrite => " with no write of blocks due",
        Why::OtherLines => " that uses other data lines than the host",
        Why::Blocks => ", which has not so many blocks",
        Why::BlockUnit => " with block addresses, and its argument is none of the block",
        Why::ByteUnit => " with byte addresses, and its argument is none of the block",
        Why::End => "",
    }
}

//! Whether what comes next is allowed at a card.

ghost use Rattle.std.specs.Prelude.{◌≡◌};
ghost use Rattle.sdv_card.specs.LegalShapes.{legal_code};
ghost use Rattle.sdv_run.specs.Standing.{host_of};
ghost use Rattle.sdv_refute.specs.Allows.{in_bounds, is_tran, allows};

use crate::next::Next;
use crate::sight::{Sight, fields_seen};
use sdv_card::state_table::legal_by_rows;
use sdv_card::{Event, Kind, Shape, State};
use sdv_emmc::EmmcTable;
use sdv_run::HostState;
use sdv_sd::SdTable;

/// The event is legal at the shape, by the state table of the kind.
fn is_legal(kind: Kind, shape: Shape, event: &Event) -> bool
    ensures { result ≡ legal_code kind shape.0 event.now }
{
    match kind {
        Kind::Sd => legal_by_rows::<SdTable>(shape, event),
        Kind::Emmc => legal_by_rows::<EmmcTable>(shape, event),
    }
}

/// The blocks are addressed in the card's unit, and the card has them.
fn in_bounds(count: Option<u16>, position: u64, argument: u64, sight: &Sight) -> bool
    ensures { result ≡ in_bounds count position argument sight.now }
{
    match count {
        None => true,
        Some(count) => {
            let position = u128::from(position);
            let wanted = if sight.block_unit {
                position
            } else {
                512 * position
            };
            u128::from(argument) == wanted
                && position + u128::from(count) <= u128::from(sight.capacity)
        }
    }
}

/// The card is in the transfer state.
fn is_tran(state: State) -> bool
    ensures { result ≡ is_tran state }
{
    match state {
        State::Tran => true,
        _ => false,
    }
}

/// What the script does next is allowed at the card.
pub fn allows(next: &Next, host: &HostState, sight: &Sight) -> bool
    ensures { result ≡ allows host.now.kind (host_of host.now) sight.now next.now }
{
    let shape = fields_seen(sight, host).encode();
    match next {
        Next::Send {
            ask,
            position,
            argument,
        } => {
            is_legal(host.kind, shape, &Event::Send(*ask))
                && in_bounds(ask.addressed_blocks(), *position, *argument, sight)
        }
        Next::Receive(_) => is_legal(host.kind, shape, &Event::RecvBlocks),
        Next::ReceiveRegister(_) => is_legal(host.kind, shape, &Event::RecvReg),
        Next::Give(_) => is_legal(host.kind, shape, &Event::Give),
        Next::Wait => is_legal(host.kind, shape, &Event::Wait),
        Next::Done => is_tran(sight.state),
    }
}

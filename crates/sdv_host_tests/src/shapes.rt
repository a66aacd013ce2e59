//! How many shapes cards of both kinds have, and how many outcomes an event has there at most.

ghost use Rattle.std.specs.Prelude.{◌↔◌, IsTrue, IsSome, IfSome};
ghost use Rattle.sdv_card.specs.declared.event.Outcome.{Outcome};
ghost use Rattle.sdv_card.specs.Lists.{May};
ghost use Rattle.sdv_card.specs.Outcomes.{outcomes_code};
ghost use Rattle.sdv_card.specs.LegalShapes.{legal_code};

use arrayvec::ArrayVec;
use sdv_card::state_table::is_shape;
use sdv_card::{Aim, Ask, CardTable, Event, Kind, Outcome, Shape};
use sdv_emmc::EmmcTable;
use sdv_sd::SdTable;

/// The event of a command.
fn send(index: u8, aim: Aim, argument: u32, count: u16) -> Event {
    Event::Send(Ask {
        index,
        aim,
        argument,
        count,
    })
}

/// What may follow an event by a table, or none where the event is not legal.
fn follow<T: CardTable>(shape: Shape, event: &Event) -> Option<ArrayVec<Outcome, 32>>
    ensures allowed { IsSome result ↔ IsTrue (legal_code T.kind shape.0 event.now) }
    ensures follows { IfSome result (λ all. (o : Outcome) →
        May all.items o ↔ May (outcomes_code T.kind shape.0 event.now) o) }
{
    if T::legal(shape, event) {
        Some(T::outcomes(shape, event))
    } else {
        None
    }
}

/// How many outcomes the event has at the shape, none where it is not legal.
fn outcomes_of<T: CardTable>(code: u64, event: &Event) -> usize {
    follow::<T>(Shape(code), event).map_or(0, |all| all.len())
}

/// The most outcomes of one event at the shape.
fn most_outcomes<T: CardTable>(code: u64) -> usize {
    let mut most = 0;
    for index in 0..64u8 {
        for aim in [Aim::Rca, Aim::Plain] {
            for argument in [0, 0x40ff_8000] {
                for count in [0, 1] {
                    let event = send(index, aim, argument, count);
                    most = most.max(outcomes_of::<T>(code, &event));
                }
            }
        }
    }
    for event in [Event::RecvBlocks, Event::RecvReg, Event::Give, Event::Wait] {
        most = most.max(outcomes_of::<T>(code, &event));
    }
    most
}

/// The shapes of a kind without flags and preset count, and the longest list of outcomes at them with this preset count.
fn shapes_and_longest_list<T: CardTable>(kind: Kind, preset: u64) -> (u32, usize) {
    let mut shapes = 0u32;
    let mut most = 0;
    for code in 0..0x4000u64 {
        let fields = Shape(code).decode();
        if fields.is_some_and(|fields| is_shape(kind, &fields)) {
            shapes = shapes.wrapping_add(1);
            most = most.max(most_outcomes::<T>(code | preset));
        }
    }
    (shapes, most)
}

/// With one data line and without flags; of e.MMC devices the outcomes with a preset count, also where a switch error is
/// pending.
#[test]
fn shapes_and_outcomes(rt: HostRuntime) {
    let found = shapes_and_longest_list::<SdTable>(Kind::Sd, 0);
    assert!(rt; found == (558, 18), "{found:?}");
    let found = shapes_and_longest_list::<EmmcTable>(Kind::Emmc, 0x1_0000_0000);
    assert!(rt; found == (261, 28), "{found:?}");
    let of_sd = outcomes_of::<SdTable>(0x3107, &send(55, Aim::Rca, 0, 0));
    let selected = send(7, Aim::Rca, 0, 0);
    let of_emmc = outcomes_of::<EmmcTable>(0x1_0000_2108, &selected);
    let with_error = outcomes_of::<EmmcTable>(0x1_0400_2108, &selected);
    assert!(rt; (of_sd, of_emmc, with_error) == (18, 28, 30));
}

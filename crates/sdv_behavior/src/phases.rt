//! Data phases and waits of a simulated card.

ghost use Rattle.std.specs.Prelude.{◌≡◌, ◌<◌, ◌≤◌, ◌+◌, ◌^◌, IsTrue};
ghost use Rattle.sdv_card.specs.Legal.{recv_legal, recv_reg_legal, give_legal};
ghost use Rattle.sdv_card.specs.Phases.{after_wait};
ghost use Rattle.sdv_behavior.specs.Layout.{image_size};
ghost use Rattle.sdv_behavior.specs.SimSteps.{cuts, end_seen, fails_later, with_error, placed_at, phase_over, on_lines, length_fits, next_place, wait_end, waited_in, wait_state};

use crate::behavior::PhaseEnd;
use crate::card_desc::CardDesc;
use crate::card_state::CardState;
use sdv_card::state_table::{after_phase, after_wait};
use sdv_card::{DataEnd, Place, State, WaitEnd};

/// A data phase is cut.
pub fn cuts(phase: PhaseEnd) -> bool
    ensures { result ≡ cuts phase }
{
    match phase {
        PhaseEnd::Cut => true,
        _ => false,
    }
}

/// How a phase to the card ends for the host where the card has taken the blocks.
pub fn end_seen(phase: PhaseEnd) -> DataEnd
    ensures { result ≡ end_seen phase }
{
    match phase {
        PhaseEnd::CrcStatusLost => DataEnd::Cut,
        _ => DataEnd::Ok,
    }
}

/// A phase to the card ends well, and stores nothing.
pub fn fails_later(phase: PhaseEnd) -> bool
    ensures { result ≡ fails_later phase }
{
    match phase {
        PhaseEnd::FailsLater => true,
        _ => false,
    }
}

/// The card with an error that a later status shows.
pub fn with_error(s: CardState) -> CardState
    ensures { result ≡ with_error s }
{
    CardState {
        unshown_error: true,
        ..s
    }
}

/// The card at a place.
fn placed_at(place: &Place, s: &CardState) -> CardState
    ensures { result ≡ placed_at place.now s.now }
{
    CardState {
        state: place.state,
        transfer: place.transfer,
        ..*s
    }
}

/// Where the card is after a phase.
pub fn phase_over(moves: bool, end: DataEnd, s: &CardState) -> CardState
    ensures { result ≡ phase_over moves end s.now }
{
    match after_phase(s.transfer, end) {
        [] => *s,
        [_, second, ..] if moves => placed_at(second, s),
        [first, ..] => placed_at(first, s),
    }
}

/// A phase uses the card's data lines.
pub fn on_lines(s: &CardState, lines: u8) -> bool
    ensures { result ≡ on_lines s.now lines }
{
    lines == s.mode.width.lines()
}

/// A block phase has blocks, the partition in access has them, and a transfer that is not open has as many.
#[tactic(auto, using(crate::proofs::LayoutLaws::places))]
pub fn length_fits(desc: &CardDesc, s: &CardState, count: usize) -> bool
    ensures fits { result ≡ length_fits desc.now s.now count }
    ensures room { IsTrue result → next_place desc.now s.now + count ≤ image_size desc.now }
    ensures narrow { IsTrue result → next_place desc.now s.now + count < 2 ^ 64 }
{
    let count = count as u64;
    let size = desc.partition_size(s.mode.partition);
    1 <= count
        && s.next_block <= size
        && count <= size - s.next_block
        && (s.transfer.is_open() || count == u64::from(s.announced))
}

/// The place in the image of the next block of a transfer.
pub fn next_place(desc: &CardDesc, s: &CardState) -> u64
    requires { next_place desc.now s.now < 2 ^ 64 }
    ensures { result ≡ next_place desc.now s.now }
{
    desc.partition_place(s.mode.partition) + s.next_block
}

/// How a wait ends.
pub fn wait_end(ready: bool) -> WaitEnd
    ensures { result ≡ wait_end ready }
{
    if ready { WaitEnd::Ok } else { WaitEnd::Late }
}

/// The state after a wait.
fn waited_in(moves: bool, state: State, end: WaitEnd) -> State
    ensures { result ≡ waited_in moves (after_wait state end) state }
{
    match after_wait(state, end) {
        [] => state,
        [_, second, ..] if moves => *second,
        [first, ..] => *first,
    }
}

/// The card after a wait.
pub fn waited(moves: bool, end: WaitEnd, s: &CardState) -> CardState
    ensures { result ≡ wait_state moves s.now.state end s.now }
{
    CardState {
        state: waited_in(moves, s.state, end),
        ..*s
    }
}

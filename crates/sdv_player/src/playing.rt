//! A player over a port.

ghost use Rattle.std.specs.Prelude.{◌≡◌, true, false, length, Option, IfOk};
ghost use Rattle.sdv_card.specs.Card.{Card};
ghost use Rattle.sdv_card.specs.Damage.{KeepsTablesOverNoise};
ghost use Rattle.sdv_run.specs.Asks.{CanPerform};
ghost use Rattle.sdv_player.specs.Seen.{kind_of};
ghost use Rattle.sdv_player.specs.Play.{IsStopped, HasEnded, Takes, TakesOff, NotesApp, as_heard};
ghost use Rattle.sdv_player.specs.OverPort.{PlaysOver, PlaysBeside};

use crate::next_step::Next;
use crate::player::{answer, ended, next};
use crate::state::State;
use sdv_card::{CardPort, DataEnd, WaitEnd};
use sdv_run::{NextEvent, Returned, RunFault, perform};

/// Goes on from the event that was said, by what it returned.
///
/// False where the run does not go on with it, as [`answer`] and [`ended`] say.
pub fn tell(words: &[u32], state: &mut State, returned: &Returned) -> bool
    ensures takes { Takes words.now state.old state.new (as_heard returned.now) result }
    ensures unasked { state.old.asked ≡ 0 → (result ≡ false) × (state.new ≡ state.old) }
    ensures counted { result ≡ true → TakesOff state.old state.new (as_heard returned.now) }
    ensures refused { result ≡ false → (state.old.asked ≡ 0 → ⊥) → IsStopped state.new }
    ensures kind { result ≡ true → state.new.host.kind ≡ state.old.host.kind }
    ensures app { NotesApp words.now state.old state.new (as_heard returned.now) result }
{
    match returned {
        Returned::Answered(came) => answer(words, state, came),
        Returned::BlocksIn(end) => ended(words, state, *end == DataEnd::Ok, None),
        Returned::RegisterIn(end, register) => {
            ended(words, state, *end == DataEnd::Ok, Some(register))
        }
        Returned::BlocksOut(end) => ended(words, state, *end == DataEnd::Ok, None),
        Returned::Waited(end) => ended(words, state, *end == WaitEnd::Ok, None),
    }
}

/// Whether an event can be made, with room for so many blocks.
fn can_perform(event: &NextEvent, room: usize) -> bool
    ensures can { result ≡ true → CanPerform event.now room }
    ensures cannot { result ≡ false → CanPerform event.now room → ⊥ }
{
    match *event {
        NextEvent::Send { ask, .. } => ask.index < 64,
        NextEvent::ReceiveBlocks { count, .. } => usize::from(count) <= room,
        NextEvent::ReceiveRegister { count, .. } => count <= 512,
        NextEvent::GiveBlocks { .. } | NextEvent::Wait => true,
    }
}

/// Plays a table over a port, from where the state stands, until the run ends or stops: what it answers is no event. It sends no
/// more commands than the state has left, whatever comes of them.
///
/// Blocks are received to the front of `held`, and given from the front of `input`.
///
/// # Errors
///
/// - [`RunFault::Reply`]: the last event returned what a run does not go on with, and the run is stopped.
/// - [`RunFault::Input`]: the next event gives more blocks than are left, and was not made.
/// - [`RunFault::Memory`]: the next event needs more room than `held` has, and was not made. This comes only where the
///   words are no table, or `held` has fewer blocks than a command of the table announces.
///
/// By the table of an accepted script, from its start, over a port that shows a card of the profile before its first
/// command, or in any state where the script begins with CMD0, the events move that card step by step: each is legal and
/// in bounds, at most the certified number of them are commands, no answer is refused, and [`Next::Done`] comes only with
/// the card in the transfer state. That holds too where the bus may damage responses: the card then does what it does
/// where they are lost.
pub fn play<'a, P: CardPort>(
    words: &'a [u32],
    state: &mut State,
    held: &mut [[u8; 512]],
    input: &mut &[[u8; 512]],
    port: &mut P,
) -> Result<Next<'a>, RunFault>
    ensures ends { IfOk result HasEnded }
    ensures played { PlaysOver (kind_of state.old.host) P.steps words.now (length held.old) state.old state.new
        (port.old, input.old.now) (port.new, input.new.now) result }
    ensures beside { PlaysBeside (kind_of state.old.host) P.steps P.card words.now (length held.old) state.old state.new
        (port.old, input.old.now) (port.new, input.new.now) result }
    ensures over_noise { (card : P → Option Card) → KeepsTablesOverNoise P.steps card
        → PlaysBeside (kind_of state.old.host) P.steps card words.now (length held.old) state.old state.new
        (port.old, input.old.now) (port.new, input.new.now) result }
{
    play_on(words, state, held, input, port)
}

/// Plays a table over a port, whatever stands behind it.
fn play_on<'a, P: CardPort>(
    words: &'a [u32],
    state: &mut State,
    held: &mut [[u8; 512]],
    input: &mut &[[u8; 512]],
    port: &mut P,
) -> Result<Next<'a>, RunFault>
    ensures ends { IfOk result HasEnded }
    ensures played { PlaysOver (kind_of state.old.host) P.steps words.now (length held.old) state.old state.new
        (port.old, input.old.now) (port.new, input.new.now) result }
{
    for _ in 0..state.moves {
        let event = match next(words, state) {
            Next::Event(event) => event,
            end => return Ok(end),
        };
        if !can_perform(&event, held.len()) {
            return Err(RunFault::Memory);
        }
        let returned = perform(&event, state.host.kind(), held, input, port)?;
        if !tell(words, state, &returned) {
            return Err(RunFault::Reply);
        }
    }
    Ok(next(words, state))
}

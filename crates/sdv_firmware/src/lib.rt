//! The player of script tables for C: a static library with the calls of `firmware/sdv_player.h`.
//!
//! Each call is that of `sdv_player`, for any table, state and bytes that C passes. The structs are those of the
//! header, field by field. `specs/Events.antt` says what C sees of an event: the command with its argument, response
//! and data, the phase with its length, the data lines, the point, and of a fault as many bytes of its name as C has
//! room for. `specs/Answers.antt` says what C says of an answer: an R2 without its 15 bytes, and a kind that C does
//! not name, are damaged answers. The contracts say what stays the same also where C gets 0, and where the run has
//! stopped. That a struct in C has its fields where Rattle has them is tested.
#![tactic(auto)]

ghost use Rattle.std.specs.Prelude.{◌≡◌, ◌-◌, true, false, pos};
ghost use Rattle.std.specs.Int.{from_bool};
ghost use Rattle.sdv_run.specs.declared.returned.Returned.{Returned};
ghost use Rattle.sdv_run.specs.declared.returned.Returned.TheVariants.{Answered};
ghost use Rattle.sdv_player.specs.declared.next_step.Next.{Next};
ghost use Rattle.sdv_table.specs.Loading.{IsWellFormed};
ghost use Rattle.sdv_table.specs.Reading.{commands_read};
ghost use Rattle.sdv_player.specs.Hearing.{heard};
ghost use Rattle.sdv_player.specs.Play.{has_header, IsStopped, Starts, Advances, Keeps, Stops, IsAsked, Takes, NotesApp, IsEnd};
ghost use Rattle.sdv_player.specs.Seen.{nowhere};
ghost use Rattle.sdv_firmware.specs.Answers.{answer_of, came, is_not_zero};
ghost use Rattle.sdv_firmware.specs.Events.{Shows};

mod answers;
mod event;

use answers::{answer_of, came, is_not_zero};
use event::{Event, event_of};
use sdv_player::{State, answer, ended, next, start};
use sdv_table::is_table;

/// Whether the words are well formed as a table. `sdv_start` looks at their magic, version and size alone.
#[unsafe(no_mangle)]
pub extern "C" fn sdv_is_table(table: &[u32]) -> i32
    ensures one_or_zero { result ≡ pos (from_bool (is_not_zero result)) }
    ensures yes { is_not_zero result ≡ true → IsWellFormed table.now }
    ensures no { IsWellFormed table.now → is_not_zero result ≡ true }
{
    match is_table(table) {
        Ok(()) => 1,
        Err(_) => 0,
    }
}

/// Begins a run. 1, or 0 where the words have not the magic, the version and the size of a table.
#[unsafe(no_mangle)]
pub extern "C" fn sdv_start(table: &[u32], state: &mut State) -> i32
    ensures header { result ≡ pos (from_bool (has_header table.now)) }
    ensures starts { Starts table.now state.new }
    ensures commands { has_header table.now ≡ true → state.new.commands ≡ commands_read table.now }
    ensures refused { has_header table.now ≡ false → IsStopped state.new }
    ensures app { state.new.app ≡ 0 }
{
    i32::from(start(table, state))
}

/// What the host does next; statements without an event are passed. Asked again, it answers the same. It stops at a command more
/// than the table allows.
#[unsafe(no_mangle)]
pub extern "C" fn sdv_next(table: &[u32], state: &mut State, event: &mut Event) -> u32
    ensures says { (said : Next) × Advances table.now state.old state.new said × Keeps state.old state.new said
        × Stops state.old state.new said × IsAsked said state.new.asked × Shows table.now state.new event.new said }
    ensures what { result ≡ event.new.what }
    ensures stopped { state.old.moves ≡ 0 → (result ≡ 8) × (state.new ≡ state.old) }
    ensures nowhere { state.old.place.point ≡ nowhere → (result ≡ 8) × (state.new ≡ state.old) }
    ensures kind { state.new.host.kind ≡ state.old.host.kind }
    ensures app { state.new.app ≡ state.old.app }
{
    let next = next(table, state);
    *event = event_of(table, state, next);
    event.what
}

/// What came of the command that was asked for; a damaged answer does what a time-out does. 1, or 0 where the answer is
/// refused: the run has stopped. 0 too where nothing was asked for: then nothing changes.
#[unsafe(no_mangle)]
pub extern "C" fn sdv_answer_bytes(
    table: &[u32],
    state: &mut State,
    reply: u32,
    word: u32,
    r2: &[u8],
) -> i32
    ensures one_or_zero { result ≡ pos (from_bool (is_not_zero result)) }
    ensures takes { Takes table.now state.old state.new
        (Answered (heard (answer_of table.now state.old.place.point reply word r2.now))) (is_not_zero result) }
    ensures unasked { state.old.asked ≡ 0 → (is_not_zero result ≡ false) × (state.new ≡ state.old) }
    ensures once { is_not_zero result ≡ true → state.new.asked ≡ 0 }
    ensures counted { is_not_zero result ≡ true → state.new.moves ≡ state.old.moves - 1 }
    ensures commands { is_not_zero result ≡ true → state.new.commands ≡ state.old.commands - 1 }
    ensures refused { is_not_zero result ≡ false → (state.old.asked ≡ 0 → ⊥) → IsStopped state.new }
    ensures kind { is_not_zero result ≡ true → state.new.host.kind ≡ state.old.host.kind }
    ensures app { NotesApp table.now state.old state.new
        (Answered (heard (answer_of table.now state.old.place.point reply word r2.now))) (is_not_zero result) }
{
    let came = answer_of(table, state, reply, word, r2);
    i32::from(answer(table, state, &came))
}

/// How the phase or the wait ended that was asked for, with the bytes of a register that came well. 1, or 0 where the event
/// was a command: the run has stopped. 0 too where nothing was asked for: then nothing changes.
#[unsafe(no_mangle)]
pub extern "C" fn sdv_ended_bytes(table: &[u32], state: &mut State, well: i32, bytes: &[u8]) -> i32
    ensures one_or_zero { result ≡ pos (from_bool (is_not_zero result)) }
    ensures takes { (returned : Returned)
        → IsEnd returned state.old.host.register_length (is_not_zero well) (came bytes.now)
        → Takes table.now state.old state.new returned (is_not_zero result) }
    ensures unasked { state.old.asked ≡ 0 → (is_not_zero result ≡ false) × (state.new ≡ state.old) }
    ensures once { is_not_zero result ≡ true → state.new.asked ≡ 0 }
    ensures counted { is_not_zero result ≡ true → state.new.moves ≡ state.old.moves - 1 }
    ensures commands { is_not_zero result ≡ true → state.new.commands ≡ state.old.commands }
    ensures refused { is_not_zero result ≡ false → (state.old.asked ≡ 0 → ⊥) → IsStopped state.new }
    ensures kind { is_not_zero result ≡ true → state.new.host.kind ≡ state.old.host.kind }
    ensures app { state.new.app ≡ state.old.app }
{
    i32::from(ended(table, state, is_not_zero(well), came(bytes)))
}

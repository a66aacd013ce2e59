//! The calls of a player.

ghost use Rattle.std.specs.Prelude.{◌≡◌, ◌<◌, ◌≤◌, ◌-◌, [], true, false};
ghost use Rattle.sdv_card.specs.Profile.{host_at_start};
ghost use Rattle.sdv_run.specs.declared.returned.Returned.{Returned};
ghost use Rattle.sdv_run.specs.declared.returned.Returned.TheVariants.{Answered};
ghost use Rattle.sdv_player.specs.declared.next_step.Next.TheVariants.{Stopped};
ghost use Rattle.sdv_player.specs.Seen.{Gone, Remembers, no_registers, turns_of, host_of, nowhere};
ghost use Rattle.sdv_player.specs.Hearing.{heard, has_app, bytes_of};
ghost use Rattle.sdv_table.specs.Reading.{commands_read};
ghost use Rattle.sdv_player.specs.Play.{commands_of, has_header, IsStopped, Starts, Advances, Keeps, Stops, IsAsked, Takes, NotesApp, IsEnd};

use crate::answering::heard;
use crate::asking::ask;
use crate::guards::way;
use crate::host::HostNumbers;
use crate::next_step::Next;
use crate::passing::pass;
use crate::place::Place;
use crate::rows::{command_at, phase_at};
use crate::state::State;
use crate::words::{number_at, target_of, word};
use sdv_card::Answer;
use sdv_frames::Reply;
use sdv_graph::Target;
use sdv_registers::Status;
use sdv_run::NextEvent;
use sdv_table::{row_at, sending_at};

impl State {
    /// A run that goes on no more.
    fn stopped(kind: u32, declared: usize) -> State
        ensures host { declared ≤ 8 → host_of result.host no_registers ≡ host_at_start declared }
        ensures remembers { Remembers result.host no_registers }
        ensures kind { result.host.kind ≡ kind }
        ensures place { turns_of result.place ≡ [] }
        ensures stopped { IsStopped result }
        ensures app { result.app ≡ 0 }
    {
        State {
            host: HostNumbers::at_start(kind, declared),
            moves: 0,
            commands: 0,
            place: Place::nowhere(),
            asked: 0,
            app: 0,
        }
    }

    /// The run goes on no more.
    fn stop(&mut self)
        ensures stopped { IsStopped self.new }
        ensures app { self.new.app ≡ self.old.app }
    {
        *self = State {
            moves: 0,
            place: Place::nowhere(),
            asked: 0,
            ..*self
        };
    }

    /// Goes on to a target, by the event that was asked for.
    fn go_on(&mut self, target: Target)
        ensures asked { self.new.asked ≡ 0 }
        ensures moves { self.new.moves ≡ self.old.moves - 1 }
        ensures commands { self.new.commands ≡ self.old.commands }
        ensures host { self.new.host ≡ self.old.host }
        ensures gone { Gone target self.old.place self.new.place }
        ensures app { self.new.app ≡ self.old.app }
    {
        self.asked = 0;
        self.moves = self.moves.saturating_sub(1);
        self.place.go_to(target);
    }
}

/// Whether words have the magic, the version and the size of a table.
fn has_header(words: &[u32]) -> bool
    ensures { result ≡ has_header words.now }
{
    word(words, 0) == 0x5456_4453
        && word(words, 1) % 256 == 2
        && (word(words, 2) / 65536) as usize == words.len()
        && words.len() >= 8
}

/// Begins a run, which asks for at most as many commands as the words say.
///
/// False for words that have not the magic, the version and the size of a table: the run then stops at once.
pub fn start(words: &[u32], state: &mut State) -> bool
    ensures header { result ≡ has_header words.now }
    ensures starts { Starts words.now state.new }
    ensures commands { result ≡ true → state.new.commands ≡ commands_read words.now }
    ensures refused { result ≡ false → IsStopped state.new }
    ensures app { state.new.app ≡ 0 }
{
    let counts = word(words, 1);
    *state = State::stopped(counts / 256 % 256, (counts / 65536 % 256) as usize);
    if !has_header(words) {
        return false;
    }
    state.moves = number_at(words, 4);
    state.commands = number_at(words, 6);
    state.place.go_to(target_of(word(words, 3)));
    true
}

/// Whether an event can be asked for where so many commands are left.
fn is_left(event: &NextEvent, commands: u64) -> bool
    ensures yes { result ≡ true → commands_of event.now ≤ commands }
    ensures no { result ≡ false → commands < commands_of event.now }
{
    match event {
        NextEvent::Send { .. } => commands > 0,
        _ => true,
    }
}

/// The event that the run makes next, or its end. Asked again, it answers the same. It stops at a command where none is
/// left.
///
/// Any words may be played, with any state: it makes at most as many moves as the state has left, so the run ends, and asks for no
/// more commands than are left.
pub fn next<'a>(words: &'a [u32], state: &mut State) -> Next<'a>
    ensures advances { Advances words.now state.old state.new result }
    ensures keeps { Keeps state.old state.new result }
    ensures stopped { Stops state.old state.new result }
    ensures asked { IsAsked result state.new.asked }
    ensures nowhere { state.old.place.point ≡ nowhere → (result ≡ Stopped) × (state.new ≡ state.old) }
    ensures kind { state.new.host.kind ≡ state.old.host.kind }
    ensures app { state.new.app ≡ state.old.app }
{
    if state.moves == 0 {
        return Next::Stopped;
    }
    for _ in 0..state.moves {
        let point = state.place.point;
        let Some(row) = row_at(words, point) else {
            return Next::Stopped;
        };
        match ask(row, sending_at(words, point), &state.host) {
            Err(_) => return Next::Stopped,
            Ok(Some(event)) => {
                if !is_left(&event, state.commands) {
                    return Next::Stopped;
                }
                state.asked = 1;
                return Next::Event(event);
            }
            Ok(None) => {}
        }
        if let Some(end) = pass(row, state) {
            return end;
        }
        state.moves -= 1;
    }
    Next::Stopped
}

/// Goes on by what came of the command that was asked for, and takes that command off. A damaged answer is a lost one: it
/// does what a time-out does.
///
/// False where no event was asked for: the run stands where it stood. False too for an answer that a run does not go on
/// with, and where the event was no command: the run stops.
pub fn answer(words: &[u32], state: &mut State, answer: &Answer) -> bool
    ensures takes { Takes words.now state.old state.new (Answered (heard answer.now)) result }
    ensures unasked { state.old.asked ≡ 0 → (result ≡ false) × (state.new ≡ state.old) }
    ensures once { result ≡ true → state.new.asked ≡ 0 }
    ensures counted { result ≡ true → state.new.moves ≡ state.old.moves - 1 }
    ensures commands { result ≡ true → state.new.commands ≡ state.old.commands - 1 }
    ensures refused { result ≡ false → (state.old.asked ≡ 0 → ⊥) → IsStopped state.new }
    ensures kind { result ≡ true → state.new.host.kind ≡ state.old.host.kind }
    ensures app { NotesApp words.now state.old state.new (Answered (heard answer.now)) result }
{
    let point = state.place.point;
    if state.asked == 0 {
        return false;
    }
    let Some(row) = command_at(words, point) else {
        state.stop();
        return false;
    };
    let came = heard(answer);
    if !state.host.hear(row.ask, sending_at(words, point), &came) {
        state.stop();
        return false;
    }
    state.app = u32::from(row.ask.index == 55 && is_app(&came));
    state.commands = state.commands.saturating_sub(1);
    let target = way(state.host.kind(), row.cases, row.other, &came);
    state.go_on(target);
    true
}

/// Whether the card says that it takes the next command as an application command.
fn is_app(answer: &Answer) -> bool
    ensures { result ≡ has_app answer.now }
{
    match answer {
        Answer::Reply(Reply::R1 { status, .. }) => Status(*status).is_app_cmd(),
        _ => false,
    }
}

/// Goes on by how the phase or the wait ended that was asked for, with the bytes of an EXT_CSD that came well.
///
/// False where no event was asked for: the run stands where it stood. False too where the event was a command: the run
/// stops.
pub fn ended(words: &[u32], state: &mut State, well: bool, register: Option<&[u8; 512]>) -> bool
    ensures takes { (returned : Returned)
        → IsEnd returned state.old.host.register_length well (bytes_of register.entry)
        → Takes words.now state.old state.new returned result }
    ensures unasked { state.old.asked ≡ 0 → (result ≡ false) × (state.new ≡ state.old) }
    ensures once { result ≡ true → state.new.asked ≡ 0 }
    ensures counted { result ≡ true → state.new.moves ≡ state.old.moves - 1 }
    ensures commands { result ≡ true → state.new.commands ≡ state.old.commands }
    ensures refused { result ≡ false → (state.old.asked ≡ 0 → ⊥) → IsStopped state.new }
    ensures kind { result ≡ true → state.new.host.kind ≡ state.old.host.kind }
    ensures app { state.new.app ≡ state.old.app }
{
    if state.asked == 0 {
        return false;
    }
    let Some(row) = phase_at(words, state.place.point) else {
        state.stop();
        return false;
    };
    state.host.hear_end(row.phase, well, register);
    state.go_on(if well { row.good } else { row.other });
    true
}

//! The moves of a run that make no event, by a row of its table.

ghost use Rattle.std.specs.Prelude.{◌≡◌, IfErr, IfSome, OnErr};
ghost use Rattle.sdv_table.specs.Reading.{seen_row};
ghost use Rattle.sdv_player.specs.Seen.{Registers, Remembers};
ghost use Rattle.sdv_player.specs.Passing.{StepsBy, PassesBy};
ghost use Rattle.sdv_player.specs.Play.{HasEnded};

use crate::next_step::Next;
use crate::state::State;
use sdv_graph::Target;
use sdv_table::Row;

/// Where a row without an event leads, or how the run ends there.
fn step<'a>(row: Row<'a>, state: &mut State) -> Result<Target, Next<'a>>
    ensures steps { StepsBy (seen_row row.entry) state.old state.new result }
    ensures stays { OnErr result (state.new ≡ state.old) }
    ensures ended { IfErr result HasEnded }
    ensures remembers { (r : Registers) → Remembers state.old.host r → Remembers state.new.host r }
    ensures kind { state.new.host.kind ≡ state.old.host.kind }
    ensures moves { state.new.moves ≡ state.old.moves }
    ensures commands { state.new.commands ≡ state.old.commands }
    ensures asked { state.new.asked ≡ state.old.asked }
    ensures app { state.new.app ≡ state.old.app }
{
    match row {
        Row::Send(_, _, _) => Err(Next::Number),
        Row::Phase(_, _, _) => Err(Next::Stopped),
        Row::Let(setting, next) => match state.host.value(setting) {
            None => Err(Next::Number),
            Some(number) => {
                state.host.set_number(setting.target, number);
                Ok(next)
            }
        },
        Row::If(condition, holds, other) => {
            if state.host.holds(condition) {
                Ok(holds)
            } else {
                Ok(other)
            }
        }
        Row::Flag(flag, on, next) => {
            state.host.set_flag(flag, on);
            Ok(next)
        }
        Row::Lines(width, next) => {
            state.host.set_lines(width);
            Ok(next)
        }
        Row::Loop(_, body, other) => {
            if state.place.take_turn() {
                Ok(body)
            } else {
                Ok(other)
            }
        }
        Row::Break(next) => Ok(next),
        Row::Done => Err(Next::Done),
        Row::Fault(name) => Err(Next::Fault(name)),
    }
}

/// A row without an event: goes to where it leads, or answers how the run ends.
pub fn pass<'a>(row: Row<'a>, state: &mut State) -> Option<Next<'a>>
    ensures passes { PassesBy (seen_row row.entry) state.old state.new result }
    ensures stays { IfSome result (λ _. state.new ≡ state.old) }
    ensures ended { IfSome result HasEnded }
    ensures remembers { (r : Registers) → Remembers state.old.host r → Remembers state.new.host r }
    ensures kind { state.new.host.kind ≡ state.old.host.kind }
    ensures moves { state.new.moves ≡ state.old.moves }
    ensures commands { state.new.commands ≡ state.old.commands }
    ensures asked { state.new.asked ≡ state.old.asked }
    ensures app { state.new.app ≡ state.old.app }
{
    match step(row, state) {
        Err(end) => Some(end),
        Ok(target) => {
            state.place.go_to(target);
            None
        }
    }
}

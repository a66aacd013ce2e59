//! The rows of commands and of phases, as far as their answers need them.

ghost use Rattle.std.specs.Prelude.{◌≡◌, ◌<◌, ◌/◌, drop, nat_lt, Option, Some, IfSome, IfNone};
ghost use Rattle.sdv_graph.specs.declared.tree.Address.{Address};
ghost use Rattle.sdv_graph.specs.Path.{sends, phases};
ghost use Rattle.sdv_table.specs.Reading.{phase_of, aim_of, own_argument, command_of, cases_of, cases_count, cases_place, counts_read, head_read, row_read, action_at};
ghost use Rattle.sdv_player.specs.Rows.{IsNoCommand, IsNoPhase};

use crate::words::{from_place, target_of, word};
use sdv_card::{Aim, Ask};
use sdv_graph::{Phase, Target};
use sdv_table::CaseRows;

/// The row of a command, without its address.
#[derive(Clone, Copy)]
pub struct CommandRow<'a> {
    /// The command.
    pub ask: Ask,
    /// Its cases.
    pub cases: CaseRows<'a>,
    /// Where it leads if none is taken.
    pub other: Target,
}

/// The row of a phase or a wait.
#[derive(Clone, Copy)]
pub struct PhaseRow {
    /// Which it is.
    pub phase: Phase,
    /// Where it leads if it ends well.
    pub good: Target,
    /// Where it leads otherwise.
    pub other: Target,
}

/// Whether the header counts a point.
fn is_point(words: &[u32], point: usize) -> bool
    ensures point { result ≡ nat_lt point (counts_read words.now).points }
{
    point < (word(words, 2) % 65536) as usize
}

/// A point's word.
fn head(words: &[u32], point: usize) -> u32
    requires { point < 65536 }
    ensures { result ≡ head_read words.now point }
{
    word(words, 8 + point)
}

/// The words from a point's row on.
fn row(words: &[u32], point: usize) -> &[u32]
    requires { point < 65536 }
    ensures { result.now ≡ row_read words.now point }
{
    from_place(words, (head(words, point) / 65536) as usize)
}

/// The command of a row.
fn ask_of(small: u32, row: &[u32]) -> Ask
    ensures { result ≡ (command_of small row.now).ask }
{
    let index = (small % 64) as u8;
    let argument = match index {
        6 | 38 | 41 => word(row, 1),
        _ => 0,
    };
    Ask {
        index,
        aim: if small / 64 % 2 == 0 {
            Aim::Rca
        } else {
            Aim::Plain
        },
        argument,
        count: (word(row, 2) % 65536) as u16,
    }
}

/// The cases of a row.
fn cases_of(small: u32, row: &[u32]) -> CaseRows<'_>
    ensures { cases_of result.count result.words.now
        ≡ cases_of (cases_count row.now) (drop (cases_place (small / 128)) row.now) }
{
    CaseRows {
        count: (word(row, 2) / 16_777_216) as u16,
        words: from_place(row, if small / 128 == 0 { 3 } else { 6 }),
    }
}

/// The phase of a row.
fn phase_of(small: u32) -> Phase
    ensures { result ≡ phase_of small }
{
    match small {
        0 => Phase::ReceiveBlocks,
        1 => Phase::ReceiveRegister,
        2 => Phase::GiveBlocks,
        _ => Phase::Wait,
    }
}

/// The command at a point, if its row is that of one.
pub fn command_at(words: &[u32], point: usize) -> Option<CommandRow<'_>>
    ensures some { IfSome result (λ row. (address : Option Address) × (action_at words.now point
        ≡ Some (sends (record { ask = row.ask; address = address }) (cases_of row.cases.count row.cases.words.now)
        row.other))) }
    ensures none { IfNone result (IsNoCommand (action_at words.now point)) }
{
    if !is_point(words, point) {
        return None;
    }
    let head = head(words, point);
    if head % 16 != 0 {
        return None;
    }
    let small = head / 16 % 4096;
    let row = row(words, point);
    Some(CommandRow {
        ask: ask_of(small, row),
        cases: cases_of(small, row),
        other: target_of(word(row, 0)),
    })
}

/// The phase or the wait at a point, if its row is that of one.
pub fn phase_at(words: &[u32], point: usize) -> Option<PhaseRow>
    ensures some { IfSome result (λ row. action_at words.now point ≡ Some (phases row.phase row.good row.other)) }
    ensures none { IfNone result (IsNoPhase (action_at words.now point)) }
{
    if !is_point(words, point) {
        return None;
    }
    let head = head(words, point);
    if head % 16 != 1 {
        return None;
    }
    let row = row(words, point);
    Some(PhaseRow {
        phase: phase_of(head / 16 % 4096),
        good: target_of(word(row, 0)),
        other: target_of(word(row, 1)),
    })
}

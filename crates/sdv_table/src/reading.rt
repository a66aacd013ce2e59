//! Reading tables, whatever their words are.

ghost use Rattle.std.specs.Prelude.{◌≡◌, ◌+◌, ◌<◌, ◌/◌, ◌%◌, ℕ, drop, slice_get, slice_index, option_map, Some};
ghost use Rattle.sdv_graph.specs.Walk.{Failed};
ghost use Rattle.sdv_graph.specs.Path.{Point, sends, tests, stops};
ghost use Rattle.sdv_graph.specs.Graph.{Graph};
ghost use Rattle.sdv_table.specs.Fits.{IsTable};
ghost use Rattle.sdv_table.specs.Loading.{IsSentRight};
ghost use Rattle.sdv_table.specs.Reading.{target_of, number_at, phase_of, width_of, aim_of, atom_of, code_size, change_of, condition_of, unit_of, position_of, address_of, own_argument, command_of, cases_place, cases_count, cases_of, let_of, name_of, expect_read, data_read, source_read, sending_read, action_of, head_read, place_read, small_read, row_read, counts_read, action_at, sending_at, seen_row};

use crate::format;
use crate::sending::{Data, Sending, Source};
use sdv_card::{Aim, Ask, Width};
use sdv_frames::Expect;
use sdv_graph::{
    Address, Atom, Change, Condition, Let, Phase, Position, ScriptCommand, Target, Unit,
};

/// The cases of a command, in a table.
#[derive(Clone, Copy)]
pub struct CaseRows<'a> {
    /// How many there are.
    pub count: u16,
    /// The words from the first one on: a word of guards and a target each.
    pub words: &'a [u32],
}

/// The name of a fault, in a table.
#[derive(Clone, Copy)]
pub struct NameRow<'a> {
    /// How many bytes it has.
    pub length: u16,
    /// The words from it on, four bytes each, the first one lowest.
    pub words: &'a [u32],
}

/// A statement, as a table says it.
#[derive(Clone, Copy)]
pub enum Row<'a> {
    /// A command, its cases, and where it leads if none is taken.
    Send(ScriptCommand, CaseRows<'a>, Target),
    /// A data phase or a wait, where it leads if it ends well, and where otherwise.
    Phase(Phase, Target, Target),
    /// A number variable is set.
    Let(Let, Target),
    /// Where the statement leads if the condition holds, and where otherwise.
    If(Condition, Target, Target),
    /// A flag is set (true) or cleared.
    Flag(usize, bool, Target),
    /// The host uses other data lines from here on.
    Lines(Width, Target),
    /// The head of a loop of so many turns: its body while turns are left, and its else block.
    Loop(u16, Target, Target),
    /// The innermost loop is left whose body the statement stands in.
    Break(Target),
    /// The run ends.
    Done,
    /// The run ends in the fault of this name.
    Fault(NameRow<'a>),
}

pub(crate) fn word(words: &[u32], at: usize) -> u32
    ensures { result ≡ slice_index words.now at }
{
    words.get(at).copied().unwrap_or(0)
}

pub(crate) fn target_of(word: u32) -> Target
    ensures { result ≡ target_of word }
{
    let turns = (word / format::UPPER) as u16;
    Target {
        to: (word % format::LEAVE) as usize,
        leave: (word / format::LEAVE % format::LEAVE_BOUND) as usize,
        enter: if turns == 0 { None } else { Some(turns) },
    }
}

fn number_at(words: &[u32], at: usize) -> u64
    requires { at < 16 }
    ensures { result ≡ number_at words.now at }
{
    u64::from(word(words, at)) + format::HIGH * u64::from(word(words, at + 1))
}

fn phase_of(code: u32) -> Phase
    ensures { result ≡ phase_of code }
{
    match code {
        format::RECEIVE_BLOCKS => Phase::ReceiveBlocks,
        format::RECEIVE_REGISTER => Phase::ReceiveRegister,
        format::GIVE_BLOCKS => Phase::GiveBlocks,
        _ => Phase::Wait,
    }
}

fn width_of(code: u32) -> Width
    ensures { result ≡ width_of code }
{
    match code {
        format::ONE_LINE => Width::One,
        format::FOUR_LINES => Width::Four,
        _ => Width::Eight,
    }
}

fn aim_of(code: u32) -> Aim
    ensures { result ≡ aim_of code }
{
    if code == format::AIM_RCA {
        Aim::Rca
    } else {
        Aim::Plain
    }
}

fn atom_of(code: u32, number: u64) -> Atom
    ensures { result ≡ atom_of code number }
{
    match code % format::ATOM_NAMED {
        format::ATOM_NUMBER => Atom::Number(number),
        format::ATOM_VARIABLE => Atom::Variable((code / format::ATOM_NAMED) as usize),
        format::ATOM_CSD_BLOCKS => Atom::CsdBlocks,
        format::ATOM_EXT_BLOCKS => Atom::ExtBlocks,
        _ => Atom::ExtBoot,
    }
}

fn code_size(code: u32) -> usize
    ensures size { result ≡ code_size code }
    ensures small { result < 3 }
{
    if code % format::ATOM_NAMED == format::ATOM_NUMBER {
        2
    } else {
        0
    }
}

fn change_of(code: u32, number: u64) -> Change
    ensures { result ≡ change_of code number }
{
    match code {
        format::CHANGE_SAME => Change::Same,
        format::CHANGE_PLUS => Change::Plus(number),
        _ => Change::Minus(number),
    }
}

fn condition_of(code: u32, number: u64) -> Condition
    ensures { result ≡ condition_of code number }
{
    let named = (code / format::NAMED) as usize;
    match code % format::NAMED {
        format::CONDITION_FLAG => Condition::Flag(named),
        format::CONDITION_AT_LEAST => Condition::AtLeast(named, number),
        _ => Condition::Below(named, number),
    }
}

fn unit_of(code: u32) -> Unit
    ensures { result ≡ unit_of code }
{
    match code % format::NAMED {
        format::UNIT_BLOCK => Unit::Block,
        format::UNIT_BYTE => Unit::Byte,
        _ => Unit::By((code / format::NAMED) as usize),
    }
}

fn position_of(code: u32, number: u64) -> Position
    ensures { result ≡ position_of code number }
{
    let named = (code / format::NAMED) as usize;
    match code % format::NAMED {
        format::POSITION_NUMBER => Position::Number(number),
        format::POSITION_VARIABLE => Position::Variable(named, None),
        _ => Position::Variable(named, Some(number)),
    }
}

fn address_of(has: u32, row: &[u32]) -> Option<Address>
    ensures { result ≡ address_of has row.now }
{
    if has == 0 {
        return None;
    }
    let how = word(row, 3);
    Some(Address {
        unit: unit_of(how % format::ADDRESS_POSITION),
        position: position_of(how / format::ADDRESS_POSITION, number_at(row, 4)),
    })
}

fn own_argument(index: u8, word: u32) -> u32
    ensures { result ≡ own_argument index word }
{
    match index {
        6 | 38 | 41 => word,
        _ => 0,
    }
}

fn command_of(small: u32, row: &[u32]) -> ScriptCommand
    ensures { result ≡ command_of small row.now }
{
    let index = (small % format::COMMAND_AIM) as u8;
    ScriptCommand {
        ask: Ask {
            index,
            aim: aim_of(small / format::COMMAND_AIM % format::AIM_BOUND),
            argument: own_argument(index, word(row, 1)),
            count: (word(row, 2) % format::UPPER) as u16,
        },
        address: address_of(small / format::COMMAND_ADDRESS, row),
    }
}

fn let_of(small: u32, row: &[u32]) -> Let
    ensures { result ≡ let_of small row.now }
{
    let code = small / format::LET_ATOM % format::ATOM_BOUND;
    Let {
        target: (small % format::LET_ATOM) as usize,
        atom: atom_of(code, number_at(row, 1)),
        change: change_of(
            small / format::LET_CHANGE,
            number_at(row, 1 + code_size(code)),
        ),
    }
}

fn expect_read(code: u32, index: u8) -> Expect
    ensures { result ≡ expect_read code index }
{
    match code {
        format::EXPECT_NOTHING => Expect::Nothing,
        format::EXPECT_R1 => Expect::R1(index),
        format::EXPECT_R2 => Expect::R2,
        format::EXPECT_R3 => Expect::R3,
        format::EXPECT_R6 => Expect::R6,
        _ => Expect::R7,
    }
}

fn data_read(code: u32) -> Data
    ensures { result ≡ data_read code }
{
    match code {
        format::NO_DATA => Data::Nothing,
        format::BUSY => Data::Busy,
        format::BLOCKS_IN => Data::BlocksIn,
        format::BLOCKS_OUT => Data::BlocksOut,
        format::SCR => Data::Scr,
        format::SD_STATUS => Data::SdStatus,
        _ => Data::ExtCsd,
    }
}

fn source_read(code: u32) -> Source
    ensures { result ≡ source_read code }
{
    match code {
        format::SOURCE_OWN => Source::Own,
        format::SOURCE_RCA => Source::Rca,
        _ => Source::Address,
    }
}

// The words from a place on.
pub(crate) fn from_place(words: &[u32], at: usize) -> &[u32]
    ensures { result.now ≡ drop at words.now }
{
    match words.get(at..) {
        None => &[],
        Some(rest) => rest,
    }
}

pub(crate) fn target_at(words: &[u32], at: usize) -> Target
    ensures { result ≡ target_of (slice_index words.now at) }
{
    target_of(word(words, at))
}

// Where the cases of a command begin in its row.
fn cases_place(has_address: u32) -> usize
    ensures { result ≡ cases_place has_address }
{
    if has_address == 0 { 3 } else { 6 }
}

fn send_row(small: u32, row: &[u32]) -> Row<'_>
    ensures { seen_row result ≡ sends (command_of small row.now)
        (cases_of (cases_count row.now) (drop (cases_place (small / 128)) row.now))
        (target_of (slice_index row.now 0)) }
{
    let cases = CaseRows {
        count: (word(row, 2) / format::ROW_CASES) as u16,
        words: from_place(row, cases_place(small / format::COMMAND_ADDRESS)),
    };
    Row::Send(command_of(small, row), cases, target_at(row, 0))
}

fn if_row(small: u32, row: &[u32]) -> Row<'_>
    ensures { seen_row result ≡ tests (condition_of small (number_at row.now 2)) (target_of (slice_index row.now 0))
        (target_of (slice_index row.now 1)) }
{
    let condition = condition_of(small, number_at(row, 2));
    Row::If(condition, target_at(row, 0), target_at(row, 1))
}

fn name_row(length: u32, row: &[u32]) -> Row<'_>
    requires { length < 65536 }
    ensures { seen_row result ≡ stops (Failed (name_of length row.now)) }
{
    Row::Fault(NameRow {
        length: length as u16,
        words: row,
    })
}

fn row_of(kind: u32, small: u32, row: &[u32]) -> Option<Row<'_>>
    requires { small < 4096 }
    ensures { option_map seen_row result ≡ action_of kind small row.now }
{
    let read = match kind {
        format::SEND => send_row(small, row),
        format::PHASE => Row::Phase(phase_of(small), target_at(row, 0), target_at(row, 1)),
        format::LET => Row::Let(let_of(small, row), target_at(row, 0)),
        format::IF => if_row(small, row),
        format::FLAG => Row::Flag(
            (small / format::FLAG_NAMED) as usize,
            small % format::FLAG_NAMED == 1,
            target_at(row, 0),
        ),
        format::LINES => Row::Lines(width_of(small), target_at(row, 0)),
        format::LOOP => Row::Loop(
            (word(row, 2) % format::UPPER) as u16,
            target_at(row, 0),
            target_at(row, 1),
        ),
        format::BREAK => Row::Break(target_at(row, 0)),
        format::DONE => Row::Done,
        format::FAULT => name_row(small, row),
        _ => return None,
    };
    Some(read)
}

// The point's own word; past the header's count it is some other one.
fn head_at(words: &[u32], number: usize) -> u32
    requires { number < 65536 }
    ensures { result ≡ head_read words.now number }
{
    word(words, format::HEADER_SIZE + number)
}

// Where a point's row stands.
pub(crate) fn place_at(words: &[u32], number: usize) -> usize
    requires { number < 65536 }
    ensures place { result ≡ place_read words.now number }
    ensures small { result < 65536 }
{
    (head_at(words, number) / format::UPPER) as usize
}

/// How many points the header counts.
pub(crate) fn points_at(words: &[u32]) -> usize
    ensures points { result ≡ (counts_read words.now).points }
    ensures few { result < 65536 }
{
    (word(words, 2) % format::UPPER) as usize
}

// The statement at a point, as the words say it.
pub(crate) fn read_row(words: &[u32], number: usize) -> Option<Row<'_>>
    ensures { option_map seen_row result ≡ action_at words.now number }
{
    if number >= points_at(words) {
        return None;
    }
    let head = head_at(words, number);
    row_of(
        head % format::SMALL,
        head / format::SMALL % format::SMALL_BOUND,
        from_place(words, place_at(words, number)),
    )
}

// How the command at a point is sent, as the words say it.
pub(crate) fn read_sending(words: &[u32], number: usize) -> Sending
    requires { number < 65536 }
    ensures { result ≡ sending_at words.now number }
{
    let small = head_at(words, number) / format::SMALL % format::SMALL_BOUND;
    let row = from_place(words, place_at(words, number));
    Sending {
        source: source_read(word(row, 2) / format::ROW_SOURCE % format::SOURCE_BOUND),
        argument: word(row, 1),
        expect: expect_read(
            word(row, 2) / format::ROW_EXPECT % format::EXPECT_BOUND,
            (small % format::COMMAND_AIM) as u8,
        ),
        follows: data_read(word(row, 2) / format::ROW_DATA % format::DATA_BOUND),
    }
}

/// The statement at a point, as the words say it: none past the last point, and none where they say none. Any words may
/// be read. Those of the table of a graph say what the graph has there.
pub fn row_at(words: &[u32], number: usize) -> Option<Row<'_>>
    ensures read { option_map seen_row result ≡ action_at words.now number }
    ensures table { (g : Graph) (most : ℕ) → IsTable g most words.now
        → option_map seen_row result ≡ option_map (λ p. p.action) (slice_get g.points number) }
{
    read_row(words, number)
}

/// How the command at a point is sent, as the words say it. Any words may be read, at any of 65,536 points. Those of the
/// table of a graph say what the command table says of the graph's command.
pub fn sending_at(words: &[u32], number: usize) -> Sending
    requires { number < 65536 }
    ensures read { result ≡ sending_at words.now number }
    ensures table { (g : Graph) (most : ℕ) → IsTable g most words.now
        → (p : Point) → slice_get g.points number ≡ Some p → IsSentRight g.kind p.action result }
{
    read_sending(words, number)
}

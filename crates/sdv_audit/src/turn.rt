//! How a line of a trace is understood.

ghost use Rattle.std.specs.Prelude.{◌≡◌};
ghost use Rattle.sdv_card.specs.CommandTable.{order_argument, argument_or_none, expect_of};
ghost use Rattle.sdv_audit.specs.Turns.{phase_count, is_counted, count_or_one, count_told, begins, is_count, is_sent, is_awaited, ask_told, transfer_ask, count_at, event_at, turn_of_ask, turn_of_phase, turn_of, known_after_phase, known_after_deed, known_after, is_expected_answer, is_expected};

use crate::known::HostKnown;
use crate::line::TraceLine;
use crate::possible::is_possible;
use sdv_card::state_table::{has_width, order};
use sdv_card::{Aim, Answer, Ask, Event, Shape, Width, argument as sent_argument, expect};
use sdv_frames::Command;
use sdv_registers::Kind;

/// A line of a trace, with the one behind it if there is one.
#[derive(Clone, Copy, Debug, PartialEq, Eq)]
pub struct Told {
    /// The line.
    pub line: TraceLine,
    /// The line behind it, which may tell how many blocks a command announced.
    pub next: Option<TraceLine>,
}

/// What the host does, as far as lines tell.
#[derive(Clone, Copy, Debug, PartialEq, Eq)]
pub enum Deed {
    /// An event of the tables.
    Known(Event),
    /// CMD18 or CMD25, as long as no line has told how many blocks it announces.
    Begins {
        /// It is CMD25.
        write: bool,
    },
}

/// How a line is understood.
#[derive(Clone, Copy, Debug, PartialEq, Eq)]
pub enum Turn {
    /// The run ended.
    Ends,
    /// The host of the tables sends no such command, or has no such data lines or data phase.
    Outside,
    /// The host uses these data lines from here on.
    Uses(Width),
    /// From here on there may be any card with this relative address, beside a host that uses these data lines.
    Resumes {
        /// The relative card address.
        rca: u16,
        /// The data lines.
        lines: Width,
    },
    /// A data phase has another length than was announced.
    OtherLength {
        /// The blocks or bytes that were announced.
        due: u16,
    },
    /// The host does this.
    Does(Deed),
}

/// The blocks of a data phase.
fn phase_count(next: Option<TraceLine>) -> Option<u16>
    ensures { result ≡ phase_count next }
{
    match next {
        Some(TraceLine::BlocksIn { count, .. }) => Some(count),
        Some(TraceLine::BlocksOut { count, .. }) => Some(count),
        _ => None,
    }
}

/// The command is CMD18 or CMD25.
fn is_counted(index: u8) -> bool
    ensures { result ≡ is_counted index }
{
    index == 18 || index == 25
}

/// The blocks that a command announces, or 1 where no line tells them.
fn count_told(command: Command, next: Option<TraceLine>) -> u16
    ensures { result ≡ count_told command.index command.argument next }
{
    if command.index == 17 || command.index == 24 {
        1
    } else if is_counted(command.index) {
        phase_count(next).unwrap_or(1)
    } else if command.index == 23 && command.argument < 65_536 {
        command.argument as u16
    } else {
        0
    }
}

/// The command announces blocks, and no line tells yet how many.
fn begins(index: u8, next: Option<TraceLine>) -> bool
    ensures { result ≡ begins index next }
{
    is_counted(index) && phase_count(next).is_none()
}

/// CMD18 or CMD25 with a count.
pub(crate) fn transfer_ask(write: bool, count: u16) -> Ask
    ensures { result ≡ transfer_ask write count }
{
    Ask {
        index: if write { 25 } else { 18 },
        aim: Aim::Plain,
        argument: 0,
        count,
    }
}

/// The count that the preset count of a shape demands, or 1.
#[tactic(auto, unfolding(sdv_card::specs::Code::digits))]
fn count_at(shape: Shape) -> u16
    ensures { result ≡ count_at shape.0 }
{
    let preset = (shape.0 / (1 << 32) % 65_536) as u16;
    if preset == 0 { 1 } else { preset }
}

impl Deed {
    /// The event at a shape; of those with an untold count, the one that is legal if any is.
    pub(crate) fn event_at(&self, shape: Shape) -> Event
        ensures { result ≡ event_at self.now shape.0 }
    {
        match self {
            Deed::Known(event) => *event,
            Deed::Begins { write } => Event::Send(transfer_ask(*write, count_at(shape))),
        }
    }
}

/// The command table has the ask, and the host sends this argument with it.
fn is_sent(kind: Kind, rca: u16, argument: u32, ask: &Ask) -> bool
    ensures { result ≡ is_sent kind rca argument ask.now }
{
    match order(kind, ask) {
        Some(order) => {
            let sent = sent_argument(Some(order), ask.argument, rca, u64::from(argument));
            sent == u64::from(argument)
        }
        None => false,
    }
}

/// The host waits for an answer, be there one or not.
fn is_awaited(answer: &Answer) -> bool
    ensures { result ≡ is_awaited answer.now }
{
    !matches!(answer, Answer::Sent)
}

/// The line of the command table by which the host sends the command, if there is one. Where two send the same bits, what
/// came of it tells which one it was.
fn ask_told(
    kind: Kind,
    rca: u16,
    command: Command,
    answer: &Answer,
    next: Option<TraceLine>,
) -> Option<Ask>
    ensures { result ≡ ask_told kind rca command answer.now next }
{
    let addressed = Ask {
        index: command.index,
        aim: Aim::Rca,
        argument: 0,
        count: 0,
    };
    let is_addressed = is_sent(kind, rca, command.argument, &addressed);
    if is_addressed && is_awaited(answer) {
        return Some(addressed);
    }
    let counted = Ask {
        index: command.index,
        aim: Aim::Plain,
        argument: 0,
        count: count_told(command, next),
    };
    if is_sent(kind, rca, command.argument, &counted) {
        return Some(counted);
    }
    let own = Ask {
        index: command.index,
        aim: Aim::Plain,
        argument: command.argument,
        count: 0,
    };
    if is_sent(kind, rca, command.argument, &own) {
        return Some(own);
    }
    if is_addressed { Some(addressed) } else { None }
}

fn turn_of_ask(untold: bool, write: bool, ask: Option<Ask>) -> Turn
    ensures { result ≡ turn_of_ask untold write ask }
{
    match ask {
        None => Turn::Outside,
        Some(_) if untold => Turn::Does(Deed::Begins { write }),
        Some(ask) => Turn::Does(Deed::Known(Event::Send(ask))),
    }
}

fn turn_of_phase(event: Event, count: u16, due: Option<u16>) -> Turn
    ensures { result ≡ turn_of_phase event count due }
{
    match due {
        None if count >= 1 => Turn::Does(Deed::Known(event)),
        None => Turn::Outside,
        Some(due) if count == due => Turn::Does(Deed::Known(event)),
        Some(due) => Turn::OtherLength { due },
    }
}

impl Told {
    /// How the line is understood, by what is known of the host.
    pub fn turn(&self, kind: Kind, known: &HostKnown) -> Turn
        ensures { result ≡ turn_of kind known.now self.now }
    {
        match self.line {
            TraceLine::Exchange { command, answer } => {
                let ask = ask_told(kind, known.rca, command, &answer, self.next);
                turn_of_ask(begins(command.index, self.next), command.index == 25, ask)
            }
            TraceLine::BlocksIn { count, .. } => {
                turn_of_phase(Event::RecvBlocks, count, known.announced)
            }
            TraceLine::RegisterIn { count, .. } => {
                turn_of_phase(Event::RecvReg, count, Some(known.register_length))
            }
            TraceLine::BlocksOut { count, .. } => {
                turn_of_phase(Event::Give, count, known.announced)
            }
            TraceLine::Wait { .. } => Turn::Does(Deed::Known(Event::Wait)),
            TraceLine::Lines { width } => {
                if has_width(kind, width) {
                    Turn::Uses(width)
                } else {
                    Turn::Outside
                }
            }
            TraceLine::Running { rca, lines } => Turn::Resumes { rca, lines },
            TraceLine::End => Turn::Ends,
        }
    }
}

impl HostKnown {
    fn after_phase(&self, line: &TraceLine) -> HostKnown
        ensures { result ≡ known_after_phase line.now self.now }
    {
        match line {
            TraceLine::BlocksIn { count, .. } | TraceLine::BlocksOut { count, .. } => HostKnown {
                announced: Some(*count),
                ..*self
            },
            _ => *self,
        }
    }

    fn after_deed(&self, kind: Kind, deed: &Deed, line: &TraceLine) -> HostKnown
        ensures { result ≡ known_after_deed kind deed.now line.now self.now }
    {
        match (deed, line) {
            (Deed::Known(Event::Send(ask)), TraceLine::Exchange { answer, .. }) => {
                self.after(order(kind, ask), answer)
            }
            (Deed::Known(Event::Send(_)), _) => *self,
            (Deed::Known(_), _) => self.after_phase(line),
            (Deed::Begins { .. }, _) => HostKnown {
                announced: None,
                ..*self
            },
        }
    }

    /// What is known of the host after a line.
    pub fn after_line(&self, kind: Kind, turn: &Turn, line: &TraceLine) -> HostKnown
        ensures { result ≡ known_after kind turn.now line.now self.now }
    {
        match turn {
            Turn::Does(deed) => self.after_deed(kind, deed, line),
            Turn::Uses(width) => HostKnown {
                lines: *width,
                ..*self
            },
            Turn::Resumes { rca, lines } => HostKnown::running(*rca, *lines),
            _ => *self,
        }
    }
}

/// What comes of the ask is of the format that the host waits for.
fn has_format(kind: Kind, ask: &Ask, line: &TraceLine) -> bool
    ensures { result ≡ is_expected_answer (expect_of kind ask.now) line.now }
{
    match line {
        TraceLine::Exchange { answer, .. } => {
            answer.is_of_kind(expect(order(kind, ask), ask.index))
        }
        _ => true,
    }
}

/// What came of it is of the format that the host waits for, and some card may answer so, beside a host that knows this CSD.
pub(crate) fn is_expected(kind: Kind, csd: Option<[u8; 15]>, deed: &Deed, line: &TraceLine) -> bool
    ensures { result ≡ is_expected kind csd deed.now line.now }
{
    match deed {
        Deed::Known(Event::Send(ask)) => {
            has_format(kind, ask, line) && is_possible(kind, csd, order(kind, ask), line)
        }
        Deed::Known(_) => true,
        Deed::Begins { write } => has_format(kind, &transfer_ask(*write, 1), line),
    }
}

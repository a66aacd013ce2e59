//! A port that answers anything: what it answers is drawn from a seed.

ghost use Rattle.std.specs.Prelude.{None};
ghost use Rattle.sdv_card.proofs.PortLaws.{shows_none_keeps};

use rand_core::Rng;
use rand_pcg::Pcg32;
use sdv_card::{Answer, CardPort, DataEnd, WaitEnd};
use sdv_frames::{Command, Expect, FrameFault, Reply};
use sdv_registers::{Csd, Kind};
use std::alloc::{AllocError, Global};

/// Words that an R1, R3, R6 or R7 may well have.
static WORDS: [u32; 16] = [
    0x100,
    0x120,
    0x700,
    0x900,
    0x920,
    0xb00,
    0xc00,
    0xd00,
    0xe00,
    0x1aa,
    0x0001_0500,
    0x1234_0500,
    0x00ff_8000,
    0x80ff_8000,
    0xc0ff_8000,
    0xc0ff_8080,
];

/// CSDs. The last two cannot be read.
static CSDS: [[u8; 15]; 6] = [
    [0x40, 0, 0, 0, 0, 0x09, 0, 0, 0, 0, 0, 0, 0, 0, 0],
    [0x40, 0, 0, 0, 0, 0x09, 0, 0x3f, 0xff, 0xff, 0, 0, 0, 0, 0],
    [
        0, 0, 0, 0, 0, 0x0a, 0x03, 0xc8, 0xc0, 0x03, 0x80, 0, 0, 0, 0,
    ],
    [
        0, 0, 0, 0, 0, 0x09, 0x03, 0xff, 0xc0, 0x03, 0x80, 0, 0, 0, 0,
    ],
    [0, 0, 0, 0, 0, 0x0c, 0, 0, 0, 0, 0, 0, 0, 0, 0],
    [0x80, 0, 0, 0, 0, 0x0c, 0, 0, 0, 0, 0, 0, 0, 0, 0],
];

/// Every fault of a frame.
pub static FAULTS: [FrameFault; 7] = [
    FrameFault::Length,
    FrameFault::StartBit,
    FrameFault::Direction,
    FrameFault::Index,
    FrameFault::Crc,
    FrameFault::EndBit,
    FrameFault::Reserved,
];

/// The word of an answer with which a bring-up goes on.
fn plain_word(expect: Expect) -> u32 {
    match expect {
        Expect::R1(3) => 0x500,
        Expect::R1(7) => 0x700,
        Expect::R1(55) => 0x120,
        Expect::R3 => 0xc0ff_8080,
        Expect::R6 => 0x1234_0500,
        Expect::R7 => 0x1aa,
        _ => 0x900,
    }
}

/// A word of an answer as it is asked for.
fn word(rng: &mut Pcg32, expect: Expect) -> u32 {
    match rng.next_u32() % 32 {
        0 => rng.next_u32(),
        1 => plain_word(expect) ^ (1 << (rng.next_u32() % 32)),
        2 | 3 => WORDS[rng.next_u32() as usize % 16],
        _ => plain_word(expect),
    }
}

/// A register, which is seldom a CSD that cannot be read.
fn register(rng: &mut Pcg32) -> [u8; 15] {
    let among = if rng.next_u32() % 16 == 0 { 6 } else { 4 };
    let mut register = CSDS[rng.next_u32() as usize % among];
    if rng.next_u32() % 64 == 0 {
        rng.fill_bytes(&mut register);
    }
    register
}

/// An answer of any kind.
fn any_answer(rng: &mut Pcg32) -> Answer {
    let word = word(rng, Expect::R1(13));
    let index = (word % 64) as u8;
    match rng.next_u32() % 8 {
        0 => Answer::Sent,
        1 => Answer::TimeOut,
        2 => Answer::Reply(Reply::R1 {
            index,
            status: word,
        }),
        3 => Answer::Reply(Reply::R2(register(rng))),
        4 => Answer::Reply(Reply::R3(word)),
        5 => Answer::Reply(Reply::R6(word)),
        6 => Answer::Reply(Reply::R7(word)),
        _ => Answer::Damaged(FAULTS[rng.next_u32() as usize % 7]),
    }
}

/// An answer as it is asked for, or seldom none.
fn asked_answer(rng: &mut Pcg32, expect: Expect) -> Answer {
    let lost = rng.next_u32() % 32 == 0;
    match expect {
        Expect::Nothing => Answer::Sent,
        _ if lost => Answer::TimeOut,
        Expect::R1(index) => Answer::Reply(Reply::R1 {
            index,
            status: word(rng, expect),
        }),
        Expect::R2 => Answer::Reply(Reply::R2(register(rng))),
        Expect::R3 => Answer::Reply(Reply::R3(word(rng, expect))),
        Expect::R6 => Answer::Reply(Reply::R6(word(rng, expect))),
        Expect::R7 => Answer::Reply(Reply::R7(word(rng, expect))),
    }
}

/// Whether a run goes on with the answer.
fn is_taken(kind: Kind, command: Command, expect: Expect, answer: &Answer) -> bool {
    match (expect, answer) {
        (Expect::Nothing, Answer::Sent) => true,
        (Expect::Nothing, _) | (_, Answer::Sent | Answer::Damaged(_)) => false,
        (_, Answer::TimeOut) => true,
        (Expect::R1(wanted), Answer::Reply(Reply::R1 { index, .. })) => *index == wanted,
        (Expect::R2, Answer::Reply(Reply::R2(csd))) if command.index == 9 => {
            Csd::read(kind, csd).is_ok()
        }
        (Expect::R2, Answer::Reply(Reply::R2(_))) => true,
        (Expect::R3, Answer::Reply(Reply::R3(_))) => true,
        (Expect::R6, Answer::Reply(Reply::R6(_))) => true,
        (Expect::R7, Answer::Reply(Reply::R7(_))) => true,
        _ => false,
    }
}

/// Adds what the line of an event says of an answer.
fn put_answer(lines: &mut String, answer: &Answer) -> Result<(), AllocError> {
    match answer {
        Answer::Sent => lines.push_str("-"),
        Answer::TimeOut => lines.push_str("timeout"),
        Answer::Reply(Reply::R1 { status, .. }) => write!(lines, "R1 {status:08x}"),
        Answer::Reply(Reply::R2(register)) => {
            lines.push_str("R2 ")?;
            for byte in register {
                write!(lines, "{byte:02x}")?;
            }
            Ok(())
        }
        Answer::Reply(Reply::R3(word)) => write!(lines, "R3 {word:08x}"),
        Answer::Reply(Reply::R6(word)) => write!(lines, "R6 {word:08x}"),
        Answer::Reply(Reply::R7(word)) => write!(lines, "R7 {word:08x}"),
        Answer::Damaged(_) => lines.push_str("damaged"),
    }
}

/// Adds the line of a command and its answer.
fn put_exchange(lines: &mut String, command: Command, answer: &Answer) -> Result<(), AllocError> {
    let Command { index, argument } = command;
    write!(lines, "CMD{index} {argument:08x} ")?;
    put_answer(lines, answer)?;
    lines.push('\n')
}

/// A port that answers anything, beside the text of what happened there.
#[derive(Drop)]
pub struct HostilePort {
    alloc: Global,
    pub kind: Kind,
    pub rng: Pcg32,
    /// One answer in so many may be of another kind than asked; none where this is 0.
    others: u32,
    /// The answer to every command, if it is not drawn.
    fixed: Option<Answer>,
    /// What the last command asked for.
    pub asked: Expect,
    /// A line for each event.
    pub lines: String,
    /// Where the last line begins.
    pub last: usize,
    /// The bytes of the phases that ended well.
    pub output: Vec<u8>,
    /// A run may go on with the last answer.
    pub taken: bool,
    /// The first bytes of the blocks that it was given.
    pub given: Vec<u8>,
}

impl HostilePort {
    pub fn new(alloc: Global, kind: Kind, seed: u32, others: u32) -> HostilePort {
        HostilePort {
            alloc,
            kind,
            rng: Pcg32::new(seed as u64, 1),
            others,
            fixed: None,
            asked: Expect::Nothing,
            lines: String::new(alloc),
            last: 0,
            output: Vec::new(alloc),
            taken: true,
            given: Vec::new(alloc),
        }
    }

    /// A port that gives one answer to every command.
    pub fn answering(alloc: Global, kind: Kind, answer: Answer) -> HostilePort {
        HostilePort {
            fixed: Some(answer),
            ..HostilePort::new(alloc, kind, 0, 0)
        }
    }

    /// An answer to a command, by how the port was made.
    pub fn answer(&mut self, expect: Expect) -> Answer {
        if let Some(answer) = self.fixed {
            return answer;
        }
        if self.others != 0 && self.rng.next_u32() % self.others == 0 {
            return any_answer(&mut self.rng);
        }
        asked_answer(&mut self.rng, expect)
    }

    /// Keeps what a command was answered.
    pub fn record(&mut self, command: Command, expect: Expect, answer: &Answer) {
        self.asked = expect;
        self.last = self.lines.len();
        let whole = put_exchange(&mut self.lines, command, answer).is_ok();
        self.taken = whole && is_taken(self.kind, command, expect, answer);
    }

    fn line(&mut self, text: &str) {
        self.last = self.lines.len();
        let whole = writeln!(self.lines, "{text}").is_ok();
        self.taken = self.taken && whole;
    }

    /// The end of a phase, with its line.
    fn phase(&mut self, word: &str, count: usize) -> DataEnd {
        let (end, said) = match self.rng.next_u32() % 8 {
            0 => (DataEnd::Cut, "cut"),
            _ => (DataEnd::Ok, "ok"),
        };
        self.last = self.lines.len();
        let whole = writeln!(self.lines, "{word} {count} {said}").is_ok();
        self.taken = self.taken && whole;
        end
    }
}

impl CardPort for HostilePort {
    ghost steps = { λ port call returned after. Unit {0} };

    ghost card = { λ port. None };

    fn exchange(&mut self, command: Command, expect: Expect) -> Answer {
        let answer = self.answer(expect);
        self.record(command, expect, &answer);
        answer
    }

    fn data_in(&mut self, _lines: u8, blocks: &mut [[u8; 512]]) -> DataEnd {
        let end = self.phase("IN", blocks.len());
        for block in blocks.iter_mut() {
            self.rng.fill_bytes(block);
            if end == DataEnd::Ok {
                self.taken = self.output.extend_from_slice(block).is_ok() && self.taken;
            }
        }
        end
    }

    fn data_in_reg(&mut self, _lines: u8, bytes: &mut [u8]) -> DataEnd {
        let end = self.phase("REG", bytes.len());
        self.rng.fill_bytes(bytes);
        end
    }

    fn data_out(&mut self, _lines: u8, blocks: &[[u8; 512]]) -> DataEnd {
        for block in blocks {
            self.taken = self.given.push(block[0]).is_ok() && self.taken;
        }
        self.phase("OUT", blocks.len())
    }

    fn wait(&mut self) -> WaitEnd {
        let (end, text) = match self.rng.next_u32() % 4 {
            0 => (WaitEnd::Late, "WAIT late"),
            _ => (WaitEnd::Ok, "WAIT ok"),
        };
        self.line(text);
        end
    }

    ghost keeps_tables = { shows_none_keeps (λ port call returned after. Unit {0}) };
}

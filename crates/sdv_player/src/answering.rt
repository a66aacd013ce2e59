//! What a player makes of what its events returned.

ghost use Rattle.std.specs.Prelude.{◌≡◌, true};
ghost use Rattle.sdv_table.specs.Sending.{rca_by, announced_from, length_from, host_by};
ghost use Rattle.sdv_player.specs.Seen.{Registers, Remembers, kind_of, host_of};
ghost use Rattle.sdv_player.specs.Hearing.{heard, is_heard, is_readable, registers_after, bytes_of, registers_kept, registers_ended};

use crate::host::HostNumbers;
use sdv_card::{Answer, Ask};
use sdv_frames::{Expect, Reply};
use sdv_graph::Phase;
use sdv_registers::{Csd, ExtCsd, PublishedRca};
use sdv_table::{Data, Sending};

/// What a player hears of an answer: a damaged one is a lost one.
pub fn heard(answer: &Answer) -> Answer
    ensures { result ≡ heard answer.now }
{
    match answer {
        Answer::Damaged(_) => Answer::TimeOut,
        whole => *whole,
    }
}

/// The relative card address after a command.
fn rca_after(index: u8, expect: Expect, answer: &Answer, rca: u16) -> u16
    ensures { result ≡ rca_by index expect answer.now rca }
{
    match (index, expect, answer) {
        (0, _, _) => 0,
        (3, Expect::R6, Answer::Reply(Reply::R6(word))) => PublishedRca(*word).rca(),
        (3, Expect::R6, _) => rca,
        (3, _, _) => 1,
        _ => rca,
    }
}

/// The blocks that were announced last, after a command.
fn announced_after(follows: Data, count: u16, before: u16) -> u16
    ensures { result ≡ announced_from follows count before }
{
    match follows {
        Data::BlocksIn | Data::BlocksOut => count,
        _ => before,
    }
}

/// The bytes of the register that was asked for last, after a command.
fn length_after(follows: Data, before: u16) -> u16
    ensures { result ≡ length_from follows before }
{
    match follows {
        Data::Scr => 8,
        Data::SdStatus => 64,
        Data::ExtCsd => 512,
        _ => before,
    }
}

impl HostNumbers {
    /// Takes in the CSD of an answer, if it has one. False where it cannot be read: nothing is taken in then.
    fn hear_csd(&mut self, index: u8, answer: &Answer) -> bool
        ensures readable { result ≡ is_readable (kind_of self.old) index answer.now }
        ensures remembers { (r : Registers) → result ≡ true → Remembers self.old r
            → Remembers self.new (registers_after index answer.now r) }
        ensures host { (r : Registers) → host_of self.new r ≡ host_of self.old r }
        ensures kind { self.new.kind ≡ self.old.kind }
    {
        if let (9, Answer::Reply(Reply::R2(register))) = (index, answer) {
            let Ok(csd) = Csd::read(self.kind(), register) else {
                return false;
            };
            self.csd_blocks = csd.blocks();
            self.csd_read = 1;
        }
        true
    }

    /// Takes in what came of a command. False for an answer that a run does not go on with: nothing is taken in then.
    pub fn hear(&mut self, ask: Ask, sending: Sending, answer: &Answer) -> bool
        ensures heard { result ≡ is_heard (kind_of self.old) ask sending answer.now }
        ensures remembers { (r : Registers) → result ≡ true → Remembers self.old r
            → Remembers self.new (registers_after ask.index answer.now r) }
        ensures host { (r : Registers) → result ≡ true
            → host_of self.new (registers_after ask.index answer.now r)
            ≡ host_by ask sending answer.now (host_of self.old r) }
        ensures kind { self.new.kind ≡ self.old.kind }
    {
        if !answer.is_of_kind(sending.expect) || !self.hear_csd(ask.index, answer) {
            return false;
        }
        self.rca = rca_after(ask.index, sending.expect, answer, self.rca);
        self.announced = announced_after(sending.follows, ask.count, self.announced);
        self.register_length = length_after(sending.follows, self.register_length);
        true
    }

    /// Takes in the EXT_CSD of a register phase that ended well, if it was one.
    fn keep(&mut self, register: Option<&[u8; 512]>)
        ensures remembers { (r : Registers) → Remembers self.old r
            → Remembers self.new (registers_kept self.old.register_length (bytes_of register.entry) r) }
        ensures host { (r : Registers) → host_of self.new r ≡ host_of self.old r }
        ensures kind { self.new.kind ≡ self.old.kind }
    {
        if let (512, Some(register)) = (self.register_length, register) {
            let register = ExtCsd::new(register);
            self.ext_blocks = u64::from(register.sec_count());
            self.ext_boot = register.boot_blocks();
            self.ext_read = 1;
        }
    }

    /// Takes in how a phase or a wait ended.
    pub fn hear_end(&mut self, phase: Phase, well: bool, register: Option<&[u8; 512]>)
        ensures remembers { (r : Registers) → Remembers self.old r
            → Remembers self.new (registers_ended phase well self.old.register_length (bytes_of register.entry) r) }
        ensures host { (r : Registers) → host_of self.new r ≡ host_of self.old r }
        ensures kind { self.new.kind ≡ self.old.kind }
    {
        if let (Phase::ReceiveRegister, true) = (phase, well) {
            self.keep(register);
        }
    }
}

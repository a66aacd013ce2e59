//! What the lines of answers mean.

ghost use Rattle.std.specs.Prelude.{◌≡◌, ◌≢◌, MatchBool, MatchOption, List, ℕ, length};
ghost use Rattle.sdv_card.specs.declared.answer.Answer.{Answer};
ghost use Rattle.sdv_card.specs.declared.answer.DataEnd.{DataEnd};
ghost use Rattle.sdv_card.specs.declared.answer.WaitEnd.{WaitEnd};
ghost use Rattle.sdv_frames.specs.declared.reply.Reply.{Reply};
ghost use Rattle.sdv_lines.specs.Texts.{AreDigits};
ghost use Rattle.sdv_lines.specs.Answers.{IsWordOf, IsReplyOf, SaysLost, TellsReply, TellsAnswer, data_end_text, wait_end_text};

use crate::words;
use sdv_card::{Answer, DataEnd, WaitEnd};
use sdv_frames::{Expect, Reply};

/// The bytes of a response, which follow the name of its format.
fn bytes_after<const N: usize>(format: &[u8], text: &[u8]) -> Option<[u8; N]>
    ensures { MatchOption result
        ((bytes : List ℕ) → length bytes ≡ N → IsReplyOf format.now bytes text.now → ⊥)
        (λ bytes. IsReplyOf format.now bytes text.now) }
{
    let digits = text.strip_prefix(format)?;
    let mut bytes = [0; N];
    match hex::decode_to_slice(digits, &mut bytes) {
        Ok(()) => Some(bytes),
        Err(_) => None,
    }
}

/// The word of a response, which follows the name of its format.
fn word_after(format: &[u8], text: &[u8]) -> Option<u32>
    ensures { MatchOption result ((word : ℕ) → IsWordOf format.now word text.now → ⊥)
        (λ word. IsWordOf format.now word text.now) }
{
    match bytes_after(format, text) {
        Some(bytes) => Some(u32::from_be_bytes(bytes)),
        None => None,
    }
}

/// The response that was waited for, if the text tells it.
fn reply_of(expect: Expect, text: &[u8]) -> Option<Reply>
    ensures { MatchOption result ((reply : Reply) → TellsReply expect reply text.now → ⊥)
        (λ reply. TellsReply expect reply text.now) }
{
    match expect {
        Expect::Nothing => None,
        Expect::R1(index) => Some(Reply::R1 {
            index,
            status: word_after(words::R1_CAME, text)?,
        }),
        Expect::R2 => Some(Reply::R2(bytes_after(words::R2_CAME, text)?)),
        Expect::R3 => Some(Reply::R3(word_after(words::R3_CAME, text)?)),
        Expect::R6 => Some(Reply::R6(word_after(words::R6_CAME, text)?)),
        Expect::R7 => Some(Reply::R7(word_after(words::R7_CAME, text)?)),
    }
}

/// Whether the text is this word.
fn is_word(text: &[u8], word: &[u8]) -> bool
    ensures { MatchBool result (text.now ≡ word.now) (text.now ≢ word.now) }
{
    text == word
}

/// Whether no response came that says anything: none in time, or a damaged one.
fn is_lost(text: &[u8]) -> bool
    ensures { MatchBool result (SaysLost text.now) (SaysLost text.now → ⊥) }
{
    is_word(text, words::TIMEOUT) || is_word(text, words::DAMAGED)
}

/// What came of a command that has a response, if the text tells it. A damaged response counts as none.
fn response_of(expect: Expect, text: &[u8]) -> Option<Answer>
    ensures { expect ≢ Expect.Nothing → MatchOption result ((answer : Answer) → TellsAnswer expect answer text.now → ⊥)
        (λ answer. TellsAnswer expect answer text.now) }
{
    if is_lost(text) {
        return Some(Answer::TimeOut);
    }
    match reply_of(expect, text) {
        Some(reply) => Some(Answer::Reply(reply)),
        None => None,
    }
}

/// What came of a command, if the text tells it.
pub fn answer_of(expect: Expect, text: &[u8]) -> Option<Answer>
    ensures { MatchOption result ((answer : Answer) → TellsAnswer expect answer text.now → ⊥)
        (λ answer. TellsAnswer expect answer text.now) }
{
    if expect != Expect::Nothing {
        response_of(expect, text)
    } else if is_word(text, words::NOTHING) {
        Some(Answer::Sent)
    } else {
        None
    }
}

/// How a phase ended, if the text tells it.
pub fn data_end_of(text: &[u8]) -> Option<DataEnd>
    ensures { MatchOption result ((end : DataEnd) → text.now ≡ data_end_text end → ⊥)
        (λ end. text.now ≡ data_end_text end) }
{
    if is_word(text, words::OK) {
        Some(DataEnd::Ok)
    } else if is_word(text, words::CUT) {
        Some(DataEnd::Cut)
    } else {
        None
    }
}

/// How a wait ended, if the text tells it.
pub fn wait_end_of(text: &[u8]) -> Option<WaitEnd>
    ensures { MatchOption result ((end : WaitEnd) → text.now ≡ wait_end_text end → ⊥)
        (λ end. text.now ≡ wait_end_text end) }
{
    if is_word(text, words::OK) {
        Some(WaitEnd::Ok)
    } else if is_word(text, words::LATE) {
        Some(WaitEnd::Late)
    } else {
        None
    }
}

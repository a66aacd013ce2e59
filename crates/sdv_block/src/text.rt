//! The text of a batch, line by line.

ghost use Rattle.std.specs.Prelude.{◌≡◌, ◌++◌, ◌<◌, ◌≤◌, ℕ, List, IfOk, MatchResult, codes, length, string_bytes};
ghost use Rattle.std.specs.Fmt.{decimal};
ghost use Rattle.sdv_script.specs.Rules.{max_bytes};
ghost use Rattle.sdv_block.specs.BatchText.{bring_up_text, line, request_text, test_text};

use crate::fault::BlockFault;
use crate::request::Request;
use itoa::Buffer;
use sdv_registers::Kind;
use sdv_script::MAX_BYTES;
use std::alloc::AllocError;

/// The lines that bring an SD card up.
const SD_BRING_UP: &str = "card sd
flags hc
nums cap
send 0 { else { } }
send 8 { else { } }
loop 1000 { send 55 { app { send 41 0x40ff8000 { ocr.ready & ocr.block { set hc break } ocr.ready { break } answer { } else { fault lost41 } } } else { fault lost55 } } } else { fault busy }
send 2 { answer { } else { fault cid } }
send 3 { clean { } else { fault rca } }
send 9 { answer { } else { fault csd } }
send 7 { clean { } else { fault select } }
send 16 { clean { } else { fault blen } }
let cap = csd.blocks
";

/// The lines that bring an e.MMC device up.
const EMMC_BRING_UP: &str = "card emmc
flags hc
nums cap
send 0 { else { } }
loop 1000 { send 1 { ocr.ready & ocr.block { set hc break } ocr.ready { break } answer { } else { fault lost1 } } } else { fault busy }
send 2 { answer { } else { fault cid } }
send 3 { clean { } else { fault rca } }
send 9 { answer { } else { fault csd } }
send 7 { clean { } else { fault select } }
send 16 { clean { } else { fault blen } }
if hc { send 8 { clean { recv reg { ok { let cap = ext.blocks } else { fault ext } } } else { fault ext } } } else { let cap = csd.blocks }
";

/// The lines after the block of a read of one block.
const READ_LINES: &str = " { clean { } else { fault read } }
recv { ok { } else { fault read } }
";

/// The lines after the count of a read of several blocks.
const STOPPED_READ_LINES: &str = " { clean { } else { fault read } }
recv { ok { } else { fault read } }
send 12 { answer { } else { fault read } }
loop 1000 { send 13 { clean & state=tran { break } answer { } else { fault read } } } else { fault read }
";

/// The lines after the block of a write of one block.
const WRITE_LINES: &str = " { clean { } else { fault write } }
give { ok { } else { fault write } }
loop 1000 { wait { ok { break } else { } } } else { fault busy }
send 13 { clean & state=tran { } else { fault write } }
";

/// The lines after the count of a write of several blocks.
const STOPPED_WRITE_LINES: &str = " { clean { } else { fault write } }
give { ok { } else { fault write } }
send 12 { clean { } else { fault write } }
loop 1000 { wait { ok { break } else { } } } else { fault busy }
send 13 { clean & state=tran { } else { fault write } }
";

/// The lines that bring a card of a kind up.
pub(crate) fn bring_up(kind: Kind) -> &'static str
    ensures { (others : List ℕ) → result.now ++ others ≡ bring_up_text kind others }
{
    match kind {
        Kind::Sd => SD_BRING_UP,
        Kind::Emmc => EMMC_BRING_UP,
    }
}

/// Adds the line that ends the script in the fault `beyond` where the card has fewer blocks.
pub(crate) fn push_test(text: &mut String, least: u64) -> Result<(), AllocError>
    ensures { IfOk result (λ _. (others : List ℕ) →
        string_bytes text.new ++ others ≡ string_bytes text.old ++ test_text least others) }
{
    push_single(text, "if cap >= ", least, " { } else { fault beyond }\n")
}

/// Adds a number, in decimal digits.
fn push_number(text: &mut String, number: u64) -> Result<(), AllocError>
    ensures { IfOk result (λ _. string_bytes text.new ≡ string_bytes text.old ++ decimal number) }
{
    let mut buffer = Buffer::new();
    text.push_str(buffer.format(number))
}

/// Adds lines that begin with words and a block.
fn push_single(text: &mut String, words: &str, block: u64, lines: &str) -> Result<(), AllocError>
    ensures { IfOk result (λ _.
        string_bytes text.new ≡ string_bytes text.old ++ (words.now ++ (decimal block ++ lines.now))) }
{
    text.push_str(words)?;
    push_number(text, block)?;
    text.push_str(lines)
}

/// Adds lines that begin with words, a block and a count.
fn push_counted(
    text: &mut String,
    words: &str,
    block: u64,
    count: u64,
    lines: &str,
) -> Result<(), AllocError>
    ensures { IfOk result (λ _. string_bytes text.new ≡ string_bytes text.old
        ++ (words.now ++ (decimal block ++ (codes " count " ++ (decimal count ++ lines.now))))) }
{
    push_single(text, words, block, " count ")?;
    push_number(text, count)?;
    text.push_str(lines)
}

/// Adds the lines that read blocks.
fn push_read(text: &mut String, first: u64, count: u64) -> Result<(), AllocError>
    ensures { IfOk result (λ _. (others : List ℕ) →
        string_bytes text.new ++ others ≡ string_bytes text.old ++ request_text (Request.Read first count) others) }
{
    if count == 1 {
        push_single(text, "send 17 at by hc ", first, READ_LINES)
    } else {
        push_counted(text, "send 18 at by hc ", first, count, STOPPED_READ_LINES)
    }
}

/// Adds the lines that write blocks.
fn push_write(text: &mut String, first: u64, count: u64) -> Result<(), AllocError>
    ensures { IfOk result (λ _. (others : List ℕ) →
        string_bytes text.new ++ others ≡ string_bytes text.old ++ request_text (Request.Write first count) others) }
{
    if count == 1 {
        push_single(text, "send 24 at by hc ", first, WRITE_LINES)
    } else {
        push_counted(text, "send 25 at by hc ", first, count, STOPPED_WRITE_LINES)
    }
}

/// Adds the lines of a request.
pub(crate) fn push_request(text: &mut String, request: Request) -> Result<(), AllocError>
    ensures { IfOk result (λ _. (others : List ℕ) →
        string_bytes text.new ++ others ≡ string_bytes text.old ++ request_text request others) }
{
    match request {
        Request::Read { first, count } => push_read(text, first, count),
        Request::Write { first, count } => push_write(text, first, count),
    }
}

/// Refuses a text that is too long for a script.
pub(crate) fn short_enough(text: &str) -> Result<(), BlockFault>
    ensures { MatchResult result (λ _. length text.now ≤ max_bytes)
        (λ fault. (fault ≡ BlockFault.Limit) × (max_bytes < length text.now)) }
{
    if text.len() > MAX_BYTES {
        return Err(BlockFault::Limit);
    }
    Ok(())
}

/// Adds the line that ends the script.
pub(crate) fn push_end(text: &mut String) -> Result<(), AllocError>
    ensures { IfOk result (λ _. (others : List ℕ) →
        string_bytes text.new ++ others ≡ string_bytes text.old ++ line (codes "done") others) }
{
    text.push_str("done\n")
}

//! The data phase that the request of a command announces.

ghost use Rattle.std.specs.Prelude.{◌≡◌};
ghost use Rattle.sdv_lines.specs.Due.{due_of, in_blocks, in_bytes, out_blocks};

use sdv_frames::{Command, Expect};

/// What a phase moves, as seen from the host.
#[derive(Clone, Copy, Debug, PartialEq, Eq)]
pub enum Load {
    /// Blocks from the card.
    BlocksIn,
    /// Bytes of a register from the card.
    BytesIn,
    /// Blocks to the card.
    BlocksOut,
}

/// The data phase that follows a command if the card takes it.
#[derive(Clone, Copy, Debug, PartialEq, Eq)]
pub struct Due {
    /// What it moves.
    pub load: Load,
    /// How many blocks or bytes.
    pub count: u16,
    /// Over how many data lines.
    pub lines: u8,
}

/// What a host announces at its next command.
#[derive(Clone, Copy, Debug, PartialEq, Eq)]
pub struct Announcement {
    /// How many blocks the host moves behind it, if it is CMD18 or CMD25.
    pub blocks: u16,
    /// The data lines that the host uses.
    pub lines: u8,
}

/// The data phase that follows a command, by the command table. Index 13 is ACMD13 where the card said that it takes an
/// application command.
#[tactic(auto, unfolding(crate::specs::Due::due_of))]
pub fn due_of(
    command: Command,
    expect: Expect,
    application: bool,
    announced: Announcement,
) -> Option<Due>
    ensures { result ≡ due_of command expect application announced }
{
    let Announcement { blocks, lines } = announced;
    if expect != Expect::R1(command.index) {
        return None;
    }
    match command.index {
        8 => Some(bytes_in(512, lines)),
        13 if application => Some(bytes_in(64, lines)),
        17 => Some(blocks_in(1, lines)),
        18 => Some(blocks_in(blocks, lines)),
        24 => Some(blocks_out(1, lines)),
        25 => Some(blocks_out(blocks, lines)),
        51 => Some(bytes_in(8, lines)),
        _ => None,
    }
}

fn blocks_in(count: u16, lines: u8) -> Due
    ensures { result ≡ in_blocks count lines }
{
    Due {
        load: Load::BlocksIn,
        count,
        lines,
    }
}

fn bytes_in(count: u16, lines: u8) -> Due
    ensures { result ≡ in_bytes count lines }
{
    Due {
        load: Load::BytesIn,
        count,
        lines,
    }
}

fn blocks_out(count: u16, lines: u8) -> Due
    ensures { result ≡ out_blocks count lines }
{
    Due {
        load: Load::BlocksOut,
        count,
        lines,
    }
}

//! How a simulated card answers a row.

ghost use Rattle.std.specs.Prelude.{◌≡◌, ◌<◌, ◌^◌, IfSome};
ghost use Rattle.sdv_frames.specs.Frame.{HasIndex};
ghost use Rattle.sdv_behavior.specs.Registers.{cid_of};
ghost use Rattle.sdv_behavior.specs.Replies.{shows_app, shows_switch, error_shown, reply_of};

use crate::behavior::StatusError;
use crate::card_desc::CardDesc;
use crate::card_state::CardState;
use crate::choice::Choice;
use crate::words::{address_word, conditions_word, doubt_of, leaves_doubt, status_word};
use sdv_card::state_table::row_index;
use sdv_card::{Kind, Row};
use sdv_frames::Reply;

/// Bits 127..8 of the CID.
fn cid_of(kind: Kind) -> [u8; 15]
    ensures { result ≡ cid_of kind }
{
    match kind {
        Kind::Sd => [
            0x00, 0x58, 0x58, 0x53, 0x44, 0x56, 0x20, 0x20, 0x10, 0x00, 0x00, 0x00, 0x01, 0x01,
            0x81,
        ],
        Kind::Emmc => [
            0x00, 0x01, 0x58, 0x53, 0x44, 0x56, 0x45, 0x52, 0x49, 0x10, 0x00, 0x00, 0x00, 0x01,
            0x17,
        ],
    }
}

/// The answer shows bit 5, where the card took the row, and CMD55 not as an ordinary command.
fn shows_app(row: Row) -> bool
    ensures { result ≡ shows_app row }
{
    match row {
        Row::Cmd55 | Row::Acmd6 { .. } | Row::Acmd13 | Row::Acmd51 => true,
        _ => false,
    }
}

/// The answer shows a pending switch error in bit 7.
fn shows_switch(row: Row) -> bool
    ensures { result ≡ shows_switch row }
{
    match row {
        Row::Cmd13 => true,
        _ => false,
    }
}

/// The error in a status: where one of an earlier write is pending, one that leaves a doubt.
fn error_shown(error: StatusError, pending: bool) -> StatusError
    ensures { result ≡ error_shown error pending }
{
    if pending { doubt_of(error) } else { error }
}

/// The answer of a card that took the row, or stayed. With `app` bit 5 is set where the row shows it.
pub fn reply_of(
    desc: &CardDesc,
    row: Row,
    t: &CardState,
    app: bool,
    error: StatusError,
    choice: Choice,
) -> Option<Reply>
    ensures reply { result ≡ reply_of desc.now row t.now app error choice }
    ensures index { IfSome result HasIndex }
{
    let reply = match row {
        Row::Cmd0 | Row::Cmd7NotAddressed => return None,
        Row::Cmd8Sd if desc.version != 2 => return None,
        Row::Cmd8Sd => Reply::R7(0x1aa),
        Row::Cmd1 => Reply::R3(conditions_word(Kind::Emmc, desc.block_unit, choice.ready)),
        Row::Acmd41 { .. } => Reply::R3(conditions_word(Kind::Sd, desc.block_unit, choice.ready)),
        Row::Cmd2 | Row::Cmd10 => Reply::R2(cid_of(desc.kind)),
        Row::Cmd3Sd => Reply::R6(address_word(choice.address, t.state, leaves_doubt(error))),
        Row::Cmd9 => Reply::R2(desc.csd),
        _ => Reply::R1 {
            index: row_index(row),
            status: status_word(
                t.state,
                shows_app(row) && app,
                shows_switch(row) && (t.mode.error && !choice.keeps_switch_error),
                error_shown(error, t.unshown_error),
            ),
        },
    };
    Some(reply)
}

//! The shapes of cards, in words.

ghost use Rattle.std.specs.Prelude.{◌≡◌};
ghost use Rattle.sdv_telling.specs.Cards.{state_word};

use crate::text::{Text, put, put_all, words_if};
use itoa::Buffer;
use sdv_card::{EraseStage, Fields, Partition, Shape, State, Transfer, Width};
use std::alloc::{AllocError, Global};

/// The word of a state, as scripts write it.
pub fn state_word(state: State) -> &'static str
    ensures { result.now ≡ state_word state }
{
    match state {
        State::Idle => "idle",
        State::Ready => "ready",
        State::Ident => "ident",
        State::Stby => "stby",
        State::Tran => "tran",
        State::Data => "data",
        State::Rcv => "rcv",
        State::Prg => "prg",
        State::Dis => "dis",
    }
}

/// The word of the state with a number.
pub fn numbered_state_word(number: u8) -> &'static str {
    match number {
        0 => "idle",
        1 => "ready",
        2 => "ident",
        3 => "stby",
        4 => "tran",
        5 => "data",
        6 => "rcv",
        7 => "prg",
        _ => "dis",
    }
}

fn transfer_words(transfer: Transfer) -> &'static str {
    match transfer {
        Transfer::Nothing => "",
        Transfer::ReadDue => ", a read is due",
        Transfer::OpenReadDue => ", an open read is due",
        Transfer::ScrDue => ", the SCR is due",
        Transfer::SdStatusDue => ", the SD status is due",
        Transfer::ExtCsdDue => ", the EXT_CSD is due",
        Transfer::ReadOver => ", a read is over",
        Transfer::OpenReadOver => ", an open read is over",
        Transfer::WriteDue => ", a write is due",
        Transfer::OpenWriteDue => ", an open write is due",
        Transfer::WriteOver => ", a write is over",
        Transfer::OpenWriteOver => ", an open write is over",
    }
}

fn erase_words(erase: EraseStage) -> &'static str {
    match erase {
        EraseStage::Outside => "",
        EraseStage::Begun => ", the first block of an erase set",
        EraseStage::Both => ", both ends of an erase set",
    }
}

fn partition_words(partition: Partition) -> &'static str {
    match partition {
        Partition::User => "",
        Partition::Boot1 => ", boot partition 1 in access",
        Partition::Boot2 => ", boot partition 2 in access",
    }
}

/// The words of data lines.
pub fn lines_words(width: Width) -> &'static str {
    match width {
        Width::One => "1 data line",
        Width::Four => "4 data lines",
        Width::Eight => "8 data lines",
    }
}

/// The words of the data lines of a card and of its host: none where both use one.
fn both_lines_words(card: Width, host: Width) -> [&'static str; 4] {
    if card != host {
        return [
            ", the card on ",
            lines_words(card),
            " and the host on ",
            lines_words(host),
        ];
    }
    match card {
        Width::One => ["", "", "", ""],
        Width::Four | Width::Eight => [", on ", lines_words(card), "", ""],
    }
}

/// The unit of addresses and the block length of a card.
fn unit_words(fields: &Fields) -> &'static str {
    match (fields.block_unit, fields.length_512) {
        (true, _) => "block addresses",
        (false, true) => "byte addresses, block length 512",
        (false, false) => "byte addresses, block length not 512",
    }
}

/// Adds all of a card but the script's flags.
pub fn put_card(text: &mut Text, fields: &Fields) -> Result<(), AllocError> {
    let mut buffer = Buffer::new();
    let preset = match fields.preset {
        0 => ["", ""],
        count => [", preset count ", buffer.format(count)],
    };
    let left = [
        state_word(fields.state),
        transfer_words(fields.transfer),
        words_if(fields.app, ", application command next"),
        erase_words(fields.erase),
    ];
    let mode = [
        partition_words(fields.mode.partition),
        words_if(fields.mode.error, ", a switch error not yet shown"),
        ": ",
        unit_words(fields),
    ];
    put_all(text, &left)?;
    put_all(text, &preset)?;
    put(
        text,
        words_if(
            !fields.matched,
            ", at an address that the host does not hold",
        ),
    )?;
    put_all(text, &both_lines_words(fields.mode.width, fields.lines))?;
    put_all(text, &mode)
}

/// Adds the names of the flags that are set.
fn put_flags(text: &mut Text, shape: Shape, names: &[&str]) -> Result<(), AllocError> {
    let mut sign = " [";
    for place in 0..names.len() {
        if shape.flag(place) {
            put_all(text, &[sign, names[place]])?;
            sign = " ";
        }
    }
    put(text, words_if(sign == " ", "]"))
}

/// Adds a shape, with the names of the script's flags.
pub fn put_shape(text: &mut Text, shape: Shape, names: &[&str]) -> Result<(), AllocError> {
    let Some(fields) = shape.decode() else {
        return put(text, "no card");
    };
    put_card(text, &fields)?;
    put_flags(text, shape, names)
}

/// What a shape has in common with those on its line: all but its unit, its block length and the script's flags.
fn line_of(shape: Shape) -> Option<u64> {
    let fields = shape.decode()?;
    let line = Fields {
        block_unit: false,
        length_512: false,
        flags: 0,
        ..fields
    };
    Some(line.encode().0)
}

/// Adds a shape behind another one: what varies, where both stand on one line, and else a line of its own.
fn put_behind(
    text: &mut Text,
    last: Option<Shape>,
    shape: Shape,
    names: &[&str],
) -> Result<(), AllocError> {
    match (last, shape.decode()) {
        (Some(last), Some(fields)) if line_of(last) == line_of(shape) => {
            put_all(text, &["; ", unit_words(&fields)])?;
            put_flags(text, shape, names)
        }
        (Some(_), _) => {
            put(text, "\n    ")?;
            put_shape(text, shape, names)
        }
        (None, _) => {
            put(text, "    ")?;
            put_shape(text, shape, names)
        }
    }
}

/// Adds shapes, which rise: a line for each state, with the units, lengths and flags that are possible in it.
pub fn put_shapes(
    alloc: Global,
    text: &mut Text,
    shapes: &[Shape],
    names: &[&str],
) -> Result<(), AllocError> {
    let mut sorted = Vec::from_slice(alloc, shapes)?;
    sorted.sort_by_key(|shape| line_of(*shape))?;
    let mut last = None;
    for shape in &sorted {
        put_behind(text, last, *shape, names)?;
        last = Some(*shape);
    }
    put(text, "\n")
}

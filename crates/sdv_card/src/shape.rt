//! Shapes: the codes of cards beside their hosts.

ghost use Rattle.std.specs.Prelude.{◌≡◌, ◌<◌, ◌%◌, ◌^◌, ◌+◌, IfSome};
ghost use Rattle.sdv_card.specs.States.{state_number};
ghost use Rattle.sdv_card.specs.Code.{code_of, digits, fields_of, transfer_number, erase_number, bool_number, mode_number, state_of, transfer_of, erase_of, width_of, partition_of, mode_of};
ghost use Rattle.sdv_card.specs.Modes.{width_number, line_count, partition_number};
ghost use Rattle.sdv_card.specs.ShapeBits.{has_block_addresses, partition_shown, lines_shown, with_lines_shown, has_flag, with_flag_shown};

use crate::fields::Fields;
use crate::state::{EraseStage, Mode, Partition, State, Transfer, Width};

/// The code of a card beside its host.
///
/// | Bits | Field |
/// |---|---|
/// | 3..0 | state |
/// | 7..4 | transfer |
/// | 9..8 | erase stage |
/// | 10 | 1 where the card has block addresses |
/// | 11 | 1 where the block length is 512 |
/// | 12 | application flag |
/// | 13 | 1 where the card has no relative card address, or the host's |
/// | 19..16 | the script's flags |
/// | 21..20 | the card's data lines: 0 one, 1 four, 2 eight |
/// | 23..22 | the host's data lines |
/// | 25..24 | the partition in access: 0 user area, 1 and 2 boot partitions |
/// | 26 | 1 where a switch error is pending |
/// | 47..32 | preset count, 0 where there is none |
///
/// All other bits are 0.
#[derive(Clone, Copy, Debug, Default, PartialEq, Eq, Hash)]
pub struct Shape(pub u64);

/// The shapes of a card before the first command: byte addresses with another block length than 512, byte addresses
/// with block length 512, and block addresses.
pub const START_SHAPES: [Shape; 3] = [Shape(0x2000), Shape(0x2800), Shape(0x2c00)];

// Bit 0 of each field above the state, as the table above has them.
const TRANSFER: u64 = 1 << 4;

const ERASE_STAGE: u64 = 1 << 8;

const BLOCK_ADDRESSES: u64 = 1 << 10;

const LENGTH_512: u64 = 1 << 11;

const APPLICATION: u64 = 1 << 12;

const MATCHED: u64 = 1 << 13;

const FLAGS: u64 = 1 << 16;

const CARD_LINES: u64 = 1 << 20;

const HOST_LINES: u64 = 1 << 22;

const PARTITION: u64 = 1 << 24;

const SWITCH_ERROR: u64 = 1 << 26;

const PRESET: u64 = 1 << 32;

impl State {
    /// The number in a card status and in a shape.
    pub fn number(self) -> u8
        ensures number { result ≡ state_number self }
        ensures small { result < 9 }
    {
        match self {
            State::Idle => 0,
            State::Ready => 1,
            State::Ident => 2,
            State::Stby => 3,
            State::Tran => 4,
            State::Data => 5,
            State::Rcv => 6,
            State::Prg => 7,
            State::Dis => 8,
        }
    }

    fn of(number: u64) -> State
        ensures { result ≡ state_of number }
    {
        match number {
            0 => State::Idle,
            1 => State::Ready,
            2 => State::Ident,
            3 => State::Stby,
            4 => State::Tran,
            5 => State::Data,
            6 => State::Rcv,
            7 => State::Prg,
            _ => State::Dis,
        }
    }
}

impl Transfer {
    /// The number in a shape.
    pub fn number(self) -> u8
        ensures number { result ≡ transfer_number self }
        ensures small { result < 12 }
    {
        match self {
            Transfer::Nothing => 0,
            Transfer::ReadDue => 1,
            Transfer::OpenReadDue => 2,
            Transfer::ScrDue => 3,
            Transfer::SdStatusDue => 4,
            Transfer::ExtCsdDue => 5,
            Transfer::ReadOver => 6,
            Transfer::OpenReadOver => 7,
            Transfer::WriteDue => 8,
            Transfer::OpenWriteDue => 9,
            Transfer::WriteOver => 10,
            Transfer::OpenWriteOver => 11,
        }
    }

    fn of(number: u64) -> Transfer
        ensures { result ≡ transfer_of number }
    {
        match number {
            0 => Transfer::Nothing,
            1 => Transfer::ReadDue,
            2 => Transfer::OpenReadDue,
            3 => Transfer::ScrDue,
            4 => Transfer::SdStatusDue,
            5 => Transfer::ExtCsdDue,
            6 => Transfer::ReadOver,
            7 => Transfer::OpenReadOver,
            8 => Transfer::WriteDue,
            9 => Transfer::OpenWriteDue,
            10 => Transfer::WriteOver,
            _ => Transfer::OpenWriteOver,
        }
    }
}

impl EraseStage {
    /// The number in a shape.
    pub fn number(self) -> u8
        ensures number { result ≡ erase_number self }
        ensures small { result < 3 }
    {
        match self {
            EraseStage::Outside => 0,
            EraseStage::Begun => 1,
            EraseStage::Both => 2,
        }
    }

    fn of(number: u64) -> EraseStage
        ensures { result ≡ erase_of number }
    {
        match number {
            0 => EraseStage::Outside,
            1 => EraseStage::Begun,
            _ => EraseStage::Both,
        }
    }
}

impl Width {
    /// How many lines these are.
    pub fn lines(self) -> u8
        ensures { result ≡ line_count self }
    {
        match self {
            Width::One => 1,
            Width::Four => 4,
            Width::Eight => 8,
        }
    }

    /// The number in a shape.
    pub fn number(self) -> u8
        ensures number { result ≡ width_number self }
        ensures small { result < 3 }
    {
        match self {
            Width::One => 0,
            Width::Four => 1,
            Width::Eight => 2,
        }
    }

    fn of(number: u64) -> Width
        ensures { result ≡ width_of number }
    {
        match number {
            0 => Width::One,
            1 => Width::Four,
            _ => Width::Eight,
        }
    }
}

impl Partition {
    /// The number in a shape.
    pub fn number(self) -> u8
        ensures number { result ≡ partition_number self }
        ensures small { result < 3 }
    {
        match self {
            Partition::User => 0,
            Partition::Boot1 => 1,
            Partition::Boot2 => 2,
        }
    }

    fn of(number: u64) -> Partition
        ensures { result ≡ partition_of number }
    {
        match number {
            0 => Partition::User,
            1 => Partition::Boot1,
            _ => Partition::Boot2,
        }
    }
}

impl Mode {
    /// The bits of a shape that show the mode, as a number.
    fn number(self) -> u64
        ensures number { result ≡ mode_number self }
        ensures small { result < 2 ^ 27 }
    {
        CARD_LINES * u64::from(self.width.number())
            + PARTITION * u64::from(self.partition.number())
            + SWITCH_ERROR * bit(self.error)
    }

    fn of(code: u64) -> Mode
        ensures { result ≡ mode_of code }
    {
        Mode {
            width: Width::of(code / CARD_LINES % 4),
            partition: Partition::of(code / PARTITION % 4),
            error: code / SWITCH_ERROR % 2 == 1,
        }
    }
}

fn bit(set: bool) -> u64
    ensures number { result ≡ bool_number set }
    ensures small { result < 2 }
{
    if set { 1 } else { 0 }
}

impl Fields {
    /// The shape with these fields.
    #[tactic(auto, unfolding(crate::specs::Code::code_of), using(crate::proofs::Digits::fields_law))]
    pub fn encode(self) -> Shape
        ensures code { result.0 ≡ code_of self }
        ensures read_back { self.flags < 16 → fields_of result.0 ≡ Some self }
    {
        Shape(
            u64::from(self.state.number())
                + TRANSFER * u64::from(self.transfer.number())
                + ERASE_STAGE * u64::from(self.erase.number())
                + BLOCK_ADDRESSES * bit(self.block_unit)
                + LENGTH_512 * bit(self.length_512)
                + APPLICATION * bit(self.app)
                + MATCHED * bit(self.matched)
                + FLAGS * u64::from(self.flags)
                + self.mode.number()
                + HOST_LINES * u64::from(self.lines.number())
                + PRESET * u64::from(self.preset),
        )
    }

    /// The fields that the bits of a code show.
    #[tactic(auto, unfolding(crate::specs::Code::digits))]
    fn of_digits(code: u64) -> Fields
        ensures fields { result ≡ digits code }
        ensures flags { result.flags < 16 }
    {
        Fields {
            state: State::of(code % 16),
            transfer: Transfer::of(code / TRANSFER % 16),
            erase: EraseStage::of(code / ERASE_STAGE % 4),
            block_unit: code / BLOCK_ADDRESSES % 2 == 1,
            length_512: code / LENGTH_512 % 2 == 1,
            app: code / APPLICATION % 2 == 1,
            matched: code / MATCHED % 2 == 1,
            mode: Mode::of(code),
            lines: Width::of(code / HOST_LINES % 4),
            flags: (code / FLAGS % 16) as u8,
            preset: (code / PRESET % 65536) as u16,
        }
    }
}

impl Shape {
    /// The fields of the code, or nothing where it has another bit or value than a code.
    #[tactic(auto, unfolding(crate::specs::Code::fields_of))]
    pub fn decode(self) -> Option<Fields>
        ensures fields { result ≡ fields_of self.0 }
        ensures read_back { IfSome result (λ fields. code_of fields ≡ self.0) }
        ensures flags { IfSome result (λ fields. fields.flags < 16) }
    {
        let fields = Fields::of_digits(self.0);
        if fields.encode() == self {
            Some(fields)
        } else {
            None
        }
    }

    /// The card's state.
    pub fn state(self) -> State
        ensures { result ≡ state_of (self.0 % 16) }
    {
        State::of(self.0 % 16)
    }

    /// The card has block addresses.
    #[tactic(auto, unfolding(crate::specs::Code::digits))]
    pub fn has_block_addresses(self) -> bool
        ensures { result ≡ has_block_addresses self }
    {
        self.0 / BLOCK_ADDRESSES % 2 == 1
    }

    /// The partition in access.
    #[tactic(auto, unfolding(crate::specs::Code::digits))]
    pub fn partition(self) -> Partition
        ensures { result ≡ partition_shown self }
    {
        Partition::of(self.0 / PARTITION % 4)
    }

    /// The data lines that the host uses.
    #[tactic(auto, unfolding(crate::specs::Code::digits))]
    pub fn lines(self) -> Width
        ensures { result ≡ lines_shown self }
    {
        Width::of(self.0 / HOST_LINES % 4)
    }

    /// The shape with other data lines of the host.
    #[tactic(auto, using(crate::proofs::ShapeLines::lines_are_there, crate::proofs::ShapeLines::room_for_lines))]
    pub fn with_lines(self, lines: Width) -> Shape
        ensures { result ≡ with_lines_shown self lines }
    {
        let without = self.0 - HOST_LINES * u64::from(self.lines().number());
        Shape(without + HOST_LINES * u64::from(lines.number()))
    }

    /// The script's flag in this place, from 0, is set. There are four places.
    #[tactic(auto, unfolding(crate::specs::Code::digits), using(crate::proofs::ShapeFlags::no_flag))]
    pub fn flag(self, place: usize) -> bool
        ensures { result ≡ has_flag self place }
    {
        let flags = self.0 / FLAGS % 16;
        match place {
            0 => flags % 2 == 1,
            1 => flags / 2 % 2 == 1,
            2 => flags / 4 % 2 == 1,
            3 => flags / 8 % 2 == 1,
            _ => false,
        }
    }

    /// The shape with the script's flag in this place, from 0, set or clear.
    #[tactic(auto, using(crate::proofs::ShapeFlags::room_for_flag, crate::proofs::ShapeFlags::flag_is_there))]
    pub fn with_flag(self, place: usize, on: bool) -> Shape
        requires few { place < 4 }
        ensures { result ≡ with_flag_shown self place on }
    {
        match (self.flag(place), on) {
            (false, true) => Shape(self.0 + bit_of_flag(place)),
            (true, false) => Shape(self.0 - bit_of_flag(place)),
            _ => self,
        }
    }
}

/// The bit of the flag in this place, from 0.
fn bit_of_flag(place: usize) -> u64
    requires few { place < 4 }
    ensures { result ≡ 2 ^ (16 + place) }
{
    match place {
        0 => 1 << 16,
        1 => 1 << 17,
        2 => 1 << 18,
        _ => 1 << 19,
    }
}

//! The card status.

ghost use Rattle.std.specs.Prelude.{⊤, ◌≡◌, [], ◌∷◌, codes};
ghost use Rattle.sdv_registers.specs.Status.{state, is_ready_for_data, is_switch_error, is_app_cmd, has_doubt, is_clean, clean_mask};

use crate::field::word_field;
use crate::kind::Kind;
use bitflags::{Flag, Flags, bitflag_items};
use std::fmt;

/// The card status: the 32 bits of an R1.
///
/// The bits that are errors or flags have names; bits 12..9 are [`Status::state`]. The names are those
/// of the SD standard, `SWITCH_ERROR` aside, which e.MMC devices have.
#[derive(Clone, Copy, Debug, PartialEq, Eq)]
pub struct Status(pub u32);

bitflag_items! {
    impl Status: u32 {
        /// The argument of the command was out of the card's range.
        const OUT_OF_RANGE = 0x8000_0000;
        /// The address did not fit the block length.
        const ADDRESS_ERROR = 0x4000_0000;
        /// The block length is not allowed, or the data had another.
        const BLOCK_LEN_ERROR = 0x2000_0000;
        /// The erase commands came in a wrong order.
        const ERASE_SEQ_ERROR = 0x1000_0000;
        /// The blocks to erase were no valid selection.
        const ERASE_PARAM = 0x0800_0000;
        /// The command tried to write a protected block.
        const WP_VIOLATION = 0x0400_0000;
        /// The card is locked by the host.
        const CARD_IS_LOCKED = 0x0200_0000;
        /// Locking or unlocking the card failed.
        const LOCK_UNLOCK_FAILED = 0x0100_0000;
        /// The CRC check of the command before failed.
        const COM_CRC_ERROR = 0x0080_0000;
        /// The command before was not legal in the card's state.
        const ILLEGAL_COMMAND = 0x0040_0000;
        /// The card's error correction failed on the data.
        const CARD_ECC_FAILED = 0x0020_0000;
        /// The card's controller failed.
        const CC_ERROR = 0x0010_0000;
        /// An error of another or an unknown kind.
        const ERROR = 0x0008_0000;
        /// The read-only part of the CSD does not match, or a bit cannot be reversed.
        const CSD_OVERWRITE = 0x0001_0000;
        /// Only a part of the blocks was erased, as others are protected.
        const WP_ERASE_SKIP = 0x0000_8000;
        /// An erase sequence was left before its end.
        const ERASE_RESET = 0x0000_2000;
        /// The card is ready for data.
        const READY_FOR_DATA = 0x0000_0100;
        /// An e.MMC device did not switch as it was asked to.
        const SWITCH_ERROR = 0x0000_0080;
        /// An SD card takes the next command as an application command, or took this one so.
        const APP_CMD = 0x0000_0020;
    }
}

impl Flags for Status {
    type Bits = u32;

    ghost exact = { ⊤ };

    ghost table = { (codes "OUT_OF_RANGE", 0x8000_0000) ∷ (codes "ADDRESS_ERROR", 0x4000_0000)
        ∷ (codes "BLOCK_LEN_ERROR", 0x2000_0000) ∷ (codes "ERASE_SEQ_ERROR", 0x1000_0000)
        ∷ (codes "ERASE_PARAM", 0x0800_0000) ∷ (codes "WP_VIOLATION", 0x0400_0000)
        ∷ (codes "CARD_IS_LOCKED", 0x0200_0000) ∷ (codes "LOCK_UNLOCK_FAILED", 0x0100_0000)
        ∷ (codes "COM_CRC_ERROR", 0x0080_0000) ∷ (codes "ILLEGAL_COMMAND", 0x0040_0000)
        ∷ (codes "CARD_ECC_FAILED", 0x0020_0000) ∷ (codes "CC_ERROR", 0x0010_0000)
        ∷ (codes "ERROR", 0x0008_0000) ∷ (codes "CSD_OVERWRITE", 0x0001_0000)
        ∷ (codes "WP_ERASE_SKIP", 0x0000_8000) ∷ (codes "ERASE_RESET", 0x0000_2000)
        ∷ (codes "READY_FOR_DATA", 0x0000_0100) ∷ (codes "SWITCH_ERROR", 0x0000_0080)
        ∷ (codes "APP_CMD", 0x0000_0020) ∷ [] };

    ghost set_of = { λ status. status.0 };

    fn flags<'a>() -> &'a [Flag<Status>] {
        Status::FLAGS
    }

    fn bits(&self) -> u32 {
        self.0
    }

    fn from_bits_retain(bits: u32) -> Status {
        Status(bits)
    }
}

impl Status {
    /// The errors of which each puts in doubt whether the card took the command.
    pub const DOUBT: Status = Status(
        Status::OUT_OF_RANGE.0
            | Status::ADDRESS_ERROR.0
            | Status::BLOCK_LEN_ERROR.0
            | Status::ERASE_SEQ_ERROR.0
            | Status::ERASE_PARAM.0
            | Status::WP_VIOLATION.0
            | Status::LOCK_UNLOCK_FAILED.0
            | Status::CARD_ECC_FAILED.0
            | Status::CC_ERROR.0
            | Status::ERROR.0
            | Status::CSD_OVERWRITE.0,
    );

    /// The errors that a clean reply of a card of this kind does not show: those of
    /// [`Status::DOUBT`], those that speak of the command before, and on e.MMC the switch error.
    pub fn errors(kind: Kind) -> Status
        ensures { result.0 ≡ clean_mask kind }
    {
        let shared = Status(Status::DOUBT.0 | Status::COM_CRC_ERROR.0 | Status::ILLEGAL_COMMAND.0);
        match kind {
            Kind::Sd => shared,
            Kind::Emmc => Status(shared.0 | Status::SWITCH_ERROR.0),
        }
    }

    /// CURRENT_STATE, bits 12..9: the number of the state in which the card received the command.
    ///
    /// 0 is idle, 1 ready, 2 ident, 3 stby, 4 tran, 5 data, 6 rcv, 7 prg, 8 dis.
    pub fn state(self) -> u8
        ensures { result ≡ state self.0 }
    {
        word_field(self.0, 12, 9) as u8
    }

    /// READY_FOR_DATA, bit 8.
    pub fn is_ready_for_data(self) -> bool
        ensures { result ≡ is_ready_for_data self.0 }
    {
        self.contains(Status::READY_FOR_DATA)
    }

    /// SWITCH_ERROR, bit 7, of an e.MMC device.
    pub fn is_switch_error(self) -> bool
        ensures { result ≡ is_switch_error self.0 }
    {
        self.contains(Status::SWITCH_ERROR)
    }

    /// APP_CMD, bit 5, of an SD card.
    pub fn is_app_cmd(self) -> bool
        ensures { result ≡ is_app_cmd self.0 }
    {
        self.contains(Status::APP_CMD)
    }

    /// Whether a bit of [`Status::DOUBT`] is set: the card may not have taken the command.
    pub fn has_doubt(self) -> bool
        ensures { result ≡ has_doubt self.0 }
    {
        self.intersects(Status::DOUBT)
    }

    /// Whether none of the [`Status::errors`] of a card of this kind is set.
    pub fn is_clean(self, kind: Kind) -> bool
        ensures { result ≡ is_clean kind self.0 }
    {
        !self.intersects(Status::errors(kind))
    }
}

/// The states of a card, by their numbers in the card status.
const STATES: [&str; 9] = [
    "idle", "ready", "ident", "stby", "tran", "data", "rcv", "prg", "dis",
];

/// The word in hexadecimal, the name of the state, and the names of the bits that are set.
impl fmt::Display for Status {
    fn fmt<W: fmt::Write>(&self, f: &mut fmt::Formatter<W>) -> fmt::Result {
        let state = STATES
            .get(self.state() as usize)
            .copied()
            .unwrap_or("reserved");
        write!(f, "{:08x} {state}", self.0)?;
        for (name, _) in self.iter_names() {
            write!(f, " {name}")?;
        }
        Ok(())
    }
}

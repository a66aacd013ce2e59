//! Values that show what the definitions of this crate say.

ghost use Rattle.std.specs.Prelude.{◌≡◌, map};
ghost use Rattle.sdv_card.specs.Shapes.{start_codes};
ghost use Rattle.sdv_card.specs.BringUp.{BringUpHappens, LostAnswerHappens, ProgrammingEnds, DoubtStays, StopIsNotLegal, LastBlockIsBound, UnitIsTheCards, LinesMustAgree};
ghost use Rattle.sdv_card.specs.EmmcBringUp.{DeviceBringUpHappens, BootBlockIsBound};

use crate::shape::START_SHAPES;

/// The start shapes have the codes of cards before the first command.
pub fn start_shapes_are_codes()
    ensures { map (λ shape. shape.0) START_SHAPES ≡ start_codes }
{}

/// A card of the profile can be brought up, command by command.
pub fn bring_up_happens()
    ensures { BringUpHappens }
{}

/// An e.MMC device of the profile can be brought up, command by command, and its EXT_CSD read.
pub fn device_bring_up_happens()
    ensures { DeviceBringUpHappens }
{}

/// The answer to a command can be lost, and the card has taken the command.
pub fn lost_answer_happens()
    ensures { LostAnswerHappens }
{}

/// A card can end its programming before a command arrives.
pub fn programming_ends()
    ensures { ProgrammingEnds }
{}

/// A card whose status shows an error can have stayed as it was.
pub fn doubt_stays()
    ensures { DoubtStays }
{}

/// A command is not legal where it is not legal after the card's own step.
pub fn stop_is_not_legal()
    ensures { StopIsNotLegal }
{}

/// A read of the last block is in bounds, and a read of the block after it is not.
pub fn last_block_is_bound()
    ensures { LastBlockIsBound }
{}

/// On a card with block addresses, a read of block 1 that is addressed in bytes is not in bounds.
pub fn unit_is_the_cards()
    ensures { UnitIsTheCards }
{}

/// A phase is not legal where the host uses other data lines than the card.
pub fn lines_must_agree()
    ensures { LinesMustAgree }
{}

/// In bounds goes by the partition in access, at a device of the profile that has boot partitions.
pub fn boot_block_is_bound()
    ensures { BootBlockIsBound }
{}

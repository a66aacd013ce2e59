//! What holds of the schedules that files give, and of both sides of a run over lines.

ghost use Rattle.sdv_card.specs.Card.{Card};
ghost use Rattle.sdv_card.specs.Damage.{KeepsTablesOverNoise};
ghost use Rattle.sdv_commands.specs.Run.{DigitsAloneAreValues};
ghost use Rattle.sdv_commands.specs.BesideCard.{AsksBesideOther, DrivesBesideOther, NoneIsStopped, RunsBesideOther};
ghost use Rattle.std.specs.Prelude.{Option};

use sdv_card::CardPort;

/// A card has all values that the bytes of a schedule write exactly where each byte is a digit from 0 to 7, a space or an end
/// of a line. So every other file is refused.
pub fn digits_alone_are_values()
    ensures { DigitsAloneAreValues }
{}

/// Where the other side of the lines makes the call of each event once, by a port that shows a card of the profile, and the
/// answers that a run heard tell what that gave, the run is beside that card: its events are steps of the card, each legal
/// and in bounds, no more commands than were certified are sent, and no answer is refused. A damaged response counts as a lost
/// one, here and below.
pub fn runs_beside_the_card_of_the_other_side<P: CardPort>()
    ensures { (card : P → Option Card) → KeepsTablesOverNoise P.steps card → RunsBesideOther P.steps card }
{}

/// The same of the command `drive`, for a run that came to its end: the premises are what `drive_files` then says of the
/// events and their answers.
pub fn drives_beside_the_card_of_the_other_side<P: CardPort>()
    ensures { (card : P → Option Card) → KeepsTablesOverNoise P.steps card → DrivesBesideOther P.steps card }
{}

/// The same of the command `drive`, however its run came out, also where it broke off at any event (`IsDrive`, which
/// `drive_files` ensures in each case): where the answers that came tell what the other side did, each event that was asked for,
/// the last and unanswered one included, is legal and in bounds at the card then, and no more commands were asked for than
/// were certified.
pub fn asks_beside_the_card_of_the_other_side<P: CardPort>()
    ensures { (card : P → Option Card) → KeepsTablesOverNoise P.steps card → AsksBesideOther P.steps card }
{}

/// Where the other side answers as such a card, the limit on commands stops no run.
pub fn the_limit_stops_no_run_beside_a_card<P: CardPort>()
    ensures { (card : P → Option Card) → KeepsTablesOverNoise P.steps card → NoneIsStopped P.steps card }
{}

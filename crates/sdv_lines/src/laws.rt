//! Laws of the lines.

ghost use Rattle.std.specs.Prelude.{◌≡◌, ◌≤◌, ◌++◌, ℕ, List, [], Option, length};
ghost use Rattle.std.specs.List.{AllByRecursion};
ghost use Rattle.sdv_card.specs.Card.{Card};
ghost use Rattle.sdv_card.specs.Damage.{KeepsTablesOverNoise};
ghost use Rattle.sdv_card.specs.Port.{Call};
ghost use Rattle.sdv_card.specs.ScriptEvent.{Return};
ghost use Rattle.sdv_lines.specs.Answers.{Answers};
ghost use Rattle.sdv_lines.specs.Noise.{IsNoise, quieted};
ghost use Rattle.sdv_lines.specs.Partner.{ShowsOtherCard};
ghost use Rattle.sdv_lines.specs.Texts.{lines_of};

use sdv_card::CardPort;

/// Where the other side of the lines makes each call of a request once, by a port that shows a card, and its answers tell what
/// that gave, a port of lines shows that card: each call is a step of the card, if its event is legal there and in bounds, a host
/// beside the card makes it, and the transfer that is due lies on the card. The other side's bus may damage responses: the
/// card then does what it does where its response is lost, and the answer says `damaged`, or `timeout`.
pub fn shows_the_card_of_the_other_side<P: CardPort>()
    ensures { (card : P → Option Card) → KeepsTablesOverNoise P.steps card → ShowsOtherCard P.steps card }
{}

/// A reader that skips what a board says before its first answer skips these lines, if they are no more than it may, and not the
/// answer or what follows it.
pub fn skips_noise_alone()
    ensures { (most : ℕ) (noise texts : List (List ℕ)) (rest : List ℕ) (call : Call) (returned : Return) →
        AllByRecursion IsNoise noise → length noise ≤ most → Answers call texts returned →
        quieted most [] (lines_of noise ++ (lines_of texts ++ rest)) ≡ lines_of texts ++ rest }
{}

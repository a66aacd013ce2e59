//! What follows from the definitions alone.

ghost use Rattle.sdv_review.specs.Confirmed.{ConfirmedByAnswer, KeptByAnswer, StoredOnceConfirmed};

/// A card that gave an answer in transfer state without a doubt has no error of a write to show.
pub fn confirmed_by_answer()
    ensures { ConfirmedByAnswer }
{}

/// A response without a doubt leaves an error of a write that is still to be shown as it was.
pub fn kept_by_answer()
    ensures { KeptByAnswer }
{}

/// The blocks of a write phase that ended well stand on the card once an answer confirms it.
pub fn stored_once_confirmed()
    ensures { StoredOnceConfirmed }
{}

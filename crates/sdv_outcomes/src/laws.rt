//! What the definitions say: which outcomes and histories of shapes are those of cards.

ghost use Rattle.sdv_registers.specs.declared.kind.Kind.{Kind};
ghost use Rattle.sdv_outcomes.specs.OpenGuards.{OnlyTheseAreOpen};
ghost use Rattle.sdv_outcomes.specs.OutcomeSteps.{OutcomesAreSteps, ImpossibleMatchesAreNoSteps};
ghost use Rattle.sdv_outcomes.specs.EachShape.{EachOutcomeHasCard, EachIllegalShapeHasCard};
ghost use Rattle.sdv_outcomes.specs.Runs.{HistoriesHaveRuns, RunsHaveHistories, StartRunsAreHistories};
ghost use Rattle.sdv_outcomes.specs.StartCards.{NoneHasMore, EachStartHasCard, SomeCardRuns};
ghost use Rattle.sdv_outcomes.specs.IllegalShapes.{IllegalShapesAreReal};

/// The tables leave open what an answer says to the guards `clean`, `ready` and `ocr.block`, and to no other.
pub fn only_these_are_open()
    ensures { OnlyTheseAreOpen }
{}

/// Each outcome of a legal event in bounds is of a step of each representative card with that code, whatever the open
/// guards say; but for an impossible match.
pub fn outcomes_are_steps()
    ensures { (k : Kind) → OutcomesAreSteps k }
{}

/// An impossible match is of no step of any card with that code.
pub fn impossible_matches_are_no_steps()
    ensures { (k : Kind) → ImpossibleMatchesAreNoSteps k }
{}

/// Each outcome of a legal event is of a step of some card with that code, with no exception.
pub fn each_outcome_has_card()
    ensures { (k : Kind) → EachOutcomeHasCard k }
{}

/// Where an event is not legal at a shape, there is a representative card of that shape at which it is not legal, however its
/// host makes it; and the host can make it.
pub fn each_illegal_shape_has_card()
    ensures { (k : Kind) → EachIllegalShapeHasCard k }
{}

/// Each history is that of a run of each representative card which has the blocks that its commands address.
pub fn histories_have_runs()
    ensures { (k : Kind) → HistoriesHaveRuns k }
{}

/// Each run of any card goes as a history, which ends at the code of the last card and its host.
pub fn runs_have_histories()
    ensures { (k : Kind) → RunsHaveHistories k }
{}

/// The runs of a representative card of the profile, from its start on, are exactly its histories in bounds.
pub fn start_runs_are_histories()
    ensures { (k : Kind) → StartRunsAreHistories k }
{}

/// No card of the profile has more blocks than these.
pub fn none_has_more()
    ensures { (k : Kind) → NoneHasMore k }
{}

/// There is a representative card of the profile with the most blocks, before its first command, for each kind and each
/// start shape.
pub fn each_start_has_card()
    ensures { (k : Kind) → EachStartHasCard k }
{}

/// A list of entries is the history of a run of some card of the profile exactly where it is a history of codes, and in
/// bounds for the card with the most blocks.
pub fn some_card_runs()
    ensures { (k : Kind) → SomeCardRuns k }
{}

/// Where an event is not legal at a shape to which a history leads, there is a card of the profile, and a run from its
/// start with that history, after which the event is not legal.
pub fn illegal_shapes_are_real()
    ensures { (k : Kind) → IllegalShapesAreReal k }
{}

//! Laws of batches.

ghost use Rattle.sdv_block.specs.Laws.{BatchesAreScripts, BatchesServe};

/// The text of a batch that is not refused is a script; one that is refused for its limits is none.
pub fn batches_are_scripts()
    ensures { BatchesAreScripts }
{}

/// Every run of a batch's script beside a card of the profile, in any state, does what a plain disk does.
pub fn batches_serve()
    ensures { BatchesServe }
{}

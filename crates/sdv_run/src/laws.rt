//! A law of the step machine.

ghost use Rattle.sdv_run.specs.Machine.{PlaysAreWalks};

/// The events that a machine asked for from its start to its end, each with what it was told that it returned, are a
/// walk of the script.
pub fn plays_are_walks()
    ensures { PlaysAreWalks }
{}

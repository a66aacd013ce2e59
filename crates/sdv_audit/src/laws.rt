//! What the definitions say of the lines of traces.

ghost use Rattle.sdv_registers.specs.declared.kind.Kind.{Kind};
ghost use Rattle.sdv_audit.specs.Spelling.{LinesAreRead};
ghost use Rattle.sdv_audit.specs.PrintedLines.{PrintedLinesAreRead};
ghost use Rattle.sdv_audit.specs.Lived.{RecklessIsReal};
ghost use Rattle.sdv_audit.specs.Course.{FindingsHold};

/// Each line that is printed is read as it was meant.
pub fn lines_are_read()
    ensures { LinesAreRead }
{}

/// Each line that a run prints of an event is read as a line that tells of this event, and of what it returned.
pub fn printed_lines_are_read()
    ensures { PrintedLinesAreRead }
{}

/// Where a shape that real cards reach forbids an event, there is a card of the profile, and a run from its start with
/// the answers of these lines, after which the event is not legal.
pub fn reckless_is_real()
    ensures { (k : Kind) → RecklessIsReal k }
{}

/// What is found at a line holds, after any lines before it: no card answers so, the host was reckless beside a real card,
/// or no card that may stand there has the blocks.
pub fn findings_hold()
    ensures { (k : Kind) → FindingsHold k }
{}

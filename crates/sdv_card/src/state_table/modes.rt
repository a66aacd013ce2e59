//! What commands with index 6 set, and when a switch error that is not told yet ends.

ghost use Rattle.std.specs.Prelude.{◌≡◌};
ghost use Rattle.sdv_card.specs.Modes.{same_width, first_mode, calm, failed, set, may_stay_pending};

use crate::command::Setting;
use crate::state::{Mode, Partition, State, Width};

/// The host and the card use the same data lines.
pub fn same_width(a: Width, b: Width) -> bool
    ensures { result ≡ same_width a b }
{
    a.number() == b.number()
}

/// A switch error may be pending still after a status; `heard`: the host heard it.
pub fn may_stay_pending(heard: bool, from: State, mode: Mode) -> bool
    ensures { result ≡ may_stay_pending heard from mode }
{
    match from {
        State::Tran => false,
        _ => heard && mode.error,
    }
}

impl Mode {
    /// The mode before the first command, and after CMD0.
    pub fn first() -> Mode
        ensures { result ≡ first_mode }
    {
        Mode {
            width: Width::One,
            partition: Partition::User,
            error: false,
        }
    }

    /// The mode without a pending switch error.
    pub fn calm(self) -> Mode
        ensures { result ≡ calm self }
    {
        Mode {
            error: false,
            ..self
        }
    }

    /// The mode with a pending switch error.
    pub fn failed(self) -> Mode
        ensures { result ≡ failed self }
    {
        Mode {
            error: true,
            ..self
        }
    }

    /// The mode with a value set.
    pub fn set(self, setting: Setting) -> Mode
        ensures { result ≡ set setting self }
    {
        match setting {
            Setting::Lines(width) => Mode { width, ..self },
            Setting::Access(partition) => Mode { partition, ..self },
        }
    }
}

//! Why a text is no schedule by name.

ghost use Rattle.std.specs.Prelude.{◌≡◌};
ghost use Rattle.sdv_named_schedules.specs.declared.fault.ScheduleFault.TheVariants.{Memory};

use std::alloc::{AllocError, AllocFailed};

/// Why a text is no schedule by name: the first fault, with the number of its line.
#[derive(Clone, Copy, Debug, PartialEq, Eq)]
pub enum ScheduleFault {
    /// The line begins with no name of an event and a colon.
    Event(u64),
    /// No mishap follows the colon, or something follows the mishap.
    Mishap(u64),
    /// More than 64 lines name a mishap.
    Many,
    /// Memory ran out.
    Memory,
}

impl From<AllocError> for ScheduleFault {
    ghost from_gives = { λ _ e. e ≡ Memory };

    fn from(_e: AllocError) -> ScheduleFault {
        ScheduleFault::Memory
    }
}

impl<T: Drop> From<AllocFailed<T>> for ScheduleFault {
    ghost from_gives = { λ _ e. e ≡ Memory };

    fn from(_e: AllocFailed<T>) -> ScheduleFault {
        ScheduleFault::Memory
    }
}

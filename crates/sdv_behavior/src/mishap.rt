//! The mishaps of a schedule: each is a behavior with a name.

ghost use Rattle.std.specs.Prelude.{◌≡◌, slice_get};
ghost use Rattle.sdv_behavior.specs.Schedules.{behavior_of_code, mishap_name, mishap_of_code, mishap_short_name};

use crate::behavior::{Behavior, Deed, PROMPT, PhaseEnd, StatusError};

/// A behavior that a schedule names.
#[derive(Clone, Copy, Debug, PartialEq, Eq)]
pub enum Mishap {
    /// The command does not reach it.
    LosesCommand,
    /// Its answer does not reach the host.
    LosesAnswer,
    /// It does no step of its own, is not yet ready, and stays busy.
    IsSlow,
    /// It takes the command, and answers with an error.
    ReportsError,
    /// It does not take the command, and answers with an error.
    Refuses,
    /// Its data phase is cut.
    CutsPhase,
    /// It takes the command, and the switch that it asks for fails.
    FailsSwitch,
    /// It takes the blocks of a phase and programs them, and their CRC status does not reach the host.
    LosesCrcStatus,
    /// It takes CMD55 as an ordinary command: its answer lacks APP_CMD, and it expects no application command.
    OmitsAppCommand,
    /// The command does not reach it, and it does no step of its own.
    LosesCommandWhileBusy,
    /// It does no step of its own, takes the command, and answers with an error.
    ReportsErrorWhileBusy,
    /// It takes the blocks of a phase, which ends well, and stores none of them; a later status shows the error.
    FailsWriteLater,
    /// Its data phase is cut, or a wait is late, and by then it has gone on.
    MovesOn,
    /// It takes the command, and answers with OUT_OF_RANGE.
    ReportsOutOfRange,
    /// It does not take the command, ends an erase sequence, and answers with ERASE_SEQ_ERROR.
    ReportsEraseSequence,
    /// It takes the command, and answers with ILLEGAL_COMMAND.
    ReportsIllegalCommand,
    /// CMD0 leaves it another block length than the described one.
    SetsOtherLength,
    /// It takes CMD3 with another relative address than the described one, and its answer does not reach the host.
    LosesOtherAddress,
    /// It does not take CMD3, and answers with an error and another relative address.
    RefusesWithOtherAddress,
    /// It does no step of its own, and CMD13 in another state than tran neither shows a pending switch error nor ends it.
    KeepsSwitchError,
}

/// The table of mishaps: each with what the card does. The value of a mishap in a schedule is the number of its row, from 1; 0
/// is no mishap. A file of digits has the first seven.
pub const MISHAPS: [(Mishap, Behavior); 20] = [
    (
        Mishap::LosesCommand,
        Behavior {
            deed: Deed::Loses,
            ..PROMPT
        },
    ),
    (
        Mishap::LosesAnswer,
        Behavior {
            deed: Deed::TakesUnheard,
            ..PROMPT
        },
    ),
    (
        Mishap::IsSlow,
        Behavior {
            settles: false,
            ready: false,
            ..PROMPT
        },
    ),
    (
        Mishap::ReportsError,
        Behavior {
            error: StatusError::General,
            ..PROMPT
        },
    ),
    (
        Mishap::Refuses,
        Behavior {
            deed: Deed::Stays,
            ..PROMPT
        },
    ),
    (
        Mishap::CutsPhase,
        Behavior {
            phase: PhaseEnd::Cut,
            ..PROMPT
        },
    ),
    (
        Mishap::FailsSwitch,
        Behavior {
            fails_switch: true,
            ..PROMPT
        },
    ),
    (
        Mishap::LosesCrcStatus,
        Behavior {
            phase: PhaseEnd::CrcStatusLost,
            ..PROMPT
        },
    ),
    (
        Mishap::OmitsAppCommand,
        Behavior {
            expects_app: false,
            ..PROMPT
        },
    ),
    (
        Mishap::LosesCommandWhileBusy,
        Behavior {
            settles: false,
            deed: Deed::Loses,
            ..PROMPT
        },
    ),
    (
        Mishap::ReportsErrorWhileBusy,
        Behavior {
            settles: false,
            error: StatusError::General,
            ..PROMPT
        },
    ),
    (
        Mishap::FailsWriteLater,
        Behavior {
            phase: PhaseEnd::FailsLater,
            ..PROMPT
        },
    ),
    (
        Mishap::MovesOn,
        Behavior {
            ready: false,
            phase: PhaseEnd::Cut,
            moves_on: true,
            ..PROMPT
        },
    ),
    (
        Mishap::ReportsOutOfRange,
        Behavior {
            error: StatusError::OutOfRange,
            ..PROMPT
        },
    ),
    (
        Mishap::ReportsEraseSequence,
        Behavior {
            deed: Deed::Stays,
            error: StatusError::EraseSequence,
            keeps_erase: false,
            ..PROMPT
        },
    ),
    (
        Mishap::ReportsIllegalCommand,
        Behavior {
            error: StatusError::IllegalCommand,
            ..PROMPT
        },
    ),
    (
        Mishap::SetsOtherLength,
        Behavior {
            other_length: true,
            ..PROMPT
        },
    ),
    (
        Mishap::LosesOtherAddress,
        Behavior {
            deed: Deed::TakesUnheard,
            other_address: true,
            ..PROMPT
        },
    ),
    (
        Mishap::RefusesWithOtherAddress,
        Behavior {
            deed: Deed::Stays,
            other_address: true,
            ..PROMPT
        },
    ),
    (
        Mishap::KeepsSwitchError,
        Behavior {
            settles: false,
            keeps_switch_error: true,
            ..PROMPT
        },
    ),
];

/// The row at a place, if there is one.
fn row_at(rows: &[(Mishap, Behavior)], place: usize) -> Option<(Mishap, Behavior)>
    ensures { result ≡ slice_get rows.now place }
{
    rows.get(place).copied()
}

impl Mishap {
    /// Its name in a schedule.
    pub fn name(self) -> &'static str
        ensures { result.now ≡ mishap_name self }
    {
        match self {
            Mishap::LosesCommand => "command lost",
            Mishap::LosesAnswer => "answer lost",
            Mishap::IsSlow => "not ready",
            Mishap::ReportsError => "error shown",
            Mishap::Refuses => "refused",
            Mishap::CutsPhase => "phase cut",
            Mishap::FailsSwitch => "switch fails",
            Mishap::LosesCrcStatus => "CRC status lost",
            Mishap::OmitsAppCommand => "no APP_CMD",
            Mishap::LosesCommandWhileBusy => "lost while busy",
            Mishap::ReportsErrorWhileBusy => "error while busy",
            Mishap::FailsWriteLater => "write fails, error shown later",
            Mishap::MovesOn => "time passes",
            Mishap::ReportsOutOfRange => "OUT_OF_RANGE",
            Mishap::ReportsEraseSequence => "ERASE_SEQ_ERROR",
            Mishap::ReportsIllegalCommand => "ILLEGAL_COMMAND",
            Mishap::SetsOtherLength => "other block length",
            Mishap::LosesOtherAddress => "answer lost with other address",
            Mishap::RefusesWithOtherAddress => "refused with other address",
            Mishap::KeepsSwitchError => "switch error kept",
        }
    }

    /// A shorter name; the same where it has none.
    pub fn short_name(self) -> &'static str
        ensures { result.now ≡ mishap_short_name self }
    {
        match self {
            Mishap::LosesCommand => "lost",
            Mishap::CutsPhase => "cut",
            Mishap::FailsWriteLater => "write fails",
            _ => self.name(),
        }
    }

    /// The mishap of a value in a schedule, if it is that of a row.
    pub fn of_code(code: u8) -> Option<Mishap>
        ensures { result ≡ mishap_of_code code }
    {
        if code == 0 {
            return None;
        }
        match row_at(&MISHAPS, usize::from(code - 1)) {
            Some(row) => Some(row.0),
            None => None,
        }
    }
}

impl Behavior {
    /// The behavior of a value in a schedule: that of a row, or without a mishap.
    pub fn of_code(code: u8) -> Option<Behavior>
        ensures { result ≡ behavior_of_code code }
    {
        if code == 0 {
            return Some(PROMPT);
        }
        match row_at(&MISHAPS, usize::from(code - 1)) {
            Some(row) => Some(row.1),
            None => None,
        }
    }
}

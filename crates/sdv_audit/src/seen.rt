//! What the tables see of a line.

ghost use Rattle.std.specs.Prelude.{◌≡◌};
ghost use Rattle.sdv_audit.specs.Turns.{line_seen};

use crate::line::TraceLine;
use sdv_card::Seen;
use sdv_registers::Kind;

impl TraceLine {
    /// What the tables see of the line, at a card with or without a pending switch error.
    pub fn seen(&self, kind: Kind, pending: bool) -> Seen
        ensures { result ≡ line_seen kind pending self.now }
    {
        match self {
            TraceLine::Exchange { answer, .. } => answer.seen(kind, pending),
            TraceLine::BlocksIn { end, .. } => end.seen(),
            TraceLine::RegisterIn { end, .. } => end.seen(),
            TraceLine::BlocksOut { end, .. } => end.seen(),
            TraceLine::Wait { end } => end.seen(),
            TraceLine::Lines { .. } | TraceLine::Running { .. } | TraceLine::End => Seen::Sent,
        }
    }
}

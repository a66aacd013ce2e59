//! The kinds of findings.

ghost use Rattle.std.specs.Prelude.{◌≡◌};
ghost use Rattle.sdv_review.specs.Kinds.{kind_word, status_kind};
ghost use Rattle.sdv_telling.specs.Places.{line_at};

use crate::finding::Matter;
use crate::status::Status;
use sdv_graph::Graph;

fn status_kind(status: Status) -> &'static str
    ensures { result.now ≡ status_kind status }
{
    match status {
        Status::EraseOpen(_) | Status::EraseFailed(_) | Status::EraseLeft { .. } => "erase",
        _ => "write",
    }
}

/// The word for the kind of a finding.
pub fn kind_word(matter: Matter) -> &'static str
    ensures { result.now ≡ kind_word matter }
{
    match matter {
        Matter::Unreached => "unreached",
        Matter::Partition(_, _) => "partition",
        Matter::BootEnable => "boot-enable",
        Matter::OneWay(_) => "one-way",
        Matter::Unread(_) => "unread",
        Matter::Misplaced(_) => "partition",
        Matter::Shifted => "input-shifts",
        Matter::Unstored(status) => status_kind(status),
    }
}

/// The line of the text on which the statement of a point begins; 0 where there is no such point.
pub fn line_at(graph: &Graph<'_>, point: usize) -> u64
    ensures { result ≡ line_at graph.now point }
{
    match graph.lines().get(point) {
        Some(line) => u64::from(*line),
        None => 0,
    }
}

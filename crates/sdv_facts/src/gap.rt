//! The blocks that a card has from a number on.

ghost use Rattle.std.specs.Prelude.{◌≡◌, IfSome};
ghost use Rattle.sdv_facts.specs.Limits.{IsInLimits};
ghost use Rattle.sdv_facts.specs.Gaps.{gap_less, gap_more};

use sdv_graph::MAX_NUMBER;

/// From a number that is greater by `k`.
pub fn less(gap: Option<u64>, k: u64) -> Option<u64>
    ensures gap { result ≡ gap_less gap k }
    ensures limits { IfSome gap IsInLimits → IfSome result IsInLimits }
{
    gap?.checked_sub(k)
}

/// From a number that is less by `k`.
pub fn more(gap: Option<u64>, k: u64) -> Option<u64>
    ensures gap { result ≡ gap_more gap k }
    ensures limits { IfSome result IsInLimits }
{
    Some(gap?.saturating_add(k).min(MAX_NUMBER))
}

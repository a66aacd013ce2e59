//! Where a run stands.

ghost use Rattle.std.specs.Prelude.{◌≡◌, ◌≤◌, ◌<◌, ℕ, zero, suc, List, [], ◌∷◌, length, true, false, slice_index, IsSome};
ghost use Rattle.sdv_graph.specs.Path.{turns_at};
ghost use Rattle.sdv_player.specs.Seen.{turns_of, nowhere};

use sdv_graph::Target;

/// A point, with the turns left of the loops round it.
#[repr(C)]
#[derive(Clone, Copy, Debug)]
pub struct Place {
    /// The number of the point.
    pub point: usize,
    /// How many loops stand round it, at most four.
    pub depth: usize,
    /// The turns left of each, the outermost loop first.
    pub turns: [u16; 4],
}

/// No point of a table.
const NOWHERE: usize = 65535;

impl Place {
    /// At no point: the run goes on no more.
    pub fn nowhere() -> Place
        ensures point { result.point ≡ nowhere }
        ensures turns { turns_of result ≡ [] }
    {
        Place {
            point: NOWHERE,
            depth: 0,
            turns: [0; 4],
        }
    }

    /// Goes to a target: leaves loops, and enters one. A fifth loop leads to no point.
    pub fn go_to(&mut self, target: Target)
        ensures point { length (turns_at target (turns_of self.old)) ≤ 4 → self.new.point ≡ target.to }
        ensures turns { length (turns_at target (turns_of self.old)) ≤ 4
            → turns_of self.new ≡ turns_at target (turns_of self.old) }
        ensures too_deep { IsSome target.enter → 4 < length (turns_at target (turns_of self.old))
            → self.new.point ≡ nowhere }
    {
        self.point = target.to;
        self.depth = self.depth.saturating_sub(target.leave);
        if let Some(turns) = target.enter {
            if self.depth < 4 {
                self.turns[self.depth] = turns;
                self.depth += 1;
            } else {
                self.point = NOWHERE;
            }
        }
    }

    /// The turns left of a loop, the outermost one 0.
    fn turns_left(&self, number: usize) -> u16
        ensures { result ≡ slice_index self.now.turns number }
    {
        self.turns.get(number).copied().unwrap_or(0)
    }

    /// Takes a turn of the innermost loop, if one is left.
    pub fn take_turn(&mut self) -> bool
        ensures taken { result ≡ true → (t : ℕ) × (ts : List ℕ) × (turns_of self.old ≡ suc t ∷ ts)
            × (turns_of self.new ≡ t ∷ ts) }
        ensures none { result ≡ false → 0 < self.old.depth → (ts : List ℕ)
            × (turns_of self.old ≡ zero ∷ ts) × (turns_of self.new ≡ zero ∷ ts) }
    {
        if self.depth == 0 {
            return false;
        }
        let inner = self.depth - 1;
        let left = self.turns_left(inner);
        if left == 0 {
            return false;
        }
        if inner >= 4 {
            return false;
        }
        self.turns[inner] = left - 1;
        true
    }
}

//! The comparison along an edge.

ghost use Rattle.std.specs.Prelude.{◌≡◌};
ghost use Rattle.sdv_facts.specs.Edges.{decision_by};

use sdv_graph::Condition;

/// The comparison that holds along an edge.
#[derive(Clone, Copy, Debug, PartialEq, Eq)]
pub enum Test {
    /// The number variable is at least so much.
    AtLeast(usize, u64),
    /// The number variable is less than that.
    Below(usize, u64),
}

/// How an `if` goes on.
#[derive(Clone, Copy, Debug, PartialEq, Eq)]
pub enum Decision {
    /// By a flag.
    Flag(usize),
    /// By a comparison.
    Number {
        /// What holds where the condition is met.
        holds: Test,
        /// What holds where it is not.
        fails: Test,
    },
}

impl Decision {
    /// How an `if` with this condition goes on.
    pub fn by(condition: Condition) -> Decision
        ensures { result ≡ decision_by condition }
    {
        match condition {
            Condition::Flag(flag) => Decision::Flag(flag),
            Condition::AtLeast(variable, bound) => Decision::Number {
                holds: Test::AtLeast(variable, bound),
                fails: Test::Below(variable, bound),
            },
            Condition::Below(variable, bound) => Decision::Number {
                holds: Test::Below(variable, bound),
                fails: Test::AtLeast(variable, bound),
            },
        }
    }
}

//! What is said of the points of a graph, apart from what is said of others.

ghost use Rattle.std.specs.Prelude.{◌≡◌, ◌≤◌, length};
ghost use Rattle.sdv_calls.specs.Closed.{points_here, points_behind};
ghost use Rattle.sdv_calls.specs.Shown.{points_said, rest_said};

use crate::said::Said;
use sdv_graph::Graph;

impl<'c> Said<'c> {
    /// What is said of the points of a graph, and of those behind them.
    pub fn split(self, graph: &Graph<'_>) -> (Said<'c>, Said<'c>)
        requires { length graph.now.points ≤ length self.points.now }
        ensures here { points_said result.0 ≡ points_here graph.now (points_said self.entry) }
        ensures behind { points_said result.1 ≡ points_behind graph.now (points_said self.entry) }
        ensures rest_here { rest_said result.0 ≡ rest_said self.entry }
        ensures rest_behind { rest_said result.1 ≡ rest_said self.entry }
    {
        let Said {
            table,
            points,
            rest,
        } = self;
        let (here, behind) = points.split_at(graph.len());
        (
            Said {
                table,
                points: here,
                rest,
            },
            Said {
                table,
                points: behind,
                rest,
            },
        )
    }
}

//! What a certificate says of a driver's points.

ghost use Rattle.std.specs.Prelude.{◌<◌, All, length};
ghost use Rattle.sdv_facts.specs.Shared.{IsNamed};

use sdv_facts::{Facts, PointFacts, SetTable};

/// What a certificate says of the points of some entries, one entry behind the other, and of the time between calls.
#[derive(Clone, Copy)]
pub struct Said<'c> {
    /// The sets of shapes.
    pub table: &'c SetTable,
    /// What is said of each point, and behind them of the time between calls.
    pub points: &'c [PointFacts],
    /// What is said of the time between calls.
    pub rest: &'c Facts,
    pub ghost named: { All (IsNamed table.now) points.now },
    pub ghost rest_named: { rest.now.set < length table.now },
}

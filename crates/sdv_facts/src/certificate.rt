//! Certificates: what is known at each point of a script.

ghost use Rattle.std.specs.Prelude.{◌≡◌, All, length};
ghost use Rattle.sdv_facts.specs.Limits.{PointInLimits};
ghost use Rattle.sdv_facts.specs.Shared.{certificate_in, points_in, sets_of, IsNamed, IsShared, HasSetsOf};
ghost use Rattle.sdv_facts.specs.Versions.{FitsVersion};

use crate::facts::Facts;
use crate::set_table::SetTable;
use arrayvec::ArrayVec;
use std::marker::Model;

/// The text of a certificate has at most so many bytes.
pub const MAX_BYTES: usize = 16_777_216;

/// A certificate has at most so many shapes over all points.
pub const MAX_SHAPES: usize = 65_536;

/// What a certificate says of a point of a script.
pub struct PointFacts {
    /// What is known there.
    pub facts: Facts,
    /// No more commands are sent from there on, where no loop round the point has a turn left.
    pub base: u64,
    /// The commands that each turn left adds, of each loop round the point, the outermost first.
    pub turns: ArrayVec<u64, 4>,
}

impl Drop for PointFacts {
    // One call, as for a certificate.
    fn drop(self) {
        let PointFacts {
            facts: _facts,
            base: _,
            turns: _turns,
        } = self;
    }
}

/// The version of a certificate's text.
#[derive(Clone, Copy, Debug, PartialEq, Eq)]
pub enum Version {
    /// Version 1, which says nothing of boot partitions.
    One,
    /// Version 2.
    Two,
}

/// What is known at each point of a script, in the order of the points, which share their sets of shapes, and the version
/// of the text that says it.
pub struct Certificate {
    version: Version,
    table: SetTable,
    points: Vec<PointFacts>,
}

impl Drop for Certificate {
    // A caller that drops a certificate then reuses one proved `drop`.
    fn drop(self) {
        let Certificate {
            version: _,
            table: _table,
            points: _points,
        } = self;
    }
}

impl Model for Certificate {
    ghost use Rattle.std.specs.Prelude.{All};
    ghost use Rattle.sdv_facts.specs.Facts.{Certificate};

    ghost Value = { Certificate };

    ghost use Rattle.sdv_facts.specs.Shared.{certificate_in, points_in, IsShared};
    ghost use Rattle.sdv_facts.specs.Versions.{FitsVersion};

    ghost view = { λ c. certificate_in c.table c.version c.points.items };

    ghost invariant = { λ c. IsShared c.table c.points.items
        × All (FitsVersion c.version) (points_in c.table c.points.items) };
}

impl Certificate {
    /// A certificate of the version that says this of its points. The sets of the table are theirs, in the order of the
    /// first points that have them. No number is above 2^40, and in version 1 nothing is said of boot partitions.
    pub fn from_points(version: Version, table: SetTable, points: Vec<PointFacts>) -> Certificate
        requires shared { IsShared table points.items }
        requires version { All (FitsVersion version) (points_in table points.items) }
        ensures { result ≡ certificate_in table version points.items }
    {
        Certificate {
            version,
            table,
            points,
        }
    }

    /// The version of its text.
    pub fn version(&self) -> Version
        ensures { result ≡ self.now.version }
    {
        self.version
    }

    /// The table of sets, and the points, in their order, which name sets of that table.
    pub fn shown(&self) -> (&SetTable, &[PointFacts])
        ensures table { result.0.now ≡ sets_of self.now.points }
        ensures value { points_in result.0.now result.1.now ≡ self.now.points }
        ensures shared { IsShared result.0.now result.1.now }
        ensures limits { All PointInLimits self.now.points }
        ensures version { All (FitsVersion self.now.version) self.now.points }
    {
        (&self.table, &self.points)
    }

    /// The points, in their order, which name sets of the table.
    pub fn points(&self) -> &[PointFacts]
        ensures value { points_in (sets_of self.now.points) result.now ≡ self.now.points }
        ensures named { All (IsNamed (sets_of self.now.points)) result.now }
        ensures limits { All PointInLimits self.now.points }
    {
        &self.points
    }

    /// The table of sets: those of the points, each once, in the order of the first points that have them.
    pub fn table(&self) -> &SetTable
        ensures table { result.now ≡ sets_of self.now.points }
        ensures sets { HasSetsOf result.now self.now.points }
    {
        &self.table
    }

    /// The number of distinct sets.
    pub fn sets(&self) -> usize
        ensures { result ≡ length (sets_of self.now.points) }
    {
        self.table.len()
    }
}

//! The graph of a script: one point for each statement, and where it leads.
//!
//! A point is numbered by the order of the statements' first tokens, from 0. The point of a loop is its head, which is
//! reached on entry and after each turn.

use crate::tree::{Condition, Let, Names, Phase, ScriptCommand};
use sdv_card::{Guard, Kind, Width};
use std::marker::Model;

/// Where a run goes on, and what becomes of the loops on the way.
#[derive(Clone, Copy, Debug, PartialEq, Eq)]
pub struct Target {
    /// The point. One that is not below the number of points leads nowhere: no run gets there.
    pub to: usize,
    /// How many loops are left first, the innermost one before the others.
    pub leave: usize,
    /// The turns of the loop that is then entered, if one is: the point is its head.
    pub enter: Option<u16>,
}

/// A case of a command: where it leads if its guards all hold, and no earlier case's do.
#[derive(Drop)]
pub struct Case {
    /// The guards, one or more.
    pub guards: Vec<Guard>,
    /// The case's block, or what follows it where it has no statement.
    pub target: Target,
}

/// What a statement does, and where it leads.
pub enum Action<'a> {
    /// A command, its cases in their order, and where it leads if none is taken.
    Send(ScriptCommand, Vec<Case>, Target),
    /// A data phase or a wait, where it leads if it ends well, and where otherwise.
    Phase(Phase, Target, Target),
    /// A number variable is set.
    Let(Let, Target),
    /// Where the statement leads if the condition holds, and where otherwise.
    If(Condition, Target, Target),
    /// A flag is set (true) or cleared.
    Flag(usize, bool, Target),
    /// The host uses other data lines from here on.
    Lines(Width, Target),
    /// The head of a loop of so many turns: its body while turns are left, and its else block.
    Loop(u16, Target, Target),
    /// The innermost loop is left whose body the statement stands in.
    Break(Target),
    /// The run ends.
    Done,
    /// The run ends in the fault of this name.
    Fault(&'a str),
}

impl Drop for Action<'_> {
    // A caller that drops an action then reuses one proved `drop`.
    fn drop(self) {
        match self {
            Action::Send(_, _cases, _) => {}
            Action::Phase(_, _, _)
            | Action::Let(_, _)
            | Action::If(_, _, _)
            | Action::Flag(_, _, _)
            | Action::Lines(_, _)
            | Action::Loop(_, _, _)
            | Action::Break(_)
            | Action::Done
            | Action::Fault(_) => {}
        }
    }
}

/// A point: a statement with the loops round it.
pub struct Point<'a> {
    /// What the statement does, and where it leads.
    pub action: Action<'a>,
    /// The most turns that are left here of each loop round the statement, the innermost loop first. Of a loop of N turns
    /// that is N at its own head, and N - 1 in its body; its else block does not stand in it.
    pub most_turns: Vec<u16>,
}

impl Drop for Point<'_> {
    // One call, as for an action.
    fn drop(self) {
        let Point {
            action: _action,
            most_turns: _most_turns,
        } = self;
    }
}

/// The points of a script, each with the line of its statement, and what the script declares.
pub struct Graph<'a> {
    names: Names<'a>,
    points: Vec<Point<'a>>,
    lines: Vec<u32>,
    first: Target,
    steps: u128,
    begins: bool,
}

impl Drop for Graph<'_> {
    // A caller that drops a graph then reuses one proved `drop`.
    fn drop(self) {
        let Graph {
            names: _names,
            points: _points,
            lines: _lines,
            first: _,
            steps: _,
            begins: _,
        } = self;
    }
}

impl<'a> Model for Graph<'a> {
    ghost use Rattle.sdv_graph.specs.Graph.{Graph, graph_with, declared_names};
    ghost use Rattle.sdv_graph.specs.GraphOf.{IsSound};

    ghost Value = { Graph };

    ghost view = { λ g.
        graph_with (declared_names g.names) g.points.items g.lines.items g.first g.steps g.begins };

    ghost invariant = { λ g.
        IsSound (graph_with (declared_names g.names) g.points.items g.lines.items g.first g.steps g.begins) };
}

impl<'a> Graph<'a> {
    ghost use Rattle.std.specs.Prelude.{◌≡◌, ◌<◌, length, slice_get, Some};
    ghost use Rattle.sdv_graph.specs.Graph.{Graph, EachRunEnds, graph_with, seen_point, declared_names};
    ghost use Rattle.sdv_graph.specs.GraphOf.{IsSound};

    /// A graph of these points, whose statements stand on these lines.
    pub(crate) fn from_points(
        names: Names<'a>,
        points: Vec<Point<'a>>,
        lines: Vec<u32>,
        first: Target,
        steps: u128,
        begins: bool,
    ) -> Self
        requires { IsSound (graph_with (declared_names names) points.items lines.items first steps begins) }
        ensures { result ≡ graph_with (declared_names names.entry) points.entry.items lines.items first steps begins }
    {
        Graph {
            names,
            points,
            lines,
            first,
            steps,
            begins,
        }
    }

    /// The kind of card that the script is for.
    pub fn kind(&self) -> Kind
        ensures { result ≡ self.now.kind }
    {
        self.names.kind
    }

    /// How many number variables the script has.
    pub fn nums(&self) -> usize
        ensures { result ≡ self.now.numbers }
    {
        self.names.numbers.len()
    }

    /// How many flags the script has.
    pub fn flags(&self) -> usize
        ensures { result ≡ self.now.flags }
    {
        self.names.flags.len()
    }

    /// What the script declares: the kind of card, and its names in the order of their numbers.
    pub fn names(&self) -> &Names<'a>
        ensures { declared_names result.now ≡ self.now.names }
    {
        &self.names
    }

    /// The number of points.
    pub fn len(&self) -> usize
        ensures { result ≡ length self.now.points }
    {
        self.points.len()
    }

    /// The point with a number below `len()`.
    pub fn point(&self, number: usize) -> &Point<'a>
        requires { number < length self.now.points }
        ensures { slice_get self.now.points number ≡ Some (seen_point result.now) }
    {
        &self.points[number]
    }

    /// The line of the script's text on which the statement of each point begins, from 1.
    pub fn lines(&self) -> &[u32]
        ensures lines { result.now ≡ self.now.lines }
        ensures each { length result.now ≡ length self.now.points }
    {
        &self.lines
    }

    /// The line of the script's text on which the statement of a point with a number below `len()` begins, from 1.
    pub fn line(&self, number: usize) -> u32
        requires { number < length self.now.points }
        ensures { slice_get self.now.lines number ≡ Some result }
    {
        self.lines[number]
    }

    /// Where a run begins: at point 0. Each run ends, and the loops are nested as the targets say.
    pub fn first(&self) -> Target
        ensures first { result ≡ self.now.first }
        ensures sound { IsSound self.now }
    {
        self.first
    }

    /// No run makes more moves from point to point.
    pub fn steps(&self) -> u128
        ensures steps { result ≡ self.now.steps }
        ensures ends { EachRunEnds self.now }
        ensures sound { IsSound self.now }
    {
        self.steps
    }

    /// Whether the script begins with CMD0: each run that has an event begins so. Such a script keeps what was certified
    /// beside a card in any state.
    pub fn begins(&self) -> bool
        ensures begins { result ≡ self.now.begins }
        ensures sound { IsSound self.now }
    {
        self.begins
    }
}

//! Scripts.

ghost use Rattle.std.specs.Prelude.{◌≡◌, length};
ghost use Rattle.sdv_script.specs.Lines.{statement_lines};
ghost use Rattle.sdv_script.specs.Script.{IsScript};
ghost use Rattle.sdv_script.specs.Place.{parsed_of};
ghost use Rattle.sdv_graph.specs.Counts.{statements_count};
ghost use Rattle.sdv_graph.specs.GraphOf.{CanRun, SuitsKind};
ghost use Rattle.sdv_graph.specs.Tree.{statements_of};

use sdv_graph::{Block, Names};

/// A script: its text, what it declares, its statements, and the lines on which they begin.
pub struct Script<'a> {
    /// The text.
    pub(crate) text: &'a str,
    /// What it declares.
    pub(crate) names: Names<'a>,
    /// Its statements.
    pub(crate) body: Block<'a>,
    /// The line of each statement's first token, in the order of these tokens.
    pub(crate) lines: Vec<u32>,
    ghost can_run: { CanRun (statements_of body) },
    ghost suits: { SuitsKind names.kind (statements_of body) },
    ghost located: { length lines.items ≡ statements_count (statements_of body) },
    ghost lines_same: { lines.items ≡ statement_lines (parsed_of text.now names body) },
    pub ghost is_script: { ∥ IsScript (parsed_of text.now names body) ∥₁ },
}

impl Drop for Script<'_> {
    // A caller that drops a script then reuses one proved `drop`.
    fn drop(self) {
        let Script {
            text: _,
            names: _names,
            body: _body,
            lines: _lines,
        } = self;
    }
}

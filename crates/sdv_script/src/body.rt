//! The kind of card that a script is for, and its statements.

ghost use Rattle.std.specs.Prelude.{◌≡◌};
ghost use Rattle.sdv_script.specs.Script.{IsScript};
ghost use Rattle.sdv_script.specs.Shown.{shown};
ghost use Rattle.sdv_graph.specs.Tree.{statements_of};

use crate::script::Script;
use sdv_card::Kind;
use sdv_graph::Block;

impl<'a> Script<'a> {
    /// The kind of card that the script is for.
    pub fn kind(&self) -> Kind
        ensures { result ≡ (shown self.now).names.kind }
    {
        self.names.kind
    }

    /// The statements of the script, in their order.
    pub fn body(&self) -> &Block<'a>
        ensures body { statements_of result.now ≡ (shown self.now).body }
        ensures script { ∥ IsScript (shown self.now) ∥₁ }
    {
        &self.body
    }
}

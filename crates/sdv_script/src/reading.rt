//! Reading a script.

ghost use Rattle.std.specs.Prelude.{◌≡◌, ◌≢◌, ◌≤◌, length, IfOk, IfErr};
ghost use Rattle.sdv_script.specs.Asks.{AsksByTable};
ghost use Rattle.sdv_graph.specs.Graph.{Graph};
ghost use Rattle.sdv_script.specs.OneGraph.{IsGraphOfScript};
ghost use Rattle.sdv_script.specs.Lines.{token_lines};
ghost use Rattle.sdv_script.specs.FoundLines.{found_lines};
ghost use Rattle.sdv_script.specs.Rules.{max_bytes};
ghost use Rattle.sdv_script.specs.Script.{Parsed, IsScript};
ghost use Rattle.sdv_script.specs.declared.lines.Before.TheVariants.{Other};
ghost use Rattle.sdv_script.specs.Place.{tokens_at, names_of};
ghost use Rattle.sdv_script.specs.Shown.{shown};
ghost use Rattle.sdv_graph.specs.Tree.{statements_of};
ghost use Rattle.sdv_script.specs.Tokens.{tokens};
ghost use Rattle.sdv_script.specs.Reading.{Gives, read_body, read_script};

use crate::blocks::statements;
use crate::cursor::Cursor;
use crate::declared::declared;
use crate::depth::Depth;
use crate::expect::card_word;
use crate::fault::{FaultKind, ScriptFault, Stop};
use crate::flow::block_falls;
use crate::lines::lines_of_statements;
use crate::progress::Progress;
use crate::script::Script;
use crate::token::Token;
use sdv_graph::{Block, Names};
use std::alloc::Global;

/// A text has at most so many bytes.
pub const MAX_BYTES: usize = 65_536;

/// The script that a text is.
///
/// # Errors
///
/// The first fault from left to right, with the line of its token. [`FaultKind::Memory`] has line 0, and comes only
/// where memory was refused.
pub fn parse(alloc: Global, text: &str) -> Result<Script<'_>, ScriptFault>
    ensures script { IfOk result (λ s. IsScript (shown s)) }
    ensures text { IfOk result (λ s. (shown s).text ≡ text.entry.now) }
    // Unless memory was refused, a text that is refused is no script.
    ensures only { IfErr result (λ f. f.kind ≢ FaultKind.Memory →
        (s : Parsed) → s.text ≡ text.entry.now → IsScript s → ⊥) }
{
    if text.len() > MAX_BYTES {
        return Err(ScriptFault {
            kind: FaultKind::Limit,
            line: 1,
        });
    }
    match whole(alloc, text) {
        Ok((names, body, lines)) => Ok(Script {
            text,
            names,
            body,
            lines,
        }),
        Err(Stop::Fault(fault)) => Err(fault),
        Err(Stop::Memory) => Err(ScriptFault {
            kind: FaultKind::Memory,
            line: 0,
        }),
    }
}

/// A text has one syntax tree at most.
pub fn one_tree()
    ensures { (s t : Parsed) → IsScript s → IsScript t → s.text ≡ t.text → (s.names ≡ t.names) × (s.body ≡ t.body) }
{}

/// Each command of a script's graph asks by a line of the command table.
pub fn asks_by_table()
    ensures { (s : Parsed) → (g : Graph) → IsScript s → IsGraphOfScript s g → AsksByTable g }
{}

#[tactic(auto, unfolding(crate::specs::Reading::read_script))]
fn whole(alloc: Global, text: &str) -> Result<(Names<'_>, Block<'_>, Vec<u32>), Stop>
    requires { length text.now ≤ max_bytes }
    ensures read { Gives (λ x. (names_of x.0, statements_of x.1)) result (read_script (tokens text.entry.now)) }
    ensures lines { IfOk result (λ x. x.2.items
        ≡ found_lines Other (tokens text.entry.now) (token_lines 1 text.entry.now)) }
{
    let mut at = Cursor::new(text);
    card_word(&mut at)?;
    let names = declared(alloc, &mut at)?;
    let body = body(alloc, &names, at)?;
    let lines = lines_of_statements(alloc, text)?;
    Ok((names, body, lines))
}

// The statements of a script, up to the end of the text.
fn body<'a>(alloc: Global, names: &Names<'a>, at: Cursor<'a>) -> Result<Block<'a>, Stop>
    ensures { Gives (λ x. (names_of names.now, statements_of x)) result
        (read_body (names_of names.now) (tokens_at at.entry)) }
{
    let outside = Depth {
        braces: 0,
        loops: 0,
    };
    let mut from = Progress { at, begun: 0 };
    let body = statements(alloc, names, MAX_BYTES, outside, &mut from)?;
    let Token::End = from.at.token else {
        return Err(Stop::Fault(from.at.fault(FaultKind::Syntax)));
    };
    if block_falls(&body) {
        return Err(Stop::Fault(from.at.fault(FaultKind::NoEnd)));
    }
    Ok(body)
}

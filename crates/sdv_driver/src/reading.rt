//! Reading a driver.

ghost use Rattle.std.specs.Prelude.{◌≡◌, ◌≢◌, ◌≤◌, length, IfOk, IfErr, Some, is_ok};
ghost use Rattle.sdv_script.specs.Place.{tokens_at, names_of, texts};
ghost use Rattle.sdv_script.specs.Reading.{Gives};
ghost use Rattle.sdv_script.specs.FoundLines.{found_lines};
ghost use Rattle.sdv_script.specs.Lines.{token_lines};
ghost use Rattle.sdv_script.specs.Rules.{max_bytes};
ghost use Rattle.sdv_script.specs.Tokens.{tokens};
ghost use Rattle.sdv_script.specs.declared.lines.Before.TheVariants.{Other};
ghost use Rattle.sdv_driver.specs.Driver.{Parsed, IsDriver};
ghost use Rattle.sdv_driver.specs.Fits.{EachFits};
ghost use Rattle.sdv_driver.specs.Grammar.{driver_written};
ghost use Rattle.sdv_driver.specs.Reading.{read_driver, read_all_entries, ends};
ghost use Rattle.sdv_driver.specs.Rules.{entries_fit};
ghost use Rattle.sdv_driver.specs.Shown.{shown};
ghost use Rattle.sdv_driver.specs.Views.{entries_of, tree_of};

use crate::driver::Driver;
use crate::entries::entry;
use crate::names::declared;
use crate::rules::{Wrong, entry_obeys};
use crate::tree::Entry;
use crate::words::{DRIVER, wanted_word};
use sdv_graph::Names;
use sdv_script::{
    Cursor, FaultKind, MAX_BYTES, Progress, ScriptFault, Stop, Token, lines_of_statements,
};
use std::alloc::Global;

/// A driver has at most so many entries.
pub const MAX_ENTRIES: usize = 16;

/// The driver that a text is.
///
/// # Errors
///
/// The first fault from left to right, with the line of its token; behind all of these a statement that its entry may
/// not have, with the line on which it begins. [`FaultKind::Memory`] has line 0, and comes only where memory was
/// refused.
pub fn parse_driver(alloc: Global, text: &str) -> Result<Driver<'_>, ScriptFault>
    ensures driver { IfOk result (λ d. IsDriver (shown d)) }
    ensures text { IfOk result (λ d. (shown d).text ≡ text.entry.now) }
    // Unless memory was refused, a text that is refused is no driver.
    ensures only { IfErr result (λ f. f.kind ≢ FaultKind.Memory →
        (d : Parsed) → d.text ≡ text.entry.now → IsDriver d → ⊥) }
{
    if text.len() > MAX_BYTES {
        return Err(ScriptFault {
            kind: FaultKind::Limit,
            line: 1,
        });
    }
    match whole(alloc, text) {
        Ok((names, entries, lines)) => Ok(Driver {
            text,
            names,
            entries,
            lines,
        }),
        Err(Stop::Fault(fault)) => Err(fault),
        Err(Stop::Memory) => Err(ScriptFault {
            kind: FaultKind::Memory,
            line: 0,
        }),
    }
}

/// The text of a driver has exactly the tokens that its tree is written as, and the names and statements of each entry
/// fit the rules of scripts, with the input as a further number variable.
pub fn written_so()
    ensures written { (d : Parsed) → IsDriver d → tokens d.text ≡ driver_written d.tree }
    ensures fits { (d : Parsed) → IsDriver d → EachFits d.tree.names d.tree.entries }
{}

/// A text has one syntax tree at most.
pub fn one_driver()
    ensures { (d e : Parsed) → IsDriver d → IsDriver e → d.text ≡ e.text → d.tree ≡ e.tree }
{}

#[tactic(auto, unfolding(crate::specs::Reading::read_driver))]
fn whole(alloc: Global, text: &str) -> Result<(Names<'_>, Vec<Entry<'_>>, Vec<u32>), Stop>
    requires { length text.now ≤ max_bytes }
    ensures read { Gives (λ x. tree_of x.0 x.1.items) result (read_driver (tokens text.entry.now)) }
    ensures lines { IfOk result (λ x. x.2.items
        ≡ found_lines Other (tokens text.entry.now) (token_lines 1 text.entry.now)) }
{
    let mut at = Cursor::new(text);
    wanted_word(&mut at, DRIVER)?;
    let names = declared(alloc, &mut at)?;
    let entries = entries(alloc, &names, at)?;
    let lines = lines_of_statements(alloc, text)?;
    if let Err(fault) = obey(true, &entries, 0, &lines) {
        return Err(Stop::Fault(fault));
    }
    Ok((names, entries, lines))
}

// The entries of a driver, up to the end of the text.
fn entries<'a>(alloc: Global, names: &Names<'a>, at: Cursor<'a>) -> Result<Vec<Entry<'a>>, Stop>
    ensures { Gives (λ x. entries_of x.items) result (read_all_entries (names_of names.now) (tokens_at at.entry)) }
{
    let mut from = Progress { at, begun: 0 };
    let mut words = Vec::new(alloc);
    let mut read = Vec::new(alloc);
    for _left in (0..MAX_ENTRIES + 1).rev() {
        if ends(&from.at, &words) {
            return Ok(read);
        }
        let next = entry(alloc, names, &words, &mut from)?;
        words.push(next.name)?;
        read.push(next)?;
    }
    Err(Stop::Fault(from.at.fault(FaultKind::Limit)))
}

// Nothing stands here, behind one entry or more.
fn ends(at: &Cursor<'_>, words: &[&str]) -> bool
    ensures { result ≡ ends (tokens_at at.now) (texts words.now) }
{
    matches!(at.token, Token::End) && !words.is_empty()
}

// Each entry has statements that it may have. So many statements begin before the first of these entries, and the lines
// are those of all.
fn obey(
    is_first: bool,
    entries: &[Entry<'_>],
    begun: usize,
    lines: &[u32],
) -> Result<(), ScriptFault>
    ensures { is_ok result ≡ entries_fit is_first (entries_of entries.now) }
{
    let Some((entry, others)) = entries.split_first() else {
        return Ok(());
    };
    let begun = begun.saturating_add(usize::from(entry.within.is_some()));
    match entry_obeys(is_first, entry) {
        Ok(()) => obey(false, others, begun.saturating_add(entry.statements), lines),
        Err(wrong) => Err(fault(wrong, begun, lines)),
    }
}

// What is wrong with a statement of an entry, before which so many statements of the text begin.
fn fault(wrong: Wrong, begun: usize, lines: &[u32]) -> ScriptFault {
    let line = lines.get(begun.saturating_add(wrong.statement));
    ScriptFault {
        kind: wrong.kind,
        line: line.copied().unwrap_or(0),
    }
}

//! From a graph to its table.

ghost use Rattle.std.specs.Prelude.{◌≡◌, ◌<◌, ◌^◌, ◌+◌, ◌*◌, ◌++◌, ◌∷◌, [], length, IfOk, IfErr};
ghost use Rattle.sdv_table.specs.declared.format.TheConstants.{TOO_MANY_WORDS};
ghost use Rattle.sdv_table.specs.Table.{heads, rows, header, header_size, size, kind_code};
ghost use Rattle.sdv_table.specs.Fits.{CountsFit, PointsFit, TargetFits, IsTable, IsReason, counts_of};
ghost use Rattle.sdv_table.specs.Loading.{IsWellFormed};

use crate::counts::Counts;
use crate::fault::{Part, TableFault};
use crate::fits::{action_fits, target_fits};
use crate::format;
use crate::row::{head, put_number, put_row, target_word};
use sdv_card::Kind;
use sdv_graph::Graph;
use std::alloc::Global;

// The points' words and their rows.
struct Points {
    heads: Vec<u32>,
    rows: Vec<u32>,
}

impl Drop for Points {
    // One call, as for a graph.
    fn drop(self) {
        let Points {
            heads: _heads,
            rows: _rows,
        } = self;
    }
}

// What the header counts, where it has room for it.
fn counts_of(graph: &Graph<'_>) -> Result<Counts, TableFault>
    ensures counts { IfOk result (λ counts. counts ≡ counts_of graph.now) }
    ensures fit { IfOk result (λ counts. CountsFit counts) }
    ensures reason { IfErr result (IsReason graph.now) }
{
    let counts = Counts {
        numbers: graph.nums(),
        flags: graph.flags(),
        points: graph.len(),
    };
    if counts.numbers > format::MOST_NUMBERS {
        return Err(TableFault::Wide(Part::Numbers));
    }
    if counts.flags > format::MOST_FLAGS {
        return Err(TableFault::Wide(Part::Flags));
    }
    if counts.points > format::MOST_POINTS {
        return Err(TableFault::Wide(Part::Points));
    }
    Ok(counts)
}

// The words of all points.
fn points_of(alloc: Global, graph: &Graph<'_>, counts: Counts) -> Result<Points, TableFault>
    requires same { counts ≡ counts_of graph.now }
    requires fit { CountsFit counts }
    ensures heads { IfOk result (λ p.
        p.heads.items ≡ heads graph.now.kind (header_size + length graph.now.points) graph.now.points) }
    ensures rows { IfOk result (λ p. p.rows.items ≡ rows graph.now.kind graph.now.points) }
    ensures fits { IfOk result (λ _. PointsFit graph.now.kind (counts_of graph.now) graph.now.points) }
    ensures reason { IfErr result (IsReason graph.now) }
{
    let kind = graph.kind();
    let start = format::HEADER_SIZE + counts.points;
    let mut heads = Vec::new(alloc);
    let mut rows = Vec::new(alloc);
    for number in 0..counts.points {
        let action = &graph.point(number).action;
        if !action_fits(kind, counts, action) {
            return Err(TableFault::Wide(Part::Point(number)));
        }
        let row = rows.len();
        if row >= format::TOO_MANY_WORDS - start {
            return Err(TableFault::Wide(Part::Words));
        }
        heads.push(head(action) + format::UPPER * (start + row) as u32)?;
        put_row(&mut rows, kind, action)?;
    }
    Ok(Points { heads, rows })
}

fn kind_code(kind: Kind) -> u32
    ensures code { result ≡ kind_code kind }
    ensures small { result < 2 }
{
    match kind {
        Kind::Sd => format::SD,
        Kind::Emmc => format::EMMC,
    }
}

// The header of a table of so many words, whose runs send no more commands than `most`.
fn header_of(
    alloc: Global,
    graph: &Graph<'_>,
    most: u64,
    counts: Counts,
    total: usize,
) -> Result<Vec<u32>, TableFault>
    requires same { counts ≡ counts_of graph.now }
    requires fit { CountsFit counts }
    requires few_words { total < TOO_MANY_WORDS }
    ensures words { IfOk result (λ words. total ≡ size graph.now → words.items ≡ header graph.now most) }
    ensures fits { IfOk result (λ _. TargetFits counts.points graph.now.first) }
    ensures few { IfOk result (λ _. graph.now.steps < 2 ^ 64) }
    ensures reason { IfErr result (IsReason graph.now) }
{
    let steps = graph.steps();
    if steps >= 1 << 64 {
        return Err(TableFault::Wide(Part::Moves));
    }
    let first = graph.first();
    if !target_fits(counts.points, first) {
        return Err(TableFault::Wide(Part::First));
    }
    let counted = counts.numbers as u32 + format::PART_BOUND * counts.flags as u32;
    let parts = kind_code(graph.kind()) + format::PART_BOUND * counted;
    let mut words = Vec::new(alloc);
    words.push(format::MAGIC)?;
    words.push(format::VERSION + format::KIND * parts)?;
    words.push(counts.points as u32 + format::UPPER * total as u32)?;
    words.push(target_word(first))?;
    put_number(&mut words, steps as u64)?;
    put_number(&mut words, most)?;
    Ok(words)
}

// The table of a graph, whose runs send no more commands than `most`.
fn table_of(alloc: Global, graph: &Graph<'_>, most: u64) -> Result<Vec<u32>, TableFault>
    ensures table { IfOk result (λ words. IsTable graph.now most words.items) }
    ensures reason { IfErr result (IsReason graph.now) }
{
    let counts = counts_of(graph)?;
    let points = points_of(alloc, graph, counts)?;
    let start = format::HEADER_SIZE + counts.points;
    let row_words = points.rows.len();
    if row_words >= format::TOO_MANY_WORDS - start {
        return Err(TableFault::Wide(Part::Words));
    }
    let mut words = header_of(alloc, graph, most, counts, start + row_words)?;
    words.extend_from_slice(&points.heads)?;
    words.extend_from_slice(&points.rows)?;
    Ok(words)
}

/// The table of a graph, which is well formed. Its header says that no run sends more commands than `most`; a player asks for
/// no more.
///
/// # Errors
///
/// [`TableFault::Wide`] where a part of the graph has no room, and [`TableFault::Memory`].
pub fn encode(alloc: Global, graph: &Graph<'_>, most: u64) -> Result<Vec<u32>, TableFault>
    ensures table { IfOk result (λ words. IsTable graph.now most words.items) }
    ensures reason { IfErr result (IsReason graph.now) }
    ensures well_formed { IfOk result (λ words. IsWellFormed words.items) }
{
    let words = table_of(alloc, graph, most)?;
    Ok(words)
}

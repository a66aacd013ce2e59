//! Entries: their heads and their statements.

ghost use Rattle.std.specs.Prelude.{◌≡◌};
ghost use Rattle.sdv_graph.specs.Tree.{statements_of};
ghost use Rattle.sdv_script.specs.Place.{tokens_at, texts, names_of, progress_of};
ghost use Rattle.sdv_script.specs.Reading.{Gives, read_partition};
ghost use Rattle.sdv_driver.specs.Reading.{read_head, read_input, read_buffer, read_access, read_within, read_more, read_at_most, after_at_most, read_body, read_entry};
ghost use Rattle.sdv_driver.specs.Views.{head_of, entry_of};

use crate::names::{copied, new_name, with_number};
use crate::reading::MAX_ENTRIES;
use crate::tree::{Entry, Input, Within};
use crate::words::{BLOCKS, ENTRY, takes_word, wanted_word};
use sdv_card::{Kind, Partition};
use sdv_graph::{Block, Names};
use sdv_script::{
    Cursor, Depth, FaultKind, Keyword, MAX_BYTES, MAX_NUMBERS, Progress, Sign, Stop, Token,
    block_falls, close_brace, count, figure, number_name, open_brace, statements,
};
use std::alloc::Global;

/// What stands before an entry's statements.
#[derive(Drop)]
pub struct Head<'a> {
    name: &'a str,
    names: Names<'a>,
    input: Option<Input>,
    partition: Option<Partition>,
    within: Option<Within>,
}

/// An entry, with a name that no earlier one has.
pub fn entry<'a>(
    alloc: Global,
    names: &Names<'a>,
    earlier: &[&str],
    from: &mut Progress<'a>,
) -> Result<Entry<'a>, Stop>
    ensures { Gives (λ x. (entry_of x, progress_of from.new)) result
        (read_entry (names_of names.now) (texts earlier.now) (progress_of from.old)) }
{
    let head = entry_head(alloc, names, earlier, &mut from.at)?;
    let begun = from.begun;
    let body = body(alloc, &head.names, from)?;
    let Head {
        name,
        names,
        input,
        partition,
        within,
    } = head;
    Ok(Entry {
        name,
        names,
        input,
        partition,
        within,
        body,
        statements: from.begun - begun,
    })
}

fn entry_head<'a>(
    alloc: Global,
    names: &Names<'a>,
    earlier: &[&str],
    at: &mut Cursor<'a>,
) -> Result<Head<'a>, Stop>
    ensures { Gives (λ x. (head_of x, tokens_at at.new)) result
        (read_head (names_of names.now) (texts earlier.now) (tokens_at at.old)) }
{
    wanted_word(at, ENTRY)?;
    let name = new_name(&[], earlier, MAX_ENTRIES, at)?;
    let (names, input) = input(alloc, names, at)?;
    let partition = partition(names.kind, at)?;
    let within = within(&names, input, at)?;
    Ok(Head {
        name,
        names,
        input,
        partition,
        within,
    })
}

// The names with the input, and the input, if there is one.
fn input<'a>(
    alloc: Global,
    names: &Names<'a>,
    at: &mut Cursor<'a>,
) -> Result<(Names<'a>, Option<Input>), Stop>
    ensures { Gives (λ x. ((names_of x.0, x.1), tokens_at at.new)) result
        (read_input (names_of names.now) (tokens_at at.old)) }
{
    let Token::Name(_) = at.token else {
        return Ok((copied(alloc, names)?, None));
    };
    let name = new_name(&names.flags, &names.numbers, MAX_NUMBERS, at)?;
    let blocks = buffer(at)?;
    let place = names.numbers.len();
    let names = with_number(alloc, names, name)?;
    Ok((names, Some(Input { place, blocks })))
}

// The blocks of the buffer, if there is one.
fn buffer(at: &mut Cursor<'_>) -> Result<Option<u16>, Stop>
    ensures { Gives (λ x. (x, tokens_at at.new)) result (read_buffer (tokens_at at.old)) }
{
    if takes_word(at, BLOCKS) {
        Ok(Some(count(at, FaultKind::Syntax, FaultKind::Limit)?))
    } else {
        Ok(None)
    }
}

// The partition, if one is named, which e.MMC alone has.
fn partition(kind: Kind, at: &mut Cursor<'_>) -> Result<Option<Partition>, Stop>
    ensures { Gives (λ x. (x, tokens_at at.new)) result (read_access kind (tokens_at at.old)) }
{
    match at.token {
        Token::Key(Keyword::PartAccess) => match kind {
            Kind::Emmc => {
                at.advance();
                Ok(Some(partition_number(at)?))
            }
            Kind::Sd => Err(Stop::Fault(at.fault(FaultKind::Argument))),
        },
        _ => Ok(None),
    }
}

// The partition that has the number in access.
fn partition_number(at: &mut Cursor<'_>) -> Result<Partition, Stop>
    ensures { Gives (λ x. (x, tokens_at at.new)) result (read_partition (tokens_at at.old)) }
{
    let partition = match at.token {
        Token::Number(0) => Partition::User,
        Token::Number(1) => Partition::Boot1,
        Token::Number(2) => Partition::Boot2,
        _ => return Err(Stop::Fault(at.fault(FaultKind::Argument))),
    };
    at.advance();
    Ok(partition)
}

// When a call is allowed, if an entry with an input says so.
fn within(
    names: &Names<'_>,
    input: Option<Input>,
    at: &mut Cursor<'_>,
) -> Result<Option<Within>, Stop>
    ensures { Gives (λ x. (x, tokens_at at.new)) result (read_within (names_of names.now) input (tokens_at at.old)) }
{
    match (input, at.token) {
        (Some(input), Token::Key(Keyword::If)) => {
            at.advance();
            Ok(Some(at_most(names, input, at)?))
        }
        _ => Ok(None),
    }
}

// The input, what is added to it, `<=`, and the number variable that is the most.
fn at_most(names: &Names<'_>, input: Input, at: &mut Cursor<'_>) -> Result<Within, Stop>
    ensures { Gives (λ x. (x, tokens_at at.new)) result
        (read_at_most (names_of names.now) input.place (tokens_at at.old)) }
{
    let word = *at;
    if number_name(names, at, FaultKind::Syntax)? != input.place {
        return Err(Stop::Fault(word.fault(FaultKind::Name)));
    }
    let more = more(at)?;
    at_most_sign(at)?;
    let word = *at;
    let most = number_name(names, at, FaultKind::Syntax)?;
    if most == input.place {
        return Err(Stop::Fault(word.fault(FaultKind::Name)));
    }
    Ok(Within {
        input: input.place,
        more,
        most,
    })
}

// What is added, if something is.
fn more(at: &mut Cursor<'_>) -> Result<Option<u64>, Stop>
    ensures { Gives (λ x. (x, tokens_at at.new)) result (read_more (tokens_at at.old)) }
{
    match at.token {
        Token::Mark(Sign::Plus) => {
            at.advance();
            Ok(Some(figure(at, FaultKind::Syntax)?))
        }
        _ => Ok(None),
    }
}

// `<` and `=`, which stand for at most.
fn at_most_sign(at: &mut Cursor<'_>) -> Result<(), Stop>
    ensures { Gives (λ _. tokens_at at.new) result (after_at_most (tokens_at at.old)) }
{
    let Token::Mark(Sign::Below) = at.token else {
        return Err(Stop::Fault(at.fault(FaultKind::Syntax)));
    };
    at.advance();
    let Token::Mark(Sign::Equals) = at.token else {
        return Err(Stop::Fault(at.fault(FaultKind::Syntax)));
    };
    at.advance();
    Ok(())
}

// The statements of an entry, in braces.
fn body<'a>(alloc: Global, names: &Names<'a>, from: &mut Progress<'a>) -> Result<Block<'a>, Stop>
    ensures { Gives (λ x. (statements_of x, progress_of from.new)) result
        (read_body (names_of names.now) (progress_of from.old)) }
{
    let outside = Depth {
        braces: 0,
        loops: 0,
    };
    open_brace(&mut from.at, outside, FaultKind::Syntax)?;
    let body = statements(alloc, names, MAX_BYTES, outside, from)?;
    let brace = from.at;
    close_brace(&mut from.at)?;
    if block_falls(&body) {
        return Err(Stop::Fault(brace.fault(FaultKind::NoEnd)));
    }
    Ok(body)
}

//! A refusal in words: which statement is refused beside which card, and why.

ghost use Rattle.std.specs.Prelude.{◌<◌, length};

use crate::illegality::{Illegality, Reason, put_illegality};
use crate::listing::{put_numbers, put_place};
use crate::shapes::put_shape;
use crate::statements::{put_address, put_statement};
use crate::text::{Text, put, put_all, put_with_number};
use sdv_card::{Partition, Shape, State};
use sdv_facts::Numbers;
use sdv_graph::{Action, Address, Graph, Names, Unit};
use std::alloc::AllocError;

/// Why a point is refused at a shape.
#[derive(Clone, Copy)]
pub enum Why {
    /// The event of its statement is not legal, for this reason.
    Illegal(Option<Illegality>),
    /// The address of its statement's command does not fit.
    Address,
    /// The script may not end there.
    EndState,
}

/// Beside what a statement is refused.
#[derive(Clone, Copy)]
pub struct Beside<'b> {
    /// What is known of the card's capacity and of the number variables.
    pub numbers: &'b Numbers,
    /// The card with its host.
    pub shape: Shape,
}

/// The unit of an address is that of the shape.
fn fits_unit(unit: Unit, shape: Shape) -> bool {
    let has_blocks = shape.has_block_addresses();
    match unit {
        Unit::Block => has_blocks,
        Unit::Byte => !has_blocks,
        Unit::By(flag) => shape.flag(flag) == has_blocks,
    }
}

/// What the unit of an address asks of the cards.
fn unit_rule(unit: Unit) -> &'static str {
    match unit {
        Unit::Block => " needs a card with block addresses",
        Unit::Byte => " needs a card with byte addresses",
        Unit::By(_) => " needs the flag to be set if and only if the card has block addresses",
    }
}

/// Adds that the partition in access may not have all blocks of an address, and what is known of it.
fn put_beyond(
    text: &mut Text,
    address: &Address,
    partition: Partition,
    numbers: &Numbers,
    names: &Names<'_>,
) -> Result<(), AllocError> {
    let is_boot = partition != Partition::User;
    put(
        text,
        if is_boot {
            "the boot partition in access may not have all blocks "
        } else {
            "the card may not have all blocks "
        },
    )?;
    put_address(text, address, names)?;
    put(text, "; what is known: ")?;
    if is_boot && numbers.mb == 0 {
        put(text, "a boot partition has 0 blocks or more; ")?;
    }
    put_numbers(text, numbers, names)
}

/// Adds why the address of a statement's command does not fit at a shape.
fn put_misfit(
    text: &mut Text,
    action: &Action<'_>,
    beside: Beside<'_>,
    names: &Names<'_>,
) -> Result<(), AllocError> {
    let Action::Send(command, _, _) = action else {
        return put(text, "it has no address");
    };
    match &command.address {
        Some(address) if fits_unit(address.unit, beside.shape) => put_beyond(
            text,
            address,
            beside.shape.partition(),
            beside.numbers,
            names,
        ),
        Some(address) => {
            put_address(text, address, names)?;
            put(text, unit_rule(address.unit))
        }
        None => put(text, "it has no address"),
    }
}

/// A word for the clause that a point fails at a shape: of an address that its unit does not fit, and else that the card may
/// not have its blocks.
pub fn refused_word(action: &Action<'_>, why: Why, shape: Shape) -> &'static str {
    match why {
        Why::Illegal(Some(illegality)) => illegality.reason.word(),
        Why::Illegal(None) => "illegal",
        Why::EndState => "end-state",
        Why::Address => match action {
            Action::Send(command, _, _) => match &command.address {
                Some(address) if !fits_unit(address.unit, shape) => "address",
                _ => "capacity",
            },
            _ => "capacity",
        },
    }
}

/// What ends the state in which a card may be at `done`.
fn end_words(state: State) -> &'static str {
    match state {
        State::Data | State::Rcv => "; CMD12 ends a transfer",
        State::Prg => "; a wait ends the busy time",
        _ => "",
    }
}

/// Adds why the statement of a point is refused beside a card, on a part of a line that names the statement.
pub fn put_reason(
    text: &mut Text,
    graph: &Graph<'_>,
    number: usize,
    why: Why,
    beside: Beside<'_>,
) -> Result<(), AllocError>
    requires { number < length graph.now.points }
{
    let (action, names) = (&graph.point(number).action, graph.names());
    match front_of(why, action, beside.shape) {
        Front::Nothing => put_why(text, why, action, beside, names),
        Front::Statement => {
            put_statement(text, action, names)?;
            put(text, ": ")?;
            put_why(text, why, action, beside, names)
        }
        Front::Unit(unit) => {
            put_statement(text, action, names)?;
            put(text, unit_rule(unit))
        }
    }
}

/// What stands before the words of a reason, so that the statement is named once.
enum Front {
    /// Nothing: the reason names it.
    Nothing,
    /// The statement.
    Statement,
    /// The statement, in place of its address, of which the unit does not fit.
    Unit(Unit),
}

fn front_of(why: Why, action: &Action<'_>, shape: Shape) -> Front {
    match (why, action) {
        (Why::Illegal(Some(illegality)), _)
            if illegality.after_step.is_none() && matches!(illegality.reason, Reason::State(_)) =>
            Front::Nothing,
        (Why::Address, Action::Send(command, _, _)) => match &command.address {
            Some(address) if !fits_unit(address.unit, shape) => Front::Unit(address.unit),
            _ => Front::Statement,
        },
        _ => Front::Statement,
    }
}

/// Adds why a statement is refused at a shape.
fn put_why(
    text: &mut Text,
    why: Why,
    action: &Action<'_>,
    beside: Beside<'_>,
    names: &Names<'_>,
) -> Result<(), AllocError> {
    match why {
        Why::Illegal(Some(illegality)) => put_illegality(text, illegality, action, names),
        Why::Illegal(None) => Ok(()),
        Why::Address => put_misfit(text, action, beside, names),
        Why::EndState => put_all(
            text,
            &[
                "at done the card has to be in the transfer state",
                end_words(beside.shape.state()),
            ],
        ),
    }
}

/// Adds the line that `certify` answers to a refusal of a point.
fn put_fault(text: &mut Text, why: Why, number: usize, shape: Shape) -> Result<(), AllocError> {
    let fault = match why {
        Why::Illegal(_) => "Illegal",
        Why::Address => "Address",
        Why::EndState => "EndState",
    };
    put_all(text, &["refused ", fault])?;
    put_with_number(text, " point ", number as u64)?;
    if matches!(why, Why::Illegal(_)) {
        let mut digits = [0; 16];
        hex::encode_to_slice(shape.0.to_be_bytes(), &mut digits).unwrap();
        put(text, " shape ")?;
        text.extend_from_slice(&digits)?;
    }
    put(text, "\n")
}

/// Adds that the statement of a point is refused beside a card, and why.
pub fn put_refused(
    text: &mut Text,
    graph: &Graph<'_>,
    number: usize,
    why: Why,
    beside: Beside<'_>,
) -> Result<(), AllocError>
    requires { number < length graph.now.points }
{
    let (action, names) = (&graph.point(number).action, graph.names());
    put_fault(text, why, number, beside.shape)?;
    put_place(text, graph, number)?;
    put(text, ", if the card is\n    ")?;
    put_shape(text, beside.shape, &names.flags)?;
    put(text, "\nwhy: ")?;
    put_why(text, why, action, beside, names)?;
    put(text, "\n")
}

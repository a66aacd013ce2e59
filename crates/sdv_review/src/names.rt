//! Names that no statement reads.

ghost use Rattle.std.specs.Prelude.{◌≡◌, ◌++◌, OnOk};
ghost use Rattle.sdv_graph.specs.Graph.{seen_action};
ghost use Rattle.sdv_review.specs.Findings.{name_findings};
ghost use Rattle.sdv_review.specs.Names.{address_reads, atom_reads, condition_reads, first_setting, is_flag, is_number, is_read, position_reads, reads, sets, unit_reads};

use crate::finding::{Finding, Matter, Name};
use sdv_graph::{Action, Address, Atom, Condition, Graph, Position, Unit};
use std::alloc::AllocError;

/// The name is that of the number variable.
fn is_number(name: Name, variable: usize) -> bool
    ensures { result ≡ is_number name variable }
{
    match name {
        Name::Number(place) => variable == place,
        Name::Flag(_) => false,
    }
}

/// The name is that of the flag.
fn is_flag(name: Name, flag: usize) -> bool
    ensures { result ≡ is_flag name flag }
{
    match name {
        Name::Number(_) => false,
        Name::Flag(place) => flag == place,
    }
}

fn unit_reads(name: Name, unit: Unit) -> bool
    ensures { result ≡ unit_reads name unit }
{
    match unit {
        Unit::By(flag) => is_flag(name, flag),
        Unit::Block | Unit::Byte => false,
    }
}

fn position_reads(name: Name, position: Position) -> bool
    ensures { result ≡ position_reads name position }
{
    match position {
        Position::Variable(variable, _) => is_number(name, variable),
        Position::Number(_) => false,
    }
}

pub fn address_reads(name: Name, address: &Option<Address>) -> bool
    ensures { result ≡ address_reads name address.now }
{
    match address {
        Some(address) => {
            unit_reads(name, address.unit) || position_reads(name, address.position)
        }
        None => false,
    }
}

fn atom_reads(name: Name, atom: Atom) -> bool
    ensures { result ≡ atom_reads name atom }
{
    match atom {
        Atom::Variable(variable) => is_number(name, variable),
        _ => false,
    }
}

fn condition_reads(name: Name, condition: Condition) -> bool
    ensures { result ≡ condition_reads name condition }
{
    match condition {
        Condition::Flag(flag) => is_flag(name, flag),
        Condition::AtLeast(variable, _) | Condition::Below(variable, _) => {
            is_number(name, variable)
        }
    }
}

/// The statement reads the name.
fn reads(name: Name, action: &Action<'_>) -> bool
    ensures { result ≡ reads name (seen_action action.now) }
{
    match action {
        Action::Send(command, _, _) => address_reads(name, &command.address),
        Action::Let(set, _) => atom_reads(name, set.atom),
        Action::If(condition, _, _) => condition_reads(name, *condition),
        _ => false,
    }
}

/// The statement sets the name.
fn sets(name: Name, action: &Action<'_>) -> bool
    ensures { result ≡ sets name (seen_action action.now) }
{
    match action {
        Action::Let(set, _) => is_number(name, set.target),
        Action::Flag(flag, _, _) => is_flag(name, *flag),
        _ => false,
    }
}

/// A statement of the script reads the name.
fn is_read(name: Name, graph: &Graph<'_>) -> bool
    ensures { result ≡ is_read name graph.now.points }
{
    for number in 0..graph.len() {
        if reads(name, &graph.point(number).action) {
            return true;
        }
    }
    false
}

/// The first statement that sets the name.
fn first_setting(name: Name, graph: &Graph<'_>) -> Option<usize>
    ensures { result ≡ first_setting name graph.now.points }
{
    for number in 0..graph.len() {
        if sets(name, &graph.point(number).action) {
            return Some(number);
        }
    }
    None
}

/// Adds what is found of a name.
pub fn put_name(found: &mut Vec<Finding>, name: Name, graph: &Graph<'_>) -> Result<(), AllocError>
    ensures { OnOk result (found.new.items ≡ found.old.items ++ name_findings name graph.now.points) }
{
    if is_read(name, graph) {
        return Ok(());
    }
    found.push(Finding {
        point: first_setting(name, graph),
        matter: Matter::Unread(name),
    })?;
    Ok(())
}

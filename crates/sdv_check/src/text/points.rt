//! The lines of the points.

ghost use Rattle.std.specs.Prelude.{◌≡◌, ◌<◌, ◌≤◌, List, All, length, IsOk, IfOk};
ghost use Rattle.sdv_facts.specs.Facts.{AreRising};
ghost use Rattle.sdv_facts.specs.CertificateText.{max_points, max_shapes};
ghost use Rattle.sdv_facts.specs.Shared.{point_in, points_in, sets_of, IsNamed};
ghost use Rattle.sdv_facts.specs.SharedSets.{members, Interned};
ghost use Rattle.sdv_check.specs.Reading.{Gives, begins_number, begins_var, begins_shape, read_turns, read_vars, read_rising, read_shapes, read_place, read_boot, read_numbers, read_bound, read_point, read_points, is_above};

use crate::text::cursor::{TextCursor, ends_item, expect, line_end};
use crate::text::fault::CertFault;
use crate::text::items::{number, shape, variable};
use arrayvec::ArrayVec;
use sdv_card::Shape;
use sdv_facts::{Facts, MAX_SHAPES, Numbers, PointFacts, SetTable, VarFacts, Version, words};
use std::alloc::Global;

fn begins_number(at: &TextCursor<'_>) -> bool
    ensures { result ≡ begins_number at.now.rest.now }
{
    match at.rest {
        [b' ', byte, ..] => matches!(*byte, b'0'..=b'9'),
        _ => false,
    }
}

// The coefficients of the loops round a point.
fn turns(at: &mut TextCursor<'_>) -> Result<ArrayVec<u64, 4>, CertFault>
    ensures { Gives (λ x. (x.items, at.new.rest.now)) result (read_turns at.old.rest.now) }
{
    let mut turns = ArrayVec::new();
    while begins_number(at) {
        let turn = number(at)?;
        if turns.is_full() {
            return Err(CertFault::Limit);
        }
        turns.push(turn);
    }
    Ok(turns)
}

fn begins_variable(at: &TextCursor<'_>) -> bool
    ensures { result ≡ begins_var at.now.rest.now }
{
    match at.rest.strip_prefix(words::VARIABLE) {
        Some(rest) => ends_item(rest),
        None => false,
    }
}

// What is said of the number variables.
fn variables(version: Version, at: &mut TextCursor<'_>) -> Result<ArrayVec<VarFacts, 8>, CertFault>
    ensures { Gives (λ x. (x.items, at.new.rest.now)) result (read_vars version at.old.rest.now) }
{
    let mut vars = ArrayVec::new();
    while begins_variable(at) {
        if vars.is_full() {
            return Err(CertFault::Limit);
        }
        let known = variable(version, at)?;
        vars.push(known);
    }
    Ok(vars)
}

fn begins_shape(at: &TextCursor<'_>) -> bool
    ensures { result ≡ begins_shape at.now.rest.now }
{
    matches!(at.rest, [b' ', ..])
}

fn is_above(last: Option<Shape>, shape: Shape) -> bool
    ensures { result ≡ is_above last shape }
{
    match last {
        Some(last) => last.0 < shape.0,
        None => true,
    }
}

// A shape above the one before.
#[tactic(auto, unfolding(crate::specs::Reading::read_rising))]
fn next_shape(last: Option<Shape>, at: &mut TextCursor<'_>) -> Result<Shape, CertFault>
    ensures { Gives (λ x. (x, at.new.rest.now)) result (read_rising last at.old.rest.now) }
{
    let shape = shape(at)?;
    if !is_above(last, shape) {
        return Err(CertFault::Order { line: at.line });
    }
    Ok(shape)
}

// At most so many shapes in the place of those that were there.
fn shapes(shapes: &mut Vec<Shape>, room: usize, at: &mut TextCursor<'_>) -> Result<(), CertFault>
    ensures read { Gives (λ _. (shapes.new.items, at.new.rest.now)) result (read_shapes room at.old.rest.now) }
    ensures rising { IsOk result → AreRising shapes.new.items }
    ensures few { IsOk result → length shapes.new.items ≤ room }
{
    shapes.clear();
    let mut last = None;
    while begins_shape(at) {
        let shape = next_shape(last, at)?;
        if shapes.len() >= room {
            return Err(CertFault::Limit);
        }
        shapes.push(shape)?;
        last = Some(shape);
    }
    Ok(())
}

// The place of a point.
#[tactic(auto, unfolding(crate::specs::Reading::read_place))]
fn placed(at: &mut TextCursor<'_>, place: u64) -> Result<(), CertFault>
    ensures { Gives (λ _. at.new.rest.now) result (read_place place at.old.rest.now) }
{
    match number(at) {
        Ok(number) if number == place => Ok(()),
        Ok(_) | Err(CertFault::Limit) => Err(CertFault::Syntax { line: at.line }),
        Err(fault) => Err(fault),
    }
}

// The least capacity of a boot partition. Version 1 says nothing of that.
fn boot(version: Version, at: &mut TextCursor<'_>) -> Result<u64, CertFault>
    ensures { Gives (λ x. (x, at.new.rest.now)) result (read_boot version at.old.rest.now) }
{
    match version {
        Version::One => Ok(0),
        Version::Two => {
            expect(at, words::BOOT_CAPACITY)?;
            number(at)
        }
    }
}

// What is known of numbers.
#[tactic(auto, unfolding(crate::specs::Reading::read_numbers))]
fn numbers(version: Version, at: &mut TextCursor<'_>) -> Result<Numbers, CertFault>
    ensures { Gives (λ x. (x, at.new.rest.now)) result (read_numbers version at.old.rest.now) }
{
    expect(at, words::CAPACITY)?;
    let m = number(at)?;
    let mb = boot(version, at)?;
    let vars = variables(version, at)?;
    Ok(Numbers { m, mb, vars })
}

// The bound of a point.
#[tactic(auto, unfolding(crate::specs::Reading::read_bound))]
fn bound(at: &mut TextCursor<'_>, place: u64) -> Result<(u64, ArrayVec<u64, 4>), CertFault>
    ensures { Gives (λ x. ((x.0, x.1.items), at.new.rest.now)) result (read_bound place at.old.rest.now) }
{
    expect(at, words::POINT)?;
    placed(at, place)?;
    expect(at, words::BOUND)?;
    let base = number(at)?;
    let turns = turns(at)?;
    Ok((base, turns))
}

// The line of a point with at most so many shapes, whose set gets a name. The shapes are read into
// a list that may hold others.
#[tactic(auto, unfolding(crate::specs::Reading::read_point))]
fn point(
    table: &mut SetTable,
    list: &mut Vec<Shape>,
    version: Version,
    place: u64,
    room: usize,
    at: &mut TextCursor<'_>,
) -> Result<PointFacts, CertFault>
    requires few { length table.old < max_points }
    ensures read { Gives (λ x. (point_in table.new x, at.new.rest.now)) result
        (read_point version place room at.old.rest.now) }
    ensures interned { IfOk result (λ x. Interned table.old list.new.items table.new x.facts.set) }
    ensures shapes { IfOk result (λ x. members table.new x.facts.set ≡ list.new.items) }
    ensures few { IsOk result → length list.new.items ≤ room }
{
    let (base, turns) = bound(at, place)?;
    let numbers = numbers(version, at)?;
    expect(at, words::SHAPES)?;
    shapes(list, room, at)?;
    line_end(at)?;
    let set = table.intern(list.as_slice())?;
    let facts = Facts::new(set, numbers);
    Ok(PointFacts { facts, base, turns })
}

/// A table of sets, and points that name sets of it.
pub type NamedPoints = (SetTable, Vec<PointFacts>);

/// The lines of so many points.
pub fn points(
    alloc: Global,
    version: Version,
    count: u64,
    at: &mut TextCursor<'_>,
) -> Result<NamedPoints, CertFault>
    requires few { count ≤ max_points }
    ensures read { Gives (λ x. (points_in x.0 x.1.items, at.new.rest.now)) result
        (read_points version count 0 max_shapes at.old.rest.now) }
    ensures named { IfOk result (λ x. All (IsNamed x.0) x.1.items) }
    ensures table { IfOk result (λ x. x.0 ≡ sets_of (points_in x.0 x.1.items)) }
{
    let mut table = SetTable::new(alloc);
    let mut points = Vec::new(alloc);
    let mut list = Vec::new(alloc);
    let mut room = MAX_SHAPES;
    for place in 0..count {
        let point = point(&mut table, &mut list, version, place, room, at)?;
        room -= list.len();
        points.push(point)?;
    }
    Ok((table, points))
}

//! The shapes of a card in any state.

ghost use Rattle.std.specs.Prelude.{◌≡◌, ◌++◌, IfOk, OnOk, filter, map};
ghost use Rattle.sdv_audit.specs.AnyShape.{all_fields, any_shapes, is_shape_at, matched_code, spread, with_field};

use sdv_card::state_table::is_shape;
use sdv_card::{Shape, Width};
use sdv_registers::Kind;
use std::alloc::{AllocError, Global};

/// The numbers of all states in a shape.
const STATES: [u64; 9] = [0, 1, 2, 3, 4, 5, 6, 7, 8];

/// Those of all transfers.
const TRANSFERS: [u64; 12] = [0, 16, 32, 48, 64, 80, 96, 112, 128, 144, 160, 176];

/// Those of all erase stages.
const ERASE_STAGES: [u64; 3] = [0, 256, 512];

/// Those of byte and of block addresses.
const BLOCK_UNITS: [u64; 2] = [0, 1024];

/// Those of another block length than 512, and of 512.
const LENGTHS: [u64; 2] = [0, 2048];

/// Those of a clear and of a set application flag.
const APPLICATION_FLAGS: [u64; 2] = [0, 4096];

/// Those of the card's data lines.
const WIDTHS: [u64; 3] = [0, 1_048_576, 2_097_152];

/// Those of the partition in access.
const PARTITIONS: [u64; 3] = [0, 16_777_216, 33_554_432];

/// Those of no pending switch error, and of one.
const ERRORS: [u64; 2] = [0, 67_108_864];

/// The shape of a host with these data lines whose relative address the card has, or which has none yet.
fn matched(lines: Width) -> Shape
    ensures { result ≡ matched_code lines }
{
    Shape(8192 + 4_194_304 * u64::from(lines.number()))
}

/// The shape with the number of one more of its fields.
fn with_number(shape: Shape, number: u64) -> Shape
    ensures { result ≡ with_field shape number }
{
    Shape(shape.0.saturating_add(number))
}

/// Adds the shape with each of these numbers.
fn add_each(all: &mut Vec<Shape>, shape: Shape, numbers: &[u64]) -> Result<(), AllocError>
    ensures { OnOk result (all.new.items ≡ all.old.items ++ map (with_field shape) numbers.now) }
{
    for number in numbers {
        all.push(with_number(shape, *number))?;
    }
    Ok(())
}

/// Each shape with each of these numbers.
fn spread(alloc: Global, numbers: &[u64], shapes: &[Shape]) -> Result<Vec<Shape>, AllocError>
    ensures { IfOk result (λ all. all.items ≡ spread numbers.now shapes.now) }
{
    let mut all = Vec::new(alloc);
    for shape in shapes {
        add_each(&mut all, *shape, numbers)?;
    }
    Ok(all)
}

/// Each combination of fields.
fn all_fields(alloc: Global, lines: Width) -> Result<Vec<Shape>, AllocError>
    ensures { IfOk result (λ all. all.items ≡ all_fields lines) }
{
    let states = spread(alloc, &STATES, &[matched(lines)])?;
    let transfers = spread(alloc, &TRANSFERS, states.as_slice())?;
    let stages = spread(alloc, &ERASE_STAGES, transfers.as_slice())?;
    let units = spread(alloc, &BLOCK_UNITS, stages.as_slice())?;
    let lengths = spread(alloc, &LENGTHS, units.as_slice())?;
    let flags = spread(alloc, &APPLICATION_FLAGS, lengths.as_slice())?;
    let widths = spread(alloc, &WIDTHS, flags.as_slice())?;
    let partitions = spread(alloc, &PARTITIONS, widths.as_slice())?;
    let all = spread(alloc, &ERRORS, partitions.as_slice())?;
    Ok(all)
}

fn is_shape_at(kind: Kind, shape: Shape) -> bool
    ensures { result ≡ is_shape_at kind shape }
{
    match shape.decode() {
        Some(fields) => is_shape(kind, &fields),
        None => false,
    }
}

/// Those that are shapes of the kind.
fn only_shapes(alloc: Global, kind: Kind, shapes: &[Shape]) -> Result<Vec<Shape>, AllocError>
    ensures { IfOk result (λ all. all.items ≡ filter (is_shape_at kind) shapes.now) }
{
    let mut all = Vec::new(alloc);
    for shape in shapes {
        if is_shape_at(kind, *shape) {
            all.push(*shape)?;
        }
    }
    Ok(all)
}

/// The shapes of a card in any state that has the address of a host with these data lines, or none yet.
///
/// # Errors
///
/// Where memory runs out.
pub fn any_shapes(alloc: Global, kind: Kind, lines: Width) -> Result<Vec<Shape>, AllocError>
    ensures { IfOk result (λ all. all.items ≡ any_shapes kind lines) }
{
    let all = all_fields(alloc, lines)?;
    let shapes = only_shapes(alloc, kind, all.as_slice())?;
    Ok(shapes)
}

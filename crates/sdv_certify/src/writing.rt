//! Writing a certificate.

ghost use Rattle.std.specs.Prelude.{◌≡◌, List, ◌<◌, ◌≤◌, ◌+◌, ◌++◌, [], ◌∷◌, length, OnOk, OnErr};
ghost use Rattle.arrayvec.specs.ArrayVec.{array_vec_len};
ghost use Rattle.sdv_card.specs.declared.shape.Shape.{Shape};
ghost use Rattle.sdv_facts.specs.CertificateText.{version_written, text_of};
ghost use Rattle.sdv_facts.specs.Shared.{point_in, IsNamed};
ghost use Rattle.sdv_text.specs.Written.{AppendsPart, Writes};
ghost use Rattle.sdv_certify.specs.Pieces.{number_text, gap_text, boot_gap_text, boot_text, var_text, shape_text, bound_text, numbers_text, line_text, title_text, PassesOn};

use arrayvec::ArrayVec;
use itoa::Buffer;
use sdv_card::Shape;
use sdv_facts::{Certificate, PointFacts, SetTable, VarFacts, Version, words};
use sdv_text::write_text;
use std::io::{Error, Write};

/// What of a line is not written yet: room for its front, of the words, four loops, the capacities and eight variables with
/// numbers of 20 digits, and for the shapes of most points.
type LineBytes = ArrayVec<u8, 1024>;

fn push(line: &mut LineBytes, bytes: &[u8])
    requires { array_vec_len line.old + length bytes.now ≤ 1024 }
    ensures items { line.new.items ≡ line.old.items ++ bytes.now }
    ensures len { array_vec_len line.new ≡ array_vec_len line.old + length bytes.now }
{
    line.try_extend_from_slice(bytes).unwrap();
}

fn push_number(line: &mut LineBytes, number: u64)
    requires { array_vec_len line.old + 21 ≤ 1024 }
    ensures items { line.new.items ≡ line.old.items ++ number_text number }
    ensures len { array_vec_len line.new ≤ array_vec_len line.old + 21 }
{
    let mut buffer = Buffer::new();
    push(line, b" ");
    push(line, buffer.format(number).as_bytes());
}

fn push_gap(line: &mut LineBytes, gap: Option<u64>)
    requires { array_vec_len line.old + 21 ≤ 1024 }
    ensures items { line.new.items ≡ line.old.items ++ gap_text gap }
    ensures len { array_vec_len line.new ≤ array_vec_len line.old + 21 }
{
    match gap {
        Some(gap) => push_number(line, gap),
        None => push(line, words::NO_GAP),
    }
}

// What version 2 says of a variable and boot partitions.
fn push_boot_gap(line: &mut LineBytes, version: Version, gap: Option<u64>)
    requires { array_vec_len line.old + 21 ≤ 1024 }
    ensures items { line.new.items ≡ line.old.items ++ boot_gap_text version gap }
    ensures len { array_vec_len line.new ≤ array_vec_len line.old + 21 }
{
    match version {
        Version::One => {}
        Version::Two => push_gap(line, gap),
    }
}

// What version 2 says of the capacity of boot partitions.
fn push_boot(line: &mut LineBytes, version: Version, least: u64)
    requires { array_vec_len line.old + 24 ≤ 1024 }
    ensures items { line.new.items ≡ line.old.items ++ boot_text version least }
    ensures len { array_vec_len line.new ≤ array_vec_len line.old + 24 }
{
    match version {
        Version::One => {}
        Version::Two => {
            push(line, words::BOOT_CAPACITY);
            push_number(line, least);
        }
    }
}

fn push_variable(line: &mut LineBytes, version: Version, known: &VarFacts)
    requires { array_vec_len line.old + 86 ≤ 1024 }
    ensures items { line.new.items ≡ line.old.items ++ var_text version known.now }
    ensures len { array_vec_len line.new ≤ array_vec_len line.old + 86 }
{
    push(line, words::VARIABLE);
    push_number(line, known.lo);
    push_number(line, known.hi);
    push_gap(line, known.gap);
    push_boot_gap(line, version, known.bgap);
}

// A point's place and bound.
fn push_bound(line: &mut LineBytes, place: u64, point: &PointFacts)
    requires { array_vec_len line.old + 200 ≤ 1024 }
    ensures items { (sets : List (List Shape)) → line.new.items
        ≡ line.old.items ++ bound_text place (point_in sets point.now) }
    ensures len { array_vec_len line.new ≤ array_vec_len line.old + 200 }
{
    push(line, words::POINT);
    push_number(line, place);
    push(line, words::BOUND);
    push_number(line, point.base);
    let turns = point.turns.as_slice();
    for turn in turns {
        push_number(line, *turn);
    }
}

// What is known of numbers at a point.
fn push_numbers(line: &mut LineBytes, version: Version, point: &PointFacts)
    requires { array_vec_len line.old + 740 ≤ 1024 }
    ensures items { (sets : List (List Shape)) → line.new.items
        ≡ line.old.items ++ numbers_text version (point_in sets point.now) }
    ensures len { array_vec_len line.new ≤ array_vec_len line.old + 740 }
{
    let numbers = point.facts.numbers();
    push(line, words::CAPACITY);
    push_number(line, numbers.m);
    push_boot(line, version, numbers.mb);
    let vars = numbers.vars.as_slice();
    for known in vars {
        push_variable(line, version, known);
    }
    push(line, words::SHAPES);
}

fn push_shape(line: &mut LineBytes, shape: Shape)
    requires { array_vec_len line.old + 17 ≤ 1024 }
    ensures items { line.new.items ≡ line.old.items ++ shape_text shape }
    ensures len { array_vec_len line.new ≡ array_vec_len line.old + 17 }
{
    let mut item = [b' '; 17];
    hex::encode_to_slice(shape.0.to_be_bytes(), &mut item[1..]).unwrap();
    push(line, &item);
}

// Writes what there is of a line, unless there is room for a shape and the line's end.
#[tactic(auto, using(crate::proofs::Written::none_passed, crate::proofs::Written::all_passed, crate::proofs::Written::part_passed))]
fn make_room<W: Write>(out: &mut W, line: &mut LineBytes) -> Result<(), Error>
    ensures passed { OnOk result (PassesOn (W.contents out.old) (W.contents out.new) line.old.items line.new.items) }
    ensures room { OnOk result (array_vec_len line.new + 18 ≤ 1024) }
    ensures failed { OnErr result (AppendsPart (W.contents out.old) (W.contents out.new) line.old.items) }
{
    if line.len() + 18 <= 1024 {
        return Ok(());
    }
    write_text(out, line.as_slice())?;
    line.clear();
    Ok(())
}

// The line of a point that names a set of the table, in one write unless it is long.
fn put_line<W: Write>(
    out: &mut W,
    version: Version,
    table: &SetTable,
    place: u64,
    point: &PointFacts,
) -> Result<(), Error>
    requires { IsNamed table.now point.now }
    ensures { Writes (W.contents out.old) (W.contents out.new) result
        (line_text version place (point_in table.now point.now)) }
{
    let mut line = LineBytes::new();
    push_bound(&mut line, place, point);
    push_numbers(&mut line, version, point);
    let shapes = table.members(point.facts.set());
    for shape in shapes {
        make_room(out, &mut line)?;
        push_shape(&mut line, *shape);
    }
    push(&mut line, b"\n");
    write_text(out, line.as_slice())
}

fn push_version(line: &mut LineBytes, version: Version)
    requires { array_vec_len line.old + 11 ≤ 1024 }
    ensures items { line.new.items ≡ line.old.items ++ version_written version }
    ensures len { array_vec_len line.new ≡ array_vec_len line.old + 11 }
{
    match version {
        Version::One => push(line, words::VERSION_1),
        Version::Two => push(line, words::VERSION_2),
    }
}

// The first two lines.
fn put_title<W: Write>(out: &mut W, version: Version, count: u64) -> Result<(), Error>
    ensures { Writes (W.contents out.old) (W.contents out.new) result (title_text version count) }
{
    let mut line = LineBytes::new();
    push_version(&mut line, version);
    push(&mut line, words::POINTS);
    push_number(&mut line, count);
    push(&mut line, b"\n");
    write_text(out, line.as_slice())
}

/// Writes the text of a certificate.
///
/// # Errors
///
/// The writer's error, or [`ErrorKind::WriteZero`](std::io::ErrorKind::WriteZero) where it takes no byte. Then a part of
/// the text is written, and not all of it.
pub fn write<W: Write>(certificate: &Certificate, out: &mut W) -> Result<(), Error>
    ensures { Writes (W.contents out.old) (W.contents out.new) result (text_of certificate.now) }
{
    let version = certificate.version();
    let (table, points) = certificate.shown();
    put_title(out, version, points.len() as u64)?;
    for (place, point) in points.iter().enumerate() {
        put_line(out, version, table, place as u64, point)?;
    }
    Ok(())
}

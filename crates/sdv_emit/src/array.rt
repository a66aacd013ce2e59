//! The text of a table in C, and its bytes.

ghost use Rattle.std.specs.Prelude.{◌≡◌, ◌++◌, ◌+◌, ◌≤◌, IfOk, OnOk, Some, length, true};
ghost use Rattle.sdv_table.specs.Table.{header_size};
ghost use Rattle.sdv_emit.specs.Identifier.{is_identifier};
ghost use Rattle.sdv_emit.specs.Reading.{words_in, words_of_bytes};
ghost use Rattle.sdv_emit.specs.CText.{array_text, c_text, count_text, declaration, little_endian, rows_text, title, top};

use crate::points::put_points;
use crate::text::put_comment;
use crate::words::put_words;
use sdv_graph::Graph;
use sdv_table::format::HEADER_SIZE;
use sdv_telling::{Text, put, put_all, put_with_number};
use std::alloc::{AllocError, Global};

/// What the array of a table is called, and where it comes from.
#[derive(Clone, Copy)]
pub struct Labels<'a> {
    /// The script's file.
    pub file: &'a str,
    /// The array's name in C.
    pub name: &'a str,
}

/// What is said of each run of the script.
const PROMISE: &str = "
/* In each run beside a card of the script's kind and of the profile in Guzveldra's docs/CARDS.md, just powered
 * on, at most that many commands are sent, each of them legal in the card's state, with addresses on the card.
 * The run ends: in `done` with the card in the transfer state, in a fault that the script names, or in the fault
 * `number`.
 *
 * This is proved for the script, and the table is proved to be the script's. The premises: a player steps through
 * the table as docs/TABLES.md says, and its driver does what firmware/README.md asks. No player in C is proved. */
";

const SCRIPT: &str = "Table of the script ";

const BOUND: &str = ", certified to send at most ";

const COMMANDS: &str = " commands a run.";

/// What stands before the array's name.
const INCLUDES: &str = "#include <stddef.h>\n#include <stdint.h>\n\nconst uint32_t ";

/// What begins the array. The header ends in the two words of the number of commands.
const ARRAY_START: &str =
    "[] = {\n    /* header; a player sends no more commands than its last two words say */";

const ROWS: &str = "\n    /* rows */";

const ARRAY_END: &str = "\n};\n";

// the pieces of `const size_t NAME_words = sizeof NAME / sizeof NAME[0];`
const COUNT: &str = "\nconst size_t ";

const COUNT_IS: &str = "_words = sizeof ";

const DIVIDED_BY: &str = " / sizeof ";

const FIRST_WORD: &str = "[0];\n";

/// Which script the table is of, and what its certificate says.
fn title(alloc: Global, file: &str, bound: u64) -> Result<Text, AllocError>
    ensures { IfOk result (λ words. words.items ≡ title file.now bound) }
{
    let mut words = Vec::new(alloc);
    put_all(&mut words, &[SCRIPT, file])?;
    put_with_number(&mut words, BOUND, bound)?;
    put(&mut words, COMMANDS)?;
    Ok(words)
}

/// Begins the text, up to the array's name.
fn put_top(alloc: Global, text: &mut Text, file: &str, bound: u64) -> Result<(), AllocError>
    ensures { OnOk result (text.new.items ≡ text.old.items ++ top file.now bound) }
{
    let title = title(alloc, file, bound)?;
    put_comment(text, title.as_slice())?;
    put(text, PROMISE)
}

fn put_declaration(text: &mut Text, name: &str) -> Result<(), AllocError>
    ensures { OnOk result (text.new.items ≡ text.old.items ++ declaration name.now) }
{
    put_all(text, &[INCLUDES, name, ARRAY_START])
}

/// Adds the rows, and the end of the array.
fn put_rows(text: &mut Text, rows: &[u32]) -> Result<(), AllocError>
    ensures { OnOk result (text.new.items ≡ text.old.items ++ rows_text rows.now) }
{
    put(text, ROWS)?;
    put_words(text, rows)?;
    put(text, ARRAY_END)
}

/// Adds the words of the array, and its end.
fn put_array(
    alloc: Global,
    text: &mut Text,
    graph: &Graph<'_>,
    words: &[u32],
) -> Result<(), AllocError>
    requires heads { header_size + length graph.now.points ≤ length words.now }
    ensures { OnOk result (text.new.items ≡ text.old.items ++ array_text graph.now words.now) }
{
    put_words(text, &words[..HEADER_SIZE])?;
    put_points(alloc, text, graph, words)?;
    put_rows(text, &words[HEADER_SIZE + graph.len()..])
}

/// Adds the number of the array's words.
fn put_count(text: &mut Text, name: &str) -> Result<(), AllocError>
    ensures { OnOk result (text.new.items ≡ text.old.items ++ count_text name.now) }
{
    put_all(
        text,
        &[COUNT, name, COUNT_IS, name, DIVIDED_BY, name, FIRST_WORD],
    )
}

/// The text in C of the table of a graph, whose words are these.
pub fn c_text(
    alloc: Global,
    labels: &Labels<'_>,
    bound: u64,
    graph: &Graph<'_>,
    words: &[u32],
) -> Result<Text, AllocError>
    requires heads { header_size + length graph.now.points ≤ length words.now }
    ensures text { IfOk result (λ text.
        text.items ≡ c_text labels.now.file.now labels.now.name.now bound graph.now words.now) }
    ensures read { IfOk result (λ text.
        is_identifier labels.now.name.now ≡ true → words_in text.items ≡ Some words.now) }
{
    let mut text = Vec::new(alloc);
    put_top(alloc, &mut text, labels.file, bound)?;
    put_declaration(&mut text, labels.name)?;
    put_array(alloc, &mut text, graph, words)?;
    put_count(&mut text, labels.name)?;
    Ok(text)
}

/// The bytes of words, the lowest byte of each first.
pub fn little_endian(alloc: Global, words: &[u32]) -> Result<Vec<u8>, AllocError>
    ensures bytes { IfOk result (λ bytes. bytes.items ≡ little_endian words.now) }
    ensures read { IfOk result (λ bytes. words_of_bytes bytes.items ≡ words.now) }
{
    let mut bytes = Vec::new(alloc);
    for word in words {
        bytes.extend_from_slice(&word.to_le_bytes())?;
    }
    Ok(bytes)
}

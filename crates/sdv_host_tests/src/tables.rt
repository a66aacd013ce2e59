//! Words that are no table of a script.

use crate::common::same;
use sdv_table::{NoTable, is_table};

// The table of the smallest script: a header, two head words, the row of `send 0` and the name `stop`.
static SMALLEST_WORDS: [u32; 14] = [
    0x5456_4453,
    0x0000_0002,
    0x000e_0002,
    0x0000_0000,
    0x0000_0002,
    0x0000_0000,
    0x0000_0001,
    0x0000_0002,
    0x000a_0400,
    0x000d_0049,
    0x0000_0001,
    0x0000_0000,
    0x0000_0000,
    0x706f_7473,
];

// Words of that table that are changed, and what is then wrong.
static CHANGED: [(usize, u32, NoTable); 9] = [
    (0, 0x5456_4454, NoTable::Magic),
    (1, 0x0000_0001, NoTable::Version),
    (1, 0x0000_0202, NoTable::Counts),
    (1, 0x0009_0002, NoTable::Counts),
    (2, 0x000f_0002, NoTable::Size),
    (3, 0x0000_0003, NoTable::First),
    (10, 0x0000_0003, NoTable::Row { point: 0 }),
    (12, 0x0001_0000, NoTable::Row { point: 0 }),
    (9, 0x000e_0049, NoTable::Row { point: 1 }),
];

#[test]
fn changed_words_are_no_table(rt: HostRuntime) {
    same(&rt, &is_table(&SMALLEST_WORDS), &Ok(()), &"smallest");
    for (place, word, fault) in &CHANGED {
        let mut words = SMALLEST_WORDS;
        words[*place] = *word;
        same(&rt, &is_table(&words), &Err(*fault), place);
    }
}

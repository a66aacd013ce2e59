//! Drivers.

ghost use Rattle.std.specs.Prelude.{◌≡◌, length};
ghost use Rattle.sdv_driver.specs.Driver.{IsDriver};
ghost use Rattle.sdv_driver.specs.Lines.{begun_count, driver_lines};
ghost use Rattle.sdv_driver.specs.Views.{entries_of, parsed_of};

use crate::tree::Entry;
use sdv_graph::Names;

/// A driver: its text, what it declares, its entries, and the lines on which its statements begin.
pub struct Driver<'a> {
    /// The text.
    pub(crate) text: &'a str,
    /// What it declares.
    pub(crate) names: Names<'a>,
    /// Its entries, of which the first one brings the card up.
    pub(crate) entries: Vec<Entry<'a>>,
    /// The line of each `if` before an entry's statements and of each statement's first token, in the order of these
    /// tokens.
    pub(crate) lines: Vec<u32>,
    ghost lines_same: { lines.items ≡ driver_lines (parsed_of text.now names entries.items) },
    ghost located: { length lines.items ≡ begun_count (entries_of entries.items) },
    pub ghost is_driver: { ∥ IsDriver (parsed_of text.now names entries.items) ∥₁ },
}

impl Drop for Driver<'_> {
    // A caller that drops a driver then reuses one proved `drop`.
    fn drop(self) {
        let Driver {
            text: _,
            names: _names,
            entries: _entries,
            lines: _lines,
        } = self;
    }
}

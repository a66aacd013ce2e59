//! The kind of card that a driver is for, and its entries.

ghost use Rattle.std.specs.Prelude.{◌≡◌, length};
ghost use Rattle.sdv_driver.specs.Driver.{IsDriver};
ghost use Rattle.sdv_driver.specs.Shown.{shown};
ghost use Rattle.sdv_driver.specs.Views.{entries_of};

use crate::driver::Driver;
use crate::tree::Entry;
use sdv_card::Kind;

impl<'a> Driver<'a> {
    /// The kind of card that the driver is for.
    pub fn kind(&self) -> Kind
        ensures { result ≡ (shown self.now).tree.names.kind }
    {
        self.names.kind
    }

    /// How many number variables the driver declares.
    pub fn numbers(&self) -> usize
        ensures { result ≡ length (shown self.now).tree.names.numbers }
    {
        self.names.numbers.len()
    }

    /// The entries of the driver, in their order.
    pub fn entries(&self) -> &[Entry<'a>]
        ensures entries { entries_of result.now ≡ (shown self.now).tree.entries }
        ensures driver { ∥ IsDriver (shown self.now) ∥₁ }
    {
        &self.entries
    }
}

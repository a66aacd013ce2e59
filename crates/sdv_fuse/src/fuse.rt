//! Which call fails.

ghost use Rattle.std.specs.Prelude.{◌≡◌, ◌↔◌, IsTrue};

/// A call that may fail.
#[derive(Clone, Copy, Debug, PartialEq, Eq)]
pub enum Call {
    Read,
    Write,
}

/// Which call fails: a read or a write, once.
#[derive(Clone, Copy, Debug)]
pub struct Fuse {
    /// Reads fail, or writes.
    pub call: Call,
    /// So many of them go well before the one that fails; none where it failed.
    pub good: Option<u64>,
}

impl Fuse {
    ghost use Rattle.sdv_fuse.specs.Fuses.{IsDue, after};

    /// A call begins: whether it is the one that fails.
    pub(crate) fn blows(&mut self, call: Call) -> bool
        ensures due { IsTrue result ↔ IsDue call self.old }
        ensures after { self.new ≡ after call self.old }
    {
        if self.call != call {
            return false;
        }
        match self.good {
            None => false,
            Some(0) => {
                self.good = None;
                true
            }
            Some(good) => {
                self.good = Some(good - 1);
                false
            }
        }
    }
}

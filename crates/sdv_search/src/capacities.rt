//! The capacities that a script tests, and those that its addresses need.

use sdv_graph::{Action, Atom, Change, Condition, Graph, Let, Position, ScriptCommand};
use std::alloc::{AllocError, Global};

/// A capacity that cards are tried with.
#[derive(Clone, Copy)]
pub(crate) struct Capacity {
    /// The blocks.
    pub blocks: u64,
    /// A card has at most so many: it is too small for an address. Otherwise it has at least so many, and passes a test.
    pub at_most: bool,
}

/// What a number variable counts.
#[derive(Clone, Copy, PartialEq, Eq)]
enum Counted {
    /// What the last CSD or EXT_CSD tells of the user area.
    User,
    /// What the last EXT_CSD tells of a boot partition.
    Boot,
    /// From a number.
    Number,
}

/// Where the value of a number variable comes from, by the last statement that sets it: what is counted, with what was
/// added and taken away.
#[derive(Clone, Copy)]
struct Origin {
    counted: Counted,
    plus: u64,
    minus: u64,
}

impl Origin {
    /// The count itself.
    fn of(counted: Counted) -> Origin {
        Origin {
            counted,
            plus: 0,
            minus: 0,
        }
    }

    /// The same, changed.
    fn changed(self, change: Change) -> Origin {
        match change {
            Change::Same => self,
            Change::Plus(more) => Origin {
                plus: self.plus.saturating_add(more),
                ..self
            },
            Change::Minus(less) => Origin {
                minus: self.minus.saturating_add(less),
                ..self
            },
        }
    }
}

/// The capacities that a script tests, and those that its addresses need.
#[derive(Drop)]
pub(crate) struct Capacities {
    /// Of the user area.
    pub user: Vec<Capacity>,
    /// Of a boot partition.
    pub boot: Vec<Capacity>,
    /// Where the value of each number variable comes from.
    origins: [Origin; 8],
    /// The script asks how many blocks a boot partition has.
    asks_boot: bool,
}

impl Capacities {
    /// Those of a script, in the order of its statements; its tests come before its addresses.
    pub(crate) fn of(alloc: Global, graph: &Graph<'_>) -> Result<Capacities, AllocError> {
        let mut found = Capacities {
            user: Vec::new(alloc),
            boot: Vec::new(alloc),
            origins: [Origin::of(Counted::Number); 8],
            asks_boot: false,
        };
        for number in 0..graph.len() {
            match &graph.point(number).action {
                Action::Let(setting, _) => found.set(setting),
                Action::If(Condition::AtLeast(variable, limit), _, _)
                | Action::If(Condition::Below(variable, limit), _, _) => {
                    found.add_test(*variable, *limit)?;
                }
                _ => {}
            }
        }
        for number in 0..graph.len() {
            if let Action::Send(command, _, _) = &graph.point(number).action {
                found.add_address(command)?;
            }
        }
        Ok(found)
    }

    /// Where the value of a number variable comes from.
    fn origin(&self, variable: usize) -> Origin {
        match self.origins.get(variable) {
            Some(origin) => *origin,
            None => Origin::of(Counted::Number),
        }
    }

    /// Takes in a statement that sets a number variable.
    fn set(&mut self, setting: &Let) {
        let origin = match setting.atom {
            Atom::Number(value) => Origin {
                plus: value,
                ..Origin::of(Counted::Number)
            },
            Atom::Variable(variable) => self.origin(variable),
            Atom::CsdBlocks | Atom::ExtBlocks => Origin::of(Counted::User),
            Atom::ExtBoot => {
                self.asks_boot = true;
                Origin::of(Counted::Boot)
            }
        };
        if let Some(place) = self.origins.get_mut(setting.target) {
            *place = origin.changed(setting.change);
        }
    }

    /// Adds the capacity that a test asks for.
    fn add_test(&mut self, variable: usize, limit: u64) -> Result<(), AllocError> {
        let origin = self.origin(variable);
        let counts = origin.counted != Counted::Number;
        let capacity = Capacity {
            blocks: if counts {
                limit
                    .saturating_add(origin.minus)
                    .saturating_sub(origin.plus)
            } else {
                limit
            },
            at_most: false,
        };
        if origin.counted == Counted::Boot {
            self.boot.push(capacity)?;
        } else {
            self.user.push(capacity)?;
        }
        Ok(())
    }

    /// Adds the greatest capacity that is too small for the blocks of a command.
    fn add_address(&mut self, command: &ScriptCommand) -> Result<(), AllocError> {
        let (Some(address), Some(count)) = (command.address, command.ask.addressed_blocks()) else {
            return Ok(());
        };
        let Some(position) = self.number_of(address.position) else {
            return Ok(());
        };
        let end = position.saturating_add(u64::from(count));
        let capacity = Capacity {
            blocks: end.saturating_sub(1),
            at_most: true,
        };
        self.user.push(capacity)?;
        if self.asks_boot {
            self.boot.push(capacity)?;
        }
        Ok(())
    }

    /// The block of a position, as far as it is known without a card.
    fn number_of(&self, position: Position) -> Option<u64> {
        match position {
            Position::Number(number) => Some(number),
            Position::Variable(variable, more) => {
                let origin = self.origin(variable);
                if origin.counted != Counted::Number {
                    return None;
                }
                let value = origin.plus.saturating_sub(origin.minus);
                Some(value.saturating_add(more.unwrap_or(0)))
            }
        }
    }
}

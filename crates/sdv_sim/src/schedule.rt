//! The schedule of a simulated card.

ghost use Rattle.std.specs.Prelude.{◌≡◌, Some, true, IfOk, map};
ghost use Rattle.sdv_behavior.specs.Schedules.{are_codes, behavior_of_code, first_behavior, later_behaviors};

use sdv_behavior::{Behavior, PROMPT};
use std::alloc::{AllocError, Global};
use std::marker::Model;

/// The behaviors of a simulated card, one for each event; after their end all are prompt.
#[derive(Drop)]
pub struct Schedule {
    behaviors: Vec<Behavior>,
    next: usize,
}

impl Model for Schedule {
    ghost use Rattle.std.specs.Prelude.{List, drop};
    ghost use Rattle.sdv_behavior.specs.declared.behavior.Behavior.{Behavior as Conduct};

    ghost Value = { List Conduct };

    ghost view = { λ s. drop s.next s.behaviors.items };
}

impl Schedule {
    /// The behaviors of values in their order.
    pub fn of_codes(alloc: Global, codes: &[u8]) -> Result<Schedule, AllocError>
        requires { are_codes codes.now ≡ true }
        ensures { IfOk result (λ schedule. map behavior_of_code codes.now ≡ map Some schedule) }
    {
        let mut behaviors = Vec::new(alloc);
        for code in codes {
            if let Some(behavior) = Behavior::of_code(*code) {
                behaviors.push(behavior)?;
            }
        }
        Ok(Schedule { behaviors, next: 0 })
    }

    /// The behavior at the next event.
    pub fn advance(&mut self) -> Behavior
        ensures first { result ≡ first_behavior self.old }
        ensures later { self.new ≡ later_behaviors self.old }
    {
        match self.behaviors.get(self.next) {
            Some(behavior) => {
                let behavior = *behavior;
                self.next += 1;
                behavior
            }
            None => PROMPT,
        }
    }
}

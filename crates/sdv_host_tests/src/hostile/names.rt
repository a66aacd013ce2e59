//! The names of how runs end, and how often each came.

use sdv_run::{End, RunFault};
use std::alloc::Global;
use std::process::Abort;

/// The name of a fault that a script ended in, or what else came of a run.
pub fn name_of_run(outcome: &Result<End, RunFault>) -> &str {
    match outcome {
        Ok(End::Done) => "done",
        Ok(End::Fault(name)) => name.as_str(),
        Err(RunFault::Reply) => "Reply",
        Err(RunFault::Input) => "Input",
        Err(RunFault::Output) => "Output",
        Err(RunFault::Trace) => "Trace",
        Err(RunFault::Memory) => "Memory",
    }
}

/// How often each name came, in the order in which they came first.
pub struct Counts {
    names: Vec<(String, usize)>,
    alloc: Global,
}

impl Drop for Counts {
    // A caller that drops counts then reuses one proved `drop`.
    fn drop(self) {
        let Counts {
            names: _names,
            alloc: _,
        } = self;
    }
}

impl Counts {
    pub fn new(alloc: Global) -> Counts {
        Counts {
            names: Vec::new(alloc),
            alloc,
        }
    }

    /// Counts a name once more.
    pub fn add(&mut self, rt: &impl Abort, name: &str) {
        for (known, times) in self.names.iter_mut() {
            if known.as_str() == name {
                *times = times.saturating_add(1);
                return;
            }
        }
        let owned = name.to_owned(self.alloc).expect(rt, "memory");
        self.names.push((owned, 1)).expect(rt, "memory");
    }

    /// Each name with its number.
    pub fn text(&self, rt: &impl Abort) -> String {
        let mut text = String::new(self.alloc);
        for (number, (name, times)) in self.names.iter().enumerate() {
            let before = if number == 0 { "" } else { ", " };
            write!(text, "{before}{name} {times}").expect(rt, "memory");
        }
        text
    }
}

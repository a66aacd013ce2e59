//! What a run does behind what is not allowed, if it goes on there.

use crate::refuting::{Refutation, blank_image, input_of};
use sdv_behavior::CardDesc;
use sdv_card::State;
use sdv_controller::Controller;
use sdv_graph::Graph;
use sdv_run::{RunFault, run_graph};
use sdv_sim::Sim;
use std::alloc::{AllocError, Global};
use std::io::{self, Error, ErrorKind, Write};

/// So many lines of the trace are kept behind what is not allowed.
const MOST_LINES: usize = 4;

/// What a run does behind what is not allowed. The card does not take a command there, cuts a phase, and goes on.
#[derive(Drop)]
pub struct Beyond {
    /// The next lines of its trace, and the last one where the run comes to its end within them.
    pub lines: Vec<u8>,
    /// The run went on behind these.
    pub is_cut: bool,
    /// The state of the card behind them.
    pub state: State,
}

/// A writer that passes over lines, and then keeps a few.
#[derive(Drop)]
struct Later {
    /// So many lines are still passed over.
    before: usize,
    /// So many it still keeps.
    left: usize,
    kept: Vec<u8>,
    /// Memory was refused for them.
    failed: bool,
}

impl Later {
    /// Takes in a byte.
    fn take(&mut self, byte: u8) -> io::Result<()> {
        let ends = usize::from(byte == b'\n');
        if self.before > 0 {
            self.before = self.before.saturating_sub(ends);
            return Ok(());
        }
        if self.left == 0 {
            return Err(Error::from(ErrorKind::WriteZero));
        }
        self.left = self.left.saturating_sub(ends);
        match self.kept.push(byte) {
            Ok(()) => Ok(()),
            Err(_) => {
                self.failed = true;
                Err(Error::from(ErrorKind::OutOfMemory))
            }
        }
    }
}

impl Write for Later {
    fn write(&mut self, buf: &[u8]) -> io::Result<usize> {
        for byte in buf {
            self.take(*byte)?;
        }
        Ok(buf.len())
    }

    fn flush(&mut self) -> io::Result<()> {
        Ok(())
    }
}

/// What a run that refutes a script does behind what is not allowed, if it goes on beside its card.
///
/// # Errors
///
/// Memory was refused.
pub fn run_on(
    alloc: Global,
    graph: &Graph<'_>,
    run: &Refutation,
) -> Result<Option<Beyond>, AllocError> {
    let Ok(desc) = CardDesc::parse(run.card.as_str()) else {
        return Ok(None);
    };
    let image = blank_image(&desc);
    let Ok(sim) = Sim::with_named_values(alloc, desc, image, run.schedule.as_slice()) else {
        return Err(AllocError);
    };
    let mut port = Controller::new(sim);
    let input = input_of(alloc, graph)?;
    let mut trace = Later {
        before: lines_before(&run.trace),
        left: MOST_LINES,
        kept: Vec::new(alloc),
        failed: false,
    };
    let end = run_graph(alloc, graph, &mut port, &input, &mut io::sink(), &mut trace);
    let Later {
        before: _,
        left: _,
        kept,
        failed,
    } = trace;
    if failed || matches!(end, Err(RunFault::Memory)) {
        return Err(AllocError);
    }
    Ok(Some(Beyond {
        lines: kept,
        is_cut: end.is_err(),
        state: port.wire().card().state,
    }))
}

/// How many lines a trace has before its last one.
fn lines_before(trace: &[u8]) -> usize {
    let lines = trace.iter().filter(|byte| **byte == b'\n').count();
    lines.saturating_sub(1)
}

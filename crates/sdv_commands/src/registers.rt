//! A port that writes the bytes of the registers that come.

ghost use Rattle.std.specs.Prelude.{◌≡◌, false};
ghost use Rattle.sdv_commands.specs.Registers.{TakesMore, taken_of};

use sdv_card::{Answer, CardPort, DataEnd, WaitEnd};
use sdv_frames::{Command, Expect};
use sdv_text::write_text;
use std::io::Write;

/// A writer of the bytes of registers, one register after another. After a write that failed it writes no more.
#[derive(Drop)]
pub struct RegisterSink<R> {
    writer: R,
    has_failed: bool,
}

impl<R: Write> RegisterSink<R> {
    /// Writes the bytes of a register.
    fn take(&mut self, bytes: &[u8])
        ensures { TakesMore self.old.has_failed (taken_of R.contents self.old) (taken_of R.contents self.new)
            bytes.now }
    {
        if self.has_failed {
            return;
        }
        self.has_failed = write_text(&mut self.writer, bytes).is_err();
    }

    /// A write failed.
    pub fn has_failed(&self) -> bool
        ensures { result ≡ self.now.has_failed }
    {
        self.has_failed
    }

    /// The writer.
    pub fn into_writer(self) -> R
        ensures { result ≡ self.writer }
    {
        let RegisterSink { writer, .. } = self;
        writer
    }
}

/// A port over another one: it writes the bytes of each register that comes whole.
#[derive(Drop)]
pub struct RegisterPort<P, R> {
    port: P,
    sink: RegisterSink<R>,
}

impl<P, R> RegisterPort<P, R> {
    ghost use Rattle.sdv_commands.specs.Registers.{port_of, sink_of};

    /// A port over this one, which writes here.
    pub fn new(port: P, writer: R) -> Self
        ensures port { port_of result ≡ port }
        ensures writer { (sink_of result).writer ≡ writer }
        ensures good { (sink_of result).has_failed ≡ false }
    {
        RegisterPort {
            port,
            sink: RegisterSink {
                writer,
                has_failed: false,
            },
        }
    }

    /// The port, and what its registers went to.
    pub fn into_parts(self) -> (P, RegisterSink<R>)
        ensures port { result.0 ≡ port_of self }
        ensures sink { result.1 ≡ sink_of self }
    {
        let RegisterPort { port, sink } = self;
        (port, sink)
    }
}

impl<P: CardPort, R: Write> CardPort for RegisterPort<P, R> {
    ghost use Rattle.sdv_card.proofs.PortLaws.{keeps_by_part};
    ghost use Rattle.sdv_commands.specs.Registers.{RegisterSteps, port_of, sink_of, taken_of};

    ghost steps = { λ p call returned p'. RegisterSteps P.steps (port_of p) (taken_of R.contents (sink_of p)) call
        returned (port_of p') (taken_of R.contents (sink_of p')) };

    ghost card = { λ p. P.card (port_of p) };

    ghost keeps_tables = { λ p p' kind event card host returned shown fine step.
        keeps_by_part port_of P.steps P.card P.keeps_tables p p' kind event card host returned shown fine step.0 };

    fn exchange(&mut self, command: Command, expect: Expect) -> Answer {
        self.port.exchange(command, expect)
    }

    fn data_in(&mut self, lines: u8, blocks: &mut [[u8; 512]]) -> DataEnd {
        self.port.data_in(lines, blocks)
    }

    fn data_in_reg(&mut self, lines: u8, bytes: &mut [u8]) -> DataEnd {
        let end = self.port.data_in_reg(lines, bytes);
        if end == DataEnd::Ok {
            self.sink.take(bytes);
        }
        end
    }

    fn data_out(&mut self, lines: u8, blocks: &[[u8; 512]]) -> DataEnd {
        self.port.data_out(lines, blocks)
    }

    fn wait(&mut self) -> WaitEnd {
        self.port.wait()
    }
}

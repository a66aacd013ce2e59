//! The port.

ghost use Rattle.std.specs.Prelude.{◌≡◌, None};
ghost use Rattle.sdv_card.specs.Port.{Exchange};
ghost use Rattle.sdv_card.proofs.PortLaws.{shows_none_keeps};
ghost use Rattle.sdv_trace.specs.Trace.{end_line};
ghost use Rattle.sdv_lines.specs.Due.{Announces};
ghost use Rattle.sdv_lines.specs.Streams.{IsNew, PortSteps, TakesCommand, TellsEnd, limited, streams_of, unheard_command};

use crate::ask;
use crate::due::{Announcement, Due, due_of};
use crate::fault::{Found, PortFault};
use crate::line::{Line, send};
use sdv_card::{Answer, CardPort, DataEnd, WaitEnd};
use sdv_frames::{Command, Expect, FrameFault, Reply};
use sdv_trace::{End, end_line};
use std::io::{Read, Write};
use std::mem;

/// A port that writes a request for each call, and reads its answer.
///
/// It gives up at the first fault of its streams, or at a command where it may send no more of them, and keeps why. From
/// then on it neither reads nor writes, and answers each command as damaged, each phase as cut, and each wait as late. No
/// call takes memory.
#[derive(Drop)]
pub struct LinePort<R, W> {
    /// Where answers are read.
    pub reader: R,
    /// Where requests are written.
    pub writer: W,
    /// How many commands it still sends, where there is a limit.
    commands_left: Option<u64>,
    fault: Option<PortFault>,
    /// What the host announced at its next command.
    announced: Option<Announcement>,
    /// The card said last that it takes the next command as an application command.
    application: bool,
    /// The command that was sent when its streams failed, if one was, and what it waited for.
    unheard: Option<(Command, Expect)>,
    /// The command that was answered last, with its answer, until it is taken.
    answered: Option<(Command, Answer)>,
    /// The line that it read last.
    heard: Line,
}

impl<R: Read, W: Write> LinePort<R, W> {
    /// A port that reads answers from the reader, and writes requests to the writer. Both are to be buffered. It sends any
    /// number of commands.
    pub fn new(reader: R, writer: W) -> Self
        ensures new { IsNew (R.remaining reader) (W.contents writer) (streams_of R.remaining W.contents result) }
        ensures none { result.answered ≡ None }
    {
        LinePort {
            reader,
            writer,
            commands_left: None,
            fault: None,
            announced: None,
            application: false,
            unheard: None,
            answered: None,
            heard: Line::new(),
        }
    }

    /// Why the port gave up, if it did.
    pub fn fault(&self) -> Option<PortFault>
        ensures { result ≡ (streams_of R.remaining W.contents self.now).fault }
    {
        self.fault
    }

    /// The command that was not answered because the streams failed, if that was one, with the response that it waited
    /// for. Its request was written, perhaps in part.
    pub fn unheard(&self) -> Option<(Command, Expect)>
        ensures { result ≡ unheard_command (streams_of R.remaining W.contents self.now) }
    {
        match self.fault {
            Some(PortFault::Lines(_)) => self.unheard,
            _ => None,
        }
    }

    /// Takes the command that was answered last, with its answer: none where no command was answered since one was taken.
    pub fn take_answered(&mut self) -> Option<(Command, Answer)>
        ensures taken { result ≡ self.old.answered }
        ensures none { self.new.answered ≡ None }
        ensures same { streams_of R.remaining W.contents self.new ≡ streams_of R.remaining W.contents self.old }
    {
        self.answered.take()
    }

    /// What people are told of the line that was read last.
    pub fn found(&self) -> Found {
        self.heard.found()
    }

    /// Sends so many commands at most from now on, or any number. Phases and waits do not count. Returns the limit before:
    /// how many commands were left of it.
    pub fn limit_commands(&mut self, most: Option<u64>) -> Option<u64>
        ensures before { result ≡ (streams_of R.remaining W.contents self.old).left }
        ensures limited { streams_of R.remaining W.contents self.new
            ≡ limited most (streams_of R.remaining W.contents self.old) }
    {
        mem::replace(&mut self.commands_left, most)
    }

    /// Has the request of the next command announce the data phase that follows it, if one does.
    pub fn announce(&mut self, announcement: Announcement)
        ensures { streams_of R.remaining W.contents self.new ≡ streams_of R.remaining W.contents self.old }
    {
        self.announced = Some(announcement);
    }

    /// The phase that the request of this command announces, if it is the next one.
    fn due(&self, command: Command, expect: Expect) -> Option<Due>
        ensures { Announces (Exchange command expect) result }
    {
        let announced = self.announced?;
        due_of(command, expect, self.application, announced)
    }

    /// Takes one of the commands that are left. False: none is.
    fn take_command(&mut self) -> bool
        ensures taken { TakesCommand result (streams_of R.remaining W.contents self.old)
            (streams_of R.remaining W.contents self.new) }
        ensures answered { self.new.answered ≡ self.old.answered }
    {
        match self.commands_left {
            None => true,
            Some(0) => false,
            Some(left) => {
                self.commands_left = Some(left - 1);
                true
            }
        }
    }

    /// Tells the other side how the run ended: the last line.
    ///
    /// # Errors
    ///
    /// [`ProtocolFault::Write`](crate::ProtocolFault::Write), which the port then keeps; or why it gave up before, and nothing is
    /// written.
    pub fn tell_end(&mut self, end: &End) -> Result<(), PortFault>
        ensures { TellsEnd (streams_of R.remaining W.contents self.old) (end_line end.now) result
            (streams_of R.remaining W.contents self.new) }
    {
        if let Some(fault) = self.fault {
            return Err(fault);
        }
        match send(&mut self.writer, end_line(end).as_slice()) {
            Ok(()) => Ok(()),
            Err(fault) => {
                let fault = PortFault::Lines(fault);
                self.fault = Some(fault);
                Err(fault)
            }
        }
    }
}

impl<R: Read, W: Write> CardPort for LinePort<R, W> {
    ghost steps = { PortSteps R.remaining W.contents };

    ghost card = { λ p. None };

    ghost keeps_tables = { shows_none_keeps (PortSteps R.remaining W.contents) };

    fn exchange(&mut self, command: Command, expect: Expect) -> Answer {
        if self.fault.is_some() {
            return Answer::Damaged(FrameFault::Length);
        }
        let due = self.due(command, expect);
        self.announced = None;
        if !self.take_command() {
            self.fault = Some(PortFault::Commands);
            return Answer::Damaged(FrameFault::Length);
        }
        match ask::exchange(
            &mut self.reader,
            &mut self.writer,
            &mut self.heard,
            command,
            expect,
            due,
        ) {
            Ok(answer) => {
                self.application = is_application(command, &answer);
                self.answered = Some((command, answer));
                answer
            }
            Err(fault) => {
                self.fault = Some(PortFault::Lines(fault));
                self.unheard = Some((command, expect));
                Answer::Damaged(FrameFault::Length)
            }
        }
    }

    fn data_in(&mut self, lines: u8, blocks: &mut [[u8; 512]]) -> DataEnd {
        if self.fault.is_some() {
            return DataEnd::Cut;
        }
        match ask::data_in(
            &mut self.reader,
            &mut self.writer,
            &mut self.heard,
            lines,
            blocks,
        ) {
            Ok(end) => end,
            Err(fault) => {
                self.fault = Some(PortFault::Lines(fault));
                self.unheard = None;
                DataEnd::Cut
            }
        }
    }

    fn data_in_reg(&mut self, lines: u8, bytes: &mut [u8]) -> DataEnd {
        if self.fault.is_some() {
            return DataEnd::Cut;
        }
        match ask::data_in_register(
            &mut self.reader,
            &mut self.writer,
            &mut self.heard,
            lines,
            bytes,
        ) {
            Ok(end) => end,
            Err(fault) => {
                self.fault = Some(PortFault::Lines(fault));
                self.unheard = None;
                DataEnd::Cut
            }
        }
    }

    fn data_out(&mut self, lines: u8, blocks: &[[u8; 512]]) -> DataEnd {
        if self.fault.is_some() {
            return DataEnd::Cut;
        }
        match ask::data_out(
            &mut self.reader,
            &mut self.writer,
            &mut self.heard,
            lines,
            blocks,
        ) {
            Ok(end) => end,
            Err(fault) => {
                self.fault = Some(PortFault::Lines(fault));
                self.unheard = None;
                DataEnd::Cut
            }
        }
    }

    fn wait(&mut self) -> WaitEnd {
        if self.fault.is_some() {
            return WaitEnd::Late;
        }
        match ask::wait(&mut self.reader, &mut self.writer, &mut self.heard) {
            Ok(end) => end,
            Err(fault) => {
                self.fault = Some(PortFault::Lines(fault));
                self.unheard = None;
                WaitEnd::Late
            }
        }
    }
}

/// Whether the answer to CMD55 says that the card takes the next command as an application command.
fn is_application(command: Command, answer: &Answer) -> bool {
    match answer {
        Answer::Reply(Reply::R1 { status, .. }) => command.index == 55 && *status >> 5 & 1 == 1,
        _ => false,
    }
}

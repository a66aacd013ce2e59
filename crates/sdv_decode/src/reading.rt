//! A trace that is read beside a script, line by line.

ghost use Rattle.std.specs.Prelude.{◌≡◌, ◌<◌, ℕ, false, true, IfErr, IfOk, List, OnOk, Ok, Some, length, map, option_map};
ghost use Rattle.sdv_audit.specs.Course.{Course, IsAt};
ghost use Rattle.sdv_audit.specs.Reading.{read_line};
ghost use Rattle.sdv_audit.specs.Room.{AreMany};
ghost use Rattle.sdv_card.specs.Lists.{May};
ghost use Rattle.sdv_run.specs.Machine.{Asked};
ghost use Rattle.sdv_run.specs.declared.next_event.Next.TheVariants.{Event};
ghost use Rattle.sdv_decode.specs.Decoded.{Place, at_first, course_before, course_behind, line_behind, off_behind, uses};
ghost use Rattle.sdv_audit.specs.Notes.{counted};
ghost use Rattle.sdv_decode.specs.LineWords.{AddsLine, end_told, told};
ghost use Rattle.sdv_decode.specs.Room.{AreTooMany, LacksRoom};
ghost use Rattle.sdv_decode.specs.Steps.{GoesOn, IsAsked, IsCrowded, IsPlace, Steps};

use crate::fault::TraceOff;
use crate::form::Form;
use crate::line_words::{Spot, announces, put_event, put_last, put_stray};
use crate::matches::{came_in, given_after, is_end, is_of, register_told, returned_of};
use crate::meaning::Behind;
use sdv_audit::{Audit, AuditFault, Told, TraceLine, read_line};
use sdv_card::Width;
use sdv_graph::Graph;
use sdv_run::{End, Next, NextEvent, Runner};
use sdv_telling::Text;
use std::alloc::Global;

/// A trace that is read beside a script, as far as it has come.
#[derive(Drop)]
pub struct Reading<'g, 'a, 'r> {
    alloc: Global,
    form: Form,
    runner: Runner<'g, 'a>,
    audit: Audit,
    // the next command is an application command
    app: bool,
    // the bytes of registers that are left, if they are given
    given: Option<&'r [u8]>,
    // the number of the next line, from 1
    number: u64,
}

/// What came of a line.
#[derive(Clone, Copy, Debug, PartialEq, Eq)]
pub enum Step {
    /// It is that of the next event of the run.
    Passed,
    /// The reading stops there, with where the trace is off, if it is.
    Stopped(Option<TraceOff>),
}

/// The line at the front of texts, where it is one.
fn line_behind(texts: &[Vec<u8>]) -> Option<TraceLine>
    ensures { result ≡ line_behind (map (λ text. text.items) texts.now) }
{
    match read_line(texts.first()?.as_slice()) {
        Ok(line) => Some(line),
        Err(_) => None,
    }
}

/// A text behind the end of a run is of nothing.
fn off_behind(number: u64, texts: &[Vec<u8>]) -> Option<TraceOff>
    ensures { result ≡ off_behind number (map (λ text. text.items) texts.now) }
{
    if texts.is_empty() {
        None
    } else {
        Some(TraceOff::Script(number))
    }
}

/// Takes in the data lines that the host uses.
fn follow_lines(audit: &mut Audit, width: Width) -> Result<(), AuditFault>
    ensures kind { audit.new.kind ≡ audit.old.kind }
    ensures course { OnOk result ((c : Course) → IsAt audit.old c → IsAt audit.new (uses audit.old.kind width c)) }
    ensures room { IfErr result (λ fault. fault ≡ AuditFault.Room → (c : Course) → IsAt audit.old c →
        AreMany (May (uses audit.old.kind width c).shapes)) }
{
    let told = Told {
        line: TraceLine::Lines { width },
        next: None,
    };
    audit.next(&told)?;
    Ok(())
}

/// Takes in what an event tells before it: the data lines of a phase.
fn follow_before(audit: &mut Audit, event: &NextEvent) -> Result<(), AuditFault>
    ensures kind { audit.new.kind ≡ audit.old.kind }
    ensures course { OnOk result ((c : Course) → IsAt audit.old c →
        IsAt audit.new (course_before audit.old.kind event.now c)) }
    ensures room { IfErr result (λ fault. fault ≡ AuditFault.Room → (c : Course) → IsAt audit.old c →
        AreMany (May (course_before audit.old.kind event.now c).shapes)) }
{
    match event {
        NextEvent::ReceiveBlocks { lines, .. } => follow_lines(audit, *lines),
        NextEvent::ReceiveRegister { lines, .. } => follow_lines(audit, *lines),
        NextEvent::GiveBlocks { lines, .. } => follow_lines(audit, *lines),
        NextEvent::Send { .. } | NextEvent::Wait => Ok(()),
    }
}

/// Takes in the line of an event.
fn follow(audit: &mut Audit, event: &NextEvent, told: &Told) -> Result<(), AuditFault>
    ensures kind { audit.new.kind ≡ audit.old.kind }
    ensures course { OnOk result ((c : Course) → IsAt audit.old c →
        IsAt audit.new (course_behind audit.old.kind told.now (course_before audit.old.kind event.now c))) }
    ensures room { IfErr result (λ fault. fault ≡ AuditFault.Room → (c : Course) → IsAt audit.old c →
        AreTooMany audit.old.kind event.now told.now c) }
{
    follow_before(audit, event)?;
    audit.next(told)?;
    Ok(())
}

impl<'g, 'a, 'r> Reading<'g, 'a, 'r> {
    /// Before the first line.
    pub fn new(
        alloc: Global,
        graph: &'g Graph<'a>,
        given: Option<&'r [u8]>,
        form: Form,
    ) -> Result<Reading<'g, 'a, 'r>, AuditFault>
        ensures place { IfOk result (λ reading. IsPlace reading
            (at_first graph.now (option_map (λ bytes. bytes.now) given.entry))) }
        ensures form { IfOk result (λ reading. reading.form ≡ form) }
        ensures memory { IfErr result (λ fault. fault ≡ AuditFault.Memory) }
    {
        Ok(Reading {
            alloc,
            form,
            runner: Runner::new(alloc, graph)?,
            audit: Audit::new(alloc, graph.kind())?,
            app: false,
            given,
            number: 1,
        })
    }

    /// The data lines that the host uses.
    pub fn lines(&self) -> Width
        ensures { result ≡ self.now.runner.stand.host.lines }
    {
        self.runner.lines()
    }

    /// Takes in a line, before those behind it, and adds its words.
    ///
    /// # Errors
    ///
    /// [`AuditFault::Room`] and [`AuditFault::Memory`].
    pub fn take(
        &mut self,
        text: &[u8],
        behind: &[Vec<u8>],
        out: &mut Text,
    ) -> Result<Step, AuditFault>
        ensures form { self.new.form ≡ self.old.form }
        ensures steps { IfOk result (λ step. (at : Place) → IsPlace self.old at →
            Steps self.old.form at text.now (map (λ text. text.items) behind.now) out.old.items out.new.items
            self.new step) }
        ensures room { IfErr result (λ fault. fault ≡ AuditFault.Room → (at : Place) → IsPlace self.old at →
            LacksRoom at text.now (line_behind (map (λ text. text.items) behind.now))) }
    {
        match read_line(text) {
            Ok(line) => self.take_line(text, line, behind, out),
            Err(fault) => Ok(Step::Stopped(Some(TraceOff::Line(fault, self.number)))),
        }
    }

    /// Takes in a line that the text is.
    fn take_line(
        &mut self,
        text: &[u8],
        line: TraceLine,
        behind: &[Vec<u8>],
        out: &mut Text,
    ) -> Result<Step, AuditFault>
        ensures form { self.new.form ≡ self.old.form }
        ensures steps { IfOk result (λ step. (at : Place) → read_line text.now ≡ Ok line → IsPlace self.old at →
            Steps self.old.form at text.now (map (λ text. text.items) behind.now) out.old.items out.new.items
            self.new step) }
        ensures room { IfErr result (λ fault. fault ≡ AuditFault.Room → (at : Place) → read_line text.now ≡ Ok line →
            IsPlace self.old at → LacksRoom at text.now (line_behind (map (λ text. text.items) behind.now))) }
    {
        match self.runner.ask() {
            Ok(Next::Event(event)) => self.take_event(&event, line, behind, out),
            Ok(Next::End(end)) => {
                if is_end(text, &end) {
                    self.end(&end, behind, out)
                } else {
                    self.stray(&line, out)
                }
            }
            Err(_) => self.stray(&line, out),
        }
    }

    /// Takes in a line where the run makes this event next.
    fn take_event(
        &mut self,
        event: &NextEvent,
        line: TraceLine,
        behind: &[Vec<u8>],
        out: &mut Text,
    ) -> Result<Step, AuditFault>
        ensures form { self.new.form ≡ self.old.form }
        ensures steps { IfOk result (λ step. (at : Place) (text : List ℕ) → read_line text ≡ Ok line →
            IsAsked self.old at → Asked self.old.runner (Ok (Event event.now)) →
            Steps self.old.form at text (map (λ text. text.items) behind.now) out.old.items out.new.items
            self.new step) }
        ensures room { IfErr result (λ fault. fault ≡ AuditFault.Room → (at : Place) (text : List ℕ) →
            read_line text ≡ Ok line → IsAsked self.old at → Asked self.old.runner (Ok (Event event.now)) →
            LacksRoom at text (line_behind (map (λ text. text.items) behind.now))) }
    {
        if !is_of(event, &line) {
            return self.stray(&line, out);
        }
        let spot = self.spot();
        let app = self.app;
        let came = came_in(self.given, &line);
        if self.go_on(event, line, line_behind(behind))? {
            let shapes = self.audit.shapes();
            put_event(out, &spot, app, &line, &Behind { shapes, came })?;
            Ok(Step::Passed)
        } else {
            self.stray(&line, out)
        }
    }

    /// Goes on by what a line tells of the event; false where the run refuses that, and nothing changes.
    fn go_on(
        &mut self,
        event: &NextEvent,
        line: TraceLine,
        next: Option<TraceLine>,
    ) -> Result<bool, AuditFault>
        ensures form { self.new.form ≡ self.old.form }
        ensures on { IfOk result (GoesOn self.old event.now line next self.new) }
        ensures room { IfErr result (λ fault. fault ≡ AuditFault.Room → IsCrowded self.old event.now line next) }
    {
        let returned = returned_of(&line, register_told(self.given, &line));
        if self.runner.take(&returned).is_err() {
            return Ok(false);
        }
        follow(&mut self.audit, event, &Told { line, next })?;
        self.app = announces(&line);
        self.given = given_after(self.given, &line);
        self.number = self.number.saturating_add(1);
        Ok(true)
    }

    /// Where the next line stands.
    fn spot(&self) -> Spot<'g, 'a>
        ensures graph { result.graph.now ≡ self.now.runner.graph }
        ensures form { result.form ≡ self.now.form }
        ensures number { result.number ≡ self.now.number }
        ensures point { result.point ≡ self.now.runner.stand.point }
        ensures on { result.point < length self.now.runner.graph.points }
    {
        Spot {
            alloc: self.alloc,
            graph: self.runner.graph(),
            form: self.form,
            number: self.number,
            point: self.runner.point(),
        }
    }

    /// Stops at a line that the run does not come to.
    fn stray(&self, line: &TraceLine, out: &mut Text) -> Result<Step, AuditFault>
        ensures words { OnOk result (AddsLine (record {
          graph = self.now.runner.graph;
          form = self.now.form;
          number = self.now.number;
          point = self.now.runner.stand.point;
        }) (told false line.now) out.old.items out.new.items) }
        ensures step { IfOk result (λ step. step ≡ Step.Stopped (Some (TraceOff.Script self.now.number))) }
        ensures memory { IfErr result (λ fault. fault ≡ AuditFault.Memory) }
    {
        put_stray(out, &self.spot(), line)?;
        Ok(Step::Stopped(Some(TraceOff::Script(self.number))))
    }

    /// Stops at the end of the run.
    fn end(&self, end: &End, behind: &[Vec<u8>], out: &mut Text) -> Result<Step, AuditFault>
        ensures words { OnOk result (AddsLine (record {
          graph = self.now.runner.graph;
          form = self.now.form;
          number = self.now.number;
          point = self.now.runner.stand.point;
        }) (end_told end.now) out.old.items out.new.items) }
        ensures step { IfOk result (λ step. step ≡ Step.Stopped (off_behind (counted true self.now.number)
            (map (λ text. text.items) behind.now))) }
        ensures memory { IfErr result (λ fault. fault ≡ AuditFault.Memory) }
    {
        put_last(out, &self.spot(), end)?;
        Ok(Step::Stopped(off_behind(self.number.saturating_add(1), behind)))
    }
}

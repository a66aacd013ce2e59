//! A report, line by line.

ghost use Rattle.std.specs.Prelude.{◌≡◌, ◌≢◌, IfErr, IfOk, OnOk};
ghost use Rattle.sdv_card.specs.Lists.{May};
ghost use Rattle.sdv_audit.specs.Room.{AreMany};
ghost use Rattle.sdv_audit.specs.Report.{AddsEnding, AddsNotes, Progress, ReportAt, at_start, line_notes, progress_after};

use crate::audit::{Audit, Findings};
use crate::fault::NoteFault;
use crate::line::TraceLine;
use crate::notes::{Place, TOPICS, notes_text, put_ending};
use crate::style::{Premises, Style, Tally};
use crate::texts::Count;
use crate::turn::{Deed, Told, Turn};
use crate::words::{Before, put_standing};
use sdv_card::{Answer, Event, Shape};
use sdv_frames::Reply;
use sdv_registers::Kind;
use sdv_telling::Text;
use sdv_text::write_text;
use std::alloc::{AllocError, Global};
use std::io::Write;

/// A report, as far as it has come.
#[derive(Drop)]
pub struct Report {
    alloc: Global,
    kind: Kind,
    pub style: Style,
    audit: Audit,
    pub tally: Tally,
    // the number of the line that has the CSD that the host read last
    csd_line: u64,
}

impl Report {
    /// Before the first line.
    pub fn new(alloc: Global, kind: Kind, style: Style) -> Result<Report, NoteFault>
        ensures kind { IfOk result (λ report. report.kind ≡ kind) }
        ensures style { IfOk result (λ report. report.style ≡ style) }
        ensures start { IfOk result (λ report. ReportAt report (at_start style)) }
        ensures memory { IfErr result (λ fault. fault ≡ NoteFault.Memory) }
    {
        Ok(Report {
            alloc,
            kind,
            style,
            audit: Audit::first(alloc, kind, style.running)?,
            tally: Tally::nothing(),
            csd_line: 0,
        })
    }

    /// The states in which a card may be, where they are asked for.
    fn states(&self) -> Result<Text, AllocError> {
        let mut text = Vec::new(self.alloc);
        if self.style.annotate {
            put_standing(&mut text, self.audit.shapes())?;
        }
        Ok(text)
    }

    /// What is known before the next line.
    fn before<'s>(&self, states: &'s [u8], shapes: &'s [Shape]) -> Before<'s> {
        Before {
            kind: self.kind,
            csd: self.audit.known().csd,
            csd_line: self.csd_line,
            bounded: self.audit.is_bounded(),
            any_state: self.audit.is_running(),
            behind: self.tally.outside != 0,
            stretch: self.tally.stretch,
            states,
            shapes,
        }
    }

    /// Takes in a line with its number, and writes the notes on it.
    pub fn take<W: Write>(&mut self, number: u64, told: &Told, out: &mut W) -> Result<(), NoteFault>
        ensures kind { self.new.kind ≡ self.old.kind }
        ensures style { self.new.style ≡ self.old.style }
        ensures course { OnOk result ((p : Progress) → ReportAt self.old p →
            ReportAt self.new (progress_after self.old.kind self.old.style p told.now)) }
        ensures written { OnOk result ((p : Progress) → ReportAt self.old p →
            AddsNotes self.old.style (line_notes self.old.kind self.old.style p number told.now)
            (W.contents out.old) (W.contents out.new)) }
        ensures room { IfErr result (λ fault. fault ≡ NoteFault.Room → (p : Progress) → ReportAt self.old p →
            AreMany (May (progress_after self.old.kind self.old.style p told.now).course.shapes)) }
    {
        let states = self.states()?;
        let shapes = Vec::from_slice(self.alloc, self.audit.shapes())?;
        let before = self.before(&states, &shapes);
        let waits = self.audit.waits();
        let running = self.audit.is_running();
        let bounded = self.audit.is_bounded();
        let found = self.audit.next(told)?;
        let at = Place {
            alloc: self.alloc,
            style: self.style,
            number,
            line: &told.line,
            premises: Premises::of(running, bounded, self.tally.outside, &found),
        };
        let text = notes_text(at, &found, &before, &TOPICS)?;
        self.csd_line = csd_line_after(number, &found, &told.line, self.csd_line);
        let numbered = self.style.numbers(&told.line);
        self.tally = self.tally.after(numbered, waits, &found);
        match write_text(out, text.as_slice()) {
            Ok(()) => Ok(()),
            Err(_) => Err(NoteFault::Write),
        }
    }

    /// Writes what stands behind the notes on all lines.
    pub fn finish<W: Write>(&self, count: Count, out: &mut W) -> Result<(), NoteFault>
        ensures written { OnOk result (AddsEnding self.now.style count self.now.tally
            (W.contents out.old) (W.contents out.new)) }
        ensures room { IfErr result (λ fault. fault ≢ NoteFault.Room) }
    {
        let states = self.states()?;
        let mut text = Vec::new(self.alloc);
        put_ending(&mut text, self.style, count, self.tally, &states)?;
        match write_text(out, text.as_slice()) {
            Ok(()) => Ok(()),
            Err(_) => Err(NoteFault::Write),
        }
    }
}

/// The number of the line that has the CSD that the host read last.
fn csd_line_after(number: u64, found: &Findings, line: &TraceLine, before: u64) -> u64 {
    match (found.turn, line) {
        (
            Turn::Does(Deed::Known(Event::Send(ask))),
            TraceLine::Exchange {
                answer: Answer::Reply(Reply::R2(_)),
                ..
            },
        ) if ask.index == 9 => number,
        _ => before,
    }
}

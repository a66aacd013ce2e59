//! Audits: line by line, the shapes at which a card may stand.

ghost use Rattle.std.specs.Prelude.{◌≡◌, ◌↔◌, ◌⊎◌, ◌&&◌, ◌||◌, not, if◌then◌else◌, IsTrue, IfOk, IfErr, OnOk, OnErr, IfSome, MatchOption, List, [], ◌∷◌, true, false, None};
ghost use Rattle.sdv_card.specs.declared.shape.Shape.{Shape as CardShape};
ghost use Rattle.sdv_card.specs.Lists.{May};
ghost use Rattle.sdv_audit.specs.declared.turn.Told.{Told as TraceTold};
ghost use Rattle.sdv_audit.specs.declared.turn.Turn.TheVariants.{Does};
ghost use Rattle.sdv_audit.specs.Turns.{turn_of, known_after};
ghost use Rattle.sdv_audit.specs.Carried.{AnyBehind, Follows};
ghost use Rattle.sdv_audit.specs.Beyond.{NoneInBounds};
ghost use Rattle.sdv_audit.specs.Standing.{start_set, NoneAnswers};
ghost use Rattle.sdv_audit.specs.Course.{Course, IsAt, SameMembers, GoesOn, GoesAnew, GoesAgain, GoesHere, FindsOn, FindsAgain, FindsHere, Finds, any_state, begun, begun_at, is_resumed, reckless_at, goes_on, goes_anew, goes_again, course_here, course_after};
ghost use Rattle.sdv_audit.specs.Room.{AreMany};
ghost use Rattle.sdv_audit.specs.Audited.{is_empty, Stands, StandsOn, NoneAnswersThere, IsRecklessThere, IsForbiddenThere, AllBeyond, NotReckless, IsForbidden, IsIllegalAt, is_unanswered, is_reset, restarts, lines_told, running_told, is_event, address_in, address_named, address_told, is_other_address, resumes, Behind, NoneAnswersBehind, Followed};

use crate::bounds::{all_beyond, all_within};
use crate::fault::AuditFault;
use crate::known::HostKnown;
use crate::line::TraceLine;
use crate::running::any_shapes;
use crate::shapes::{Evidence, carried, is_forbidden, least_illegal, with_lines};
use crate::turn::{Deed, Told, Turn, is_expected};
use sdv_card::{Event, START_SHAPES, Shape, Width};
use sdv_frames::Command;
use sdv_registers::Kind;
use std::alloc::Global;

/// What an audit finds at a line.
#[derive(Clone, Copy, Debug)]
pub struct Findings {
    /// How the line is understood.
    pub turn: Turn,
    /// The host was reckless: a card that answered so may be of this shape, at which the event is not legal. Of several it is
    /// the one with the least number.
    pub reckless: Option<Shape>,
    /// No card answers so.
    pub unanswered: bool,
    /// The address is beyond the blocks that the last CSD gives, at each card that may stand there.
    pub beyond: bool,
    /// The audit waited for a CMD0, and began anew at this one.
    pub restarted: bool,
    /// The audit went on from any state of a card.
    pub resumed: bool,
}

/// An audit of a trace, as far as it has come.
///
/// It keeps the shapes at which a card may stand that answered so at legal events. Where there is none it goes on at the
/// next event from any state, or begins anew at a CMD0, as before the first command.
#[derive(Drop)]
pub struct Audit {
    alloc: Global,
    kind: Kind,
    known: HostKnown,
    shapes: Vec<Shape>,
    // At each shape, each address so far is that of blocks of some card of the profile, also with the greatest count where no
    // line told it, and no count was untold that a preset count demands.
    bounded: bool,
    // The card could be in any state, before some line.
    running: bool,
}

impl Audit {
    /// An audit of a trace of a host beside a card of this kind, before the first line.
    ///
    /// # Errors
    ///
    /// Where memory runs out.
    pub fn new(alloc: Global, kind: Kind) -> Result<Audit, AuditFault>
        ensures kind { IfOk result (λ audit. audit.kind ≡ kind) }
        ensures stands { IfOk result (λ audit. Stands audit []) }
        ensures begun { IfOk result (λ audit. IsAt audit begun) }
        ensures memory { IfErr result (λ fault. fault ≡ AuditFault.Memory) }
    {
        Ok(Audit {
            alloc,
            kind,
            known: HostKnown::nothing(),
            shapes: Vec::from_slice(alloc, &START_SHAPES)?,
            bounded: true,
            running: false,
        })
    }

    /// An audit of a trace before its first line, which begins in a running system or not. Where it does, nothing is followed
    /// yet, and until a line names the relative card address it is 1.
    ///
    /// # Errors
    ///
    /// Where memory runs out.
    pub fn first(alloc: Global, kind: Kind, running: bool) -> Result<Audit, AuditFault>
        ensures kind { IfOk result (λ audit. audit.kind ≡ kind) }
        ensures begun { IfOk result (λ audit. IsAt audit (begun_at running)) }
        ensures memory { IfErr result (λ fault. fault ≡ AuditFault.Memory) }
    {
        let mut audit = Audit::new(alloc, kind)?;
        if running {
            audit.known = HostKnown::running(1, Width::One);
            audit.shapes = Vec::new(alloc);
        }
        Ok(audit)
    }

    /// An audit of a card in any state, with the relative address and the data lines of its host.
    fn any_state(alloc: Global, kind: Kind, rca: u16, lines: Width) -> Result<Audit, AuditFault>
        ensures kind { IfOk result (λ audit. audit.kind ≡ kind) }
        ensures stands { IfOk result (λ audit. Stands audit (running_told rca lines ∷ [])) }
        ensures course { IfOk result (λ audit. IsAt audit (any_state kind rca lines)) }
        ensures memory { IfErr result (λ fault. fault ≡ AuditFault.Memory) }
    {
        let shapes = any_shapes(alloc, kind, lines)?;
        Ok(Audit {
            alloc,
            kind,
            known: HostKnown::running(rca, lines),
            shapes,
            bounded: false,
            running: true,
        })
    }

    /// The shapes at which a card may stand; where there is none, the audit waits for a CMD0.
    pub fn shapes(&self) -> &[Shape]
        ensures { result.now ≡ self.now.shapes.items }
    {
        self.shapes.as_slice()
    }

    /// The audit waits for a CMD0.
    pub fn waits(&self) -> bool
        ensures { result ≡ is_empty self.now.shapes.items }
    {
        self.shapes.is_empty()
    }

    /// What the trace tells of the host so far.
    pub fn known(&self) -> &HostKnown
        ensures { result.now ≡ self.now.known }
    {
        &self.known
    }

    /// Whether each address so far is that of blocks of some card of the profile, also with the greatest count where no line
    /// told it, and no count was untold that a preset count demands. Then each shape is that of a real card.
    pub fn is_bounded(&self) -> bool
        ensures { result ≡ self.now.bounded }
    {
        self.bounded
    }

    /// The card could be in any state, before some line that the next one is judged by.
    pub fn is_running(&self) -> bool
        ensures { result ≡ self.now.running }
    {
        self.running
    }

    /// The shapes after a line.
    fn after(&self, turn: &Turn, line: &TraceLine) -> Result<Vec<Shape>, AuditFault>
        ensures members { IfOk result (λ all. (s : CardShape) → May all.items s ↔
            Follows self.now.kind turn.now line.now self.now.known self.now.shapes.items s) }
        ensures room { IfErr result (λ fault. fault ≡ AuditFault.Room → AreMany
            (Follows self.now.kind turn.now line.now self.now.known self.now.shapes.items)) }
    {
        match turn {
            Turn::Does(deed) => {
                if !is_expected(self.kind, self.known.csd, deed, line) {
                    return Ok(Vec::new(self.alloc));
                }
                let at = Evidence {
                    kind: self.kind,
                    line,
                    address: self.known.rca != 0,
                };
                carried(self.alloc, self.shapes.as_slice(), at, deed)
            }
            Turn::Uses(width) => with_lines(self.alloc, self.shapes.as_slice(), *width),
            Turn::Resumes { lines, .. } => self.any_behind(*lines),
            Turn::OtherLength { .. } => Ok(Vec::new(self.alloc)),
            Turn::Ends | Turn::Outside => Ok(Vec::from_slice(self.alloc, self.shapes.as_slice())?),
        }
    }

    /// The shapes of a card in any state, where there is a shape.
    fn any_behind(&self, lines: Width) -> Result<Vec<Shape>, AuditFault>
        ensures members { IfOk result (λ all. (s : CardShape) → May all.items s ↔
            AnyBehind self.now.kind lines self.now.shapes.items s) }
        ensures memory { IfErr result (λ fault. fault ≡ AuditFault.Memory) }
    {
        if self.waits() {
            return Ok(Vec::new(self.alloc));
        }
        let all = any_shapes(self.alloc, self.kind, lines)?;
        Ok(all)
    }

    /// The least shape at which what the host does is not legal. Where the card could be in any state, there is one only if
    /// no shape allows it.
    fn reckless(&self, turn: &Turn) -> Option<Shape>
        ensures found { MatchOption result (NotReckless self.now turn.now) (IsIllegalAt self.now turn.now) }
        ensures forbidden { IfSome result (IsForbidden self.now turn.now) }
        ensures least { (shapes : List CardShape) → SameMembers self.now.shapes.items shapes →
            result ≡ reckless_at self.now.running self.now.kind turn.now shapes }
    {
        match turn {
            Turn::Does(deed) => self.illegal(deed),
            _ => None,
        }
    }

    /// So it is with what the host does.
    fn illegal(&self, deed: &Deed) -> Option<Shape>
        ensures found { MatchOption result (NotReckless self.now (Does deed.now)) (IsIllegalAt self.now (Does deed.now)) }
        ensures forbidden { IfSome result (IsForbidden self.now (Does deed.now)) }
        ensures least { (shapes : List CardShape) → SameMembers self.now.shapes.items shapes →
            result ≡ reckless_at self.now.running self.now.kind (Does deed.now) shapes }
    {
        let shapes = self.shapes.as_slice();
        let forbidden = is_forbidden(self.kind, shapes, deed);
        let least = least_illegal(self.kind, shapes, deed);
        left(self.running, forbidden, least)
    }

    /// There are shapes, and at each of them the address is beyond what the CSD tells.
    fn beyond(&self, turn: &Turn, line: &TraceLine) -> bool
        ensures { IsTrue result ↔ ((is_empty self.now.shapes.items ≡ false) × AllBeyond self.now turn.now line.now) }
    {
        let shapes = self.shapes.as_slice();
        !shapes.is_empty() && all_beyond(self.kind, &self.known, shapes, turn, line)
    }

    /// What becomes of the audit, where it does not begin anew.
    fn advance(&mut self, told: &Told) -> Result<Findings, AuditFault>
        ensures turn { IfOk result (λ found. found.turn ≡ turn_of self.old.kind self.old.known told.now) }
        ensures kind { self.new.kind ≡ self.old.kind }
        ensures stands { OnOk result (StandsOn self.old self.new told.now) }
        ensures reckless { IfOk result (λ found.
            MatchOption found.reckless (NotReckless self.old found.turn) (IsIllegalAt self.old found.turn)) }
        ensures real { IfOk result (λ found. IfSome found.reckless (IsRecklessThere self.old found.turn)) }
        ensures forbidden { IfOk result (λ found. IfSome found.reckless (IsForbiddenThere self.old told.now)) }
        ensures exactly { IfOk result (λ found.
            found.unanswered ≡ is_unanswered found.reckless self.old.shapes.items self.new.shapes.items) }
        ensures unanswered { IfOk result (λ found. found.unanswered ≡ true → NoneAnswersThere self.old told.now) }
        ensures passed { IfOk result (λ found. IsTrue found.beyond ↔
            ((is_empty self.old.shapes.items ≡ false) × AllBeyond self.old found.turn told.now.line)) }
        ensures beyond { IfOk result (λ found. found.beyond ≡ true → (past : List TraceTold) → Stands self.old past →
            NoneInBounds self.old.kind past told.now) }
        ensures going_on { IfOk result (λ found. (found.restarted ≡ false) × (found.resumed ≡ false)) }
        ensures found { IfOk result (FindsOn self.old told.now) }
        ensures course { OnOk result (GoesOn self.old self.new told.now) }
        ensures same { OnErr result (self.new ≡ self.old) }
        ensures room { IfErr result (λ fault. fault ≡ AuditFault.Room → (c : Course) → IsAt self.old c →
            AreMany (May (goes_on self.old.kind told.now c).shapes)) }
    {
        let turn = told.turn(self.kind, &self.known);
        let reckless = self.reckless(&turn);
        let shapes = self.after(&turn, &told.line)?;
        let unanswered = is_unanswered(reckless, self.shapes.as_slice(), shapes.as_slice());
        let beyond = self.beyond(&turn, &told.line);
        self.bounded = self.bounded
            && all_within(self.kind, self.shapes.as_slice(), &turn, &told.line);
        self.known = self.known.after_line(self.kind, &turn, &told.line);
        self.running = either(self.running, is_resumed(&turn));
        self.shapes = shapes;
        Ok(Findings {
            turn,
            reckless,
            unanswered,
            beyond,
            restarted: false,
            resumed: false,
        })
    }

    /// The line is a CMD0 for which the audit waits.
    fn restarts(&self, told: &Told) -> bool
        ensures { result ≡ restarts self.now told.now }
    {
        (self.shapes.is_empty() || self.running) && is_reset(&told.turn(self.kind, &self.known))
    }

    /// The audit from this CMD0 on, and what it finds there: CMD0 is legal at each card, and has no address.
    fn anew(&self, told: &Told) -> Result<(Audit, Findings), AuditFault>
        ensures kind { IfOk result (λ x. x.0.kind ≡ self.now.kind) }
        ensures stands { IfOk result (λ x. Stands x.0 (told.now ∷ lines_told self.now.known.lines ∷ [])) }
        ensures turn { IfOk result (λ x. x.1.turn ≡ turn_of self.now.kind self.now.known told.now) }
        ensures unanswered { IfOk result (λ x. x.1.unanswered ≡ is_empty x.0.shapes.items) }
        ensures restarted { IfOk result (λ x. (x.1.restarted ≡ true) × (x.1.resumed ≡ false)) }
        ensures legal { IfOk result (λ x. x.1.reckless ≡ None) }
        ensures bounds { IfOk result (λ x. x.1.beyond ≡ false) }
        ensures course { IfOk result (λ x. GoesAnew self.now x.0 told.now) }
        ensures room { IfErr result (λ fault. fault ≡ AuditFault.Room → (c : Course) → IsAt self.now c →
            AreMany (May (goes_anew self.now.kind told.now c).shapes)) }
    {
        let mut audit = Audit::new(self.alloc, self.kind)?;
        let lines = Told {
            line: TraceLine::Lines {
                width: self.known.lines,
            },
            next: None,
        };
        audit.advance(&lines)?;
        audit.advance(told)?;
        let findings = Findings {
            turn: told.turn(self.kind, &self.known),
            reckless: None,
            unanswered: audit.shapes.is_empty(),
            beyond: false,
            restarted: true,
            resumed: false,
        };
        Ok((audit, findings))
    }

    /// The line is an event for which no shape is left, or names another address than a host had beside a card in any state.
    fn resumes(&self, told: &Told) -> bool
        ensures { result ≡ resumes self.now told.now }
    {
        (self.shapes.is_empty() && is_event(&told.line))
            || (self.running && is_other_address(&told.line, &self.known))
    }

    /// The audit from any state on, and what it finds at this line.
    fn again(&self, told: &Told) -> Result<(Audit, Findings), AuditFault>
        ensures kind { IfOk result (λ x. x.0.kind ≡ self.now.kind) }
        ensures stands { IfOk result (λ x. (past : List TraceTold) → Behind false true self.now told.now past →
            Stands x.0 (told.now ∷ past)) }
        ensures resumed { IfOk result (λ x. (x.1.restarted ≡ false) × (x.1.resumed ≡ true)) }
        ensures forbidden { IfOk result (λ x. IfSome x.1.reckless (λ s. NoneAnswersBehind true self.now told.now)) }
        ensures unanswered { IfOk result (λ x. x.1.unanswered ≡ true → NoneAnswersBehind true self.now told.now) }
        ensures found { IfOk result (λ x. FindsAgain self.now told.now x.1) }
        ensures course { IfOk result (λ x. GoesAgain self.now x.0 told.now) }
        ensures room { IfErr result (λ fault. fault ≡ AuditFault.Room → (c : Course) → IsAt self.now c →
            AreMany (May (goes_again self.now.kind told.now c).shapes)) }
    {
        let rca = address_told(&told.line, &self.known);
        let mut audit = Audit::any_state(self.alloc, self.kind, rca, self.known.lines)?;
        let found = audit.advance(told)?;
        Ok((
            audit,
            Findings {
                resumed: true,
                ..found
            },
        ))
    }

    /// Takes in a line that is no CMD0 at which the audit begins anew.
    fn follow(&mut self, told: &Told) -> Result<Findings, AuditFault>
        ensures kind { self.new.kind ≡ self.old.kind }
        ensures followed { IfOk result (Followed self.old self.new told.now) }
        ensures found { IfOk result (FindsHere self.old told.now) }
        ensures course { OnOk result (GoesHere self.old self.new told.now) }
        ensures same { OnErr result (self.new ≡ self.old) }
        ensures room { IfErr result (λ fault. fault ≡ AuditFault.Room → (c : Course) → IsAt self.old c →
            AreMany (May (course_here self.old.kind told.now c).shapes)) }
    {
        if !self.resumes(told) {
            return self.advance(told);
        }
        let (audit, findings) = self.again(told)?;
        *self = audit;
        Ok(findings)
    }

    /// Takes in a line.
    ///
    /// Where no shape is left, the audit goes on at the next event from any state: with the address that the line names, or
    /// that of the host. At a CMD0 it begins anew, as before the first command, with the data lines that the host uses.
    ///
    /// # Errors
    ///
    /// Where memory runs out, or a card could be in more than [`MAX_SHAPES`](crate::MAX_SHAPES) shapes. Nothing changes.
    pub fn next(&mut self, told: &Told) -> Result<Findings, AuditFault>
        ensures kind { self.new.kind ≡ self.old.kind }
        ensures restarted { IfOk result (λ found. found.restarted ≡ restarts self.old told.now) }
        ensures stands { IfOk result (λ found. (past : List TraceTold) →
            Behind found.restarted found.resumed self.old told.now past → Stands self.new (told.now ∷ past)) }
        ensures unanswered { IfOk result (λ found. found.unanswered ≡ true → (past : List TraceTold) →
            Behind found.restarted found.resumed self.old told.now past → NoneAnswers self.old.kind (told.now ∷ past)) }
        ensures followed { IfOk result (λ found. found.restarted ≡ false → Followed self.old self.new told.now found) }
        ensures anew { IfOk result (λ found. found.restarted ≡ true → (found.reckless ≡ None) × (found.beyond ≡ false)
            × (found.unanswered ≡ is_empty self.new.shapes.items)) }
        ensures found { IfOk result (Finds self.old told.now) }
        ensures course { OnOk result ((c : Course) → IsAt self.old c →
            IsAt self.new (course_after self.old.kind told.now c)) }
        ensures same { OnErr result (self.new ≡ self.old) }
        ensures room { IfErr result (λ fault. fault ≡ AuditFault.Room → (c : Course) → IsAt self.old c →
            AreMany (May (course_after self.old.kind told.now c).shapes)) }
    {
        if !self.restarts(told) {
            return self.follow(told);
        }
        let (audit, findings) = self.anew(told)?;
        *self = audit;
        Ok(findings)
    }
}

/// No shape is left, where there was one and the event was legal at each.
fn is_unanswered(reckless: Option<Shape>, before: &[Shape], after: &[Shape]) -> bool
    ensures { result ≡ is_unanswered reckless before.now after.now }
{
    after.is_empty() && reckless.is_none() && !before.is_empty()
}

/// The shape that a line names: none, where the card could be in any state and some shape allows the event.
fn left(running: bool, forbidden: bool, least: Option<Shape>) -> Option<Shape>
    ensures { result ≡ (if running && not forbidden then None else least) }
{
    if running && !forbidden { None } else { least }
}

fn either(a: bool, b: bool) -> bool
    ensures { result ≡ (a || b) }
{
    a || b
}

/// The turn forgets what came before.
fn is_resumed(turn: &Turn) -> bool
    ensures { result ≡ is_resumed turn.now }
{
    matches!(turn, Turn::Resumes { .. })
}

/// An event of a host, but no phase of a register: nothing tells its length.
fn is_event(line: &TraceLine) -> bool
    ensures { result ≡ is_event line.now }
{
    matches!(
        line,
        TraceLine::Exchange { .. }
            | TraceLine::BlocksIn { .. }
            | TraceLine::BlocksOut { .. }
            | TraceLine::Wait { .. }
    )
}

/// The relative address that a line names, or 0.
fn address_named(line: &TraceLine) -> u16
    ensures { result ≡ address_named line.now }
{
    match line {
        TraceLine::Exchange { command, .. } => address_in(*command),
        _ => 0,
    }
}

fn address_in(command: Command) -> u16
    ensures { result ≡ address_in command.index command.argument }
{
    match command.index {
        7 | 9 | 10 | 13 | 55 if command.argument % 65_536 == 0 => (command.argument >> 16) as u16,
        _ => 0,
    }
}

/// The relative address of the host from this line on.
fn address_told(line: &TraceLine, known: &HostKnown) -> u16
    ensures { result ≡ address_told line.now known.now }
{
    let named = address_named(line);
    if named == 0 { known.rca } else { named }
}

/// The line names another relative address than the host has.
fn is_other_address(line: &TraceLine, known: &HostKnown) -> bool
    ensures { result ≡ is_other_address line.now known.now }
{
    let named = address_named(line);
    named != 0 && named != known.rca
}

/// The turn is a CMD0.
fn is_reset(turn: &Turn) -> bool
    ensures { result ≡ is_reset turn.now }
{
    match turn {
        Turn::Does(Deed::Known(Event::Send(ask))) => ask.index == 0,
        _ => false,
    }
}

//! Watched runs beside simulated cards.

ghost use Rattle.std.specs.Prelude.{◌≡◌, ◌≢◌, List, IfErr, IfOk};
ghost use Rattle.std.specs.Io.KnownBytes.{Keeps};
ghost use Rattle.sdv_card.specs.Card.{Block};
ghost use Rattle.sdv_behavior.specs.CardOf.{card_of};
ghost use Rattle.sdv_check.specs.Verified.{IsGraphOfText, IsNoScript};
ghost use Rattle.sdv_refute.specs.Sight.{sight_of};
ghost use Rattle.sdv_refute.specs.Tries.{NotTried, Tries, TriesText, TryRefuses};
ghost use Rattle.sdv_sim.specs.Made.{IsUnread};

use crate::sight::{SeenPort, Sight};
use crate::watching::{Nobody, Onlooker, watch};
use crate::wrong::Watched;
use sdv_behavior::{CardDesc, CardState};
use sdv_controller::Controller;
use sdv_graph::Graph;
use sdv_image::{Image, SimFault};
use sdv_run::RunFault;
use sdv_script::{FaultKind, ScriptFault, parse};
use sdv_sim::Sim;
use std::alloc::{AllocError, Global};
use std::io::Write;

/// What is seen of a simulated card, whatever its image has.
fn sight(desc: &CardDesc, card: &CardState) -> Sight
    ensures { (blocks : List Block) → result ≡ sight_of (card_of desc.now card.now blocks) }
{
    Sight {
        state: card.state,
        transfer: card.transfer,
        erase: card.erase,
        block_unit: desc.block_unit,
        length_512: card.block_length == 512,
        app: card.app,
        rca: card.rca,
        mode: card.mode,
        preset: card.preset,
        capacity: desc.partition_size(card.mode.partition),
    }
}

impl<I: Image> SeenPort for Controller<Sim<I>> {
    fn look(&self) -> Sight {
        let sim = self.wire();
        sight(sim.desc(), sim.card())
    }
}

/// Why a run was not tried.
#[derive(Clone, Copy, Debug)]
pub enum TryFault {
    /// The text is no script.
    Script(ScriptFault),
    /// The script is for another kind of card.
    Kind,
    /// There is no such card.
    Card(SimFault),
    /// Memory was refused.
    Memory,
}

impl From<AllocError> for TryFault {
    ghost use Rattle.sdv_refute.specs.declared.simulated.TryFault.TheVariants.{Memory};

    ghost from_gives = { λ _ fault. fault ≡ Memory };

    fn from(_: AllocError) -> TryFault {
        TryFault::Memory
    }
}

/// What a script is tried beside.
#[derive(Clone, Copy)]
pub struct Beside<'a> {
    /// The card.
    pub desc: CardDesc,
    /// The values of the schedule, one for each event.
    pub schedule: &'a [u8],
    /// The blocks that the script gives.
    pub input: &'a [[u8; 512]],
    /// The trace has a line wherever the data lines of the host change.
    pub lines: bool,
}

/// The texts and blocks of a run that is tried.
#[derive(Clone, Copy)]
pub struct Given<'a> {
    /// The script.
    pub script: &'a str,
    /// The description of the card.
    pub card: &'a str,
    /// The values of the schedule, one for each event.
    pub schedule: &'a [u8],
    /// The blocks that the script gives.
    pub input: &'a [[u8; 512]],
    /// The trace has a line wherever the data lines of the host change.
    pub lines: bool,
}

/// A run that was tried.
#[derive(Drop)]
pub struct Tried<I: Image> {
    /// What it came to.
    pub result: Result<Watched, RunFault>,
    /// The image after it.
    pub image: I,
}

/// Runs a graph beside a simulated card over an image, and stops before what is not allowed at the card.
///
/// # Errors
///
/// [`TryFault::Kind`] and [`TryFault::Card`]: nothing was run.
pub fn try_graph<I: Image + Drop, O: Write, T: Write, L: Onlooker<Controller<Sim<I>>>>(
    alloc: Global,
    graph: &Graph<'_>,
    beside: Beside<'_>,
    image: I,
    out: &mut O,
    trace: &mut T,
    onlooker: &mut L,
) -> Result<Tried<I>, TryFault>
    ensures tried { IfOk result (λ tried. Tries beside.entry.lines graph.now beside.entry.desc beside.entry.schedule.now
        beside.entry.input.now (I.blocks image) (I.blocks tried.image)
        (O.contents out.old) (O.contents out.new) (T.contents trace.old) (T.contents trace.new) tried.result) }
    ensures refused { IfErr result (NotTried graph.now beside.entry.desc beside.entry.schedule.now (I.size image)
        (IsUnread I.size I.blocks I.failed image)) }
    ensures quiet { IfErr result (λ _. Keeps (T.contents trace.old) (T.contents trace.new)) }
{
    if graph.kind() != beside.desc.kind {
        return Err(TryFault::Kind);
    }
    let sim = match Sim::with_named_values(alloc, beside.desc, image, beside.schedule) {
        Ok(sim) => sim,
        Err(fault) => return Err(TryFault::Card(fault)),
    };
    let mut port = Controller::new(sim);
    let result = watch(
        alloc,
        graph,
        beside.lines,
        &mut port,
        beside.input,
        out,
        trace,
        onlooker,
    );
    Ok(Tried {
        result,
        image: port.into_wire().into_image(),
    })
}

/// Runs the script of a text beside the simulated card of a description, over an image, and stops before what is not
/// allowed at the card.
///
/// # Errors
///
/// The first of these; nothing was run: [`TryFault::Script`], [`TryFault::Card`] for the description, and the faults of
/// [`try_graph`].
pub fn try_text<I: Image + Drop, O: Write, T: Write>(
    alloc: Global,
    given: &Given<'_>,
    image: I,
    out: &mut O,
    trace: &mut T,
) -> Result<Tried<I>, TryFault>
    ensures tried { IfOk result (λ tried. TriesText given.now.lines given.now.script.now given.now.card.now
        given.now.schedule.now given.now.input.now (I.blocks image) (I.blocks tried.image)
        (O.contents out.old) (O.contents out.new) (T.contents trace.old) (T.contents trace.new) tried.result) }
    ensures refused { IfErr result (TryRefuses given.now.script.now given.now.card.now given.now.schedule.now
        (I.size image) (IsUnread I.size I.blocks I.failed image)) }
    ensures quiet { IfErr result (λ _. Keeps (T.contents trace.old) (T.contents trace.new)) }
{
    let graph = match graph_of_text(alloc, given.script) {
        Ok(graph) => graph,
        Err(fault) => return Err(TryFault::Script(fault)),
    };
    let desc = match CardDesc::parse(given.card) {
        Ok(desc) => desc,
        Err(fault) => return Err(TryFault::Card(fault)),
    };
    let beside = Beside {
        desc,
        schedule: given.schedule,
        input: given.input,
        lines: given.lines,
    };
    try_graph(alloc, &graph, beside, image, out, trace, &mut Nobody)
}

/// The graph of the script that a text is.
pub fn graph_of_text<'a>(alloc: Global, text: &'a str) -> Result<Graph<'a>, ScriptFault>
    ensures graph { IfOk result (λ g. IsGraphOfText text.entry.now g) }
    ensures refused { IfErr result (λ fault. fault.kind ≢ FaultKind.Memory → IsNoScript text.entry.now) }
{
    match parse(alloc, text) {
        Ok(script) => script.graph(alloc),
        Err(fault) => Err(fault),
    }
}

//! What a run makes of what its events return.

ghost use Rattle.std.specs.Prelude.{◌≡◌, OnOk, OnErr};
ghost use Rattle.sdv_graph.specs.Graph.{seen_action};
ghost use Rattle.sdv_graph.specs.Path.{action_move};
ghost use Rattle.sdv_run.specs.Standing.{host_of, stand_of};
ghost use Rattle.sdv_run.specs.Moves.{IsNarrow};
ghost use Rattle.sdv_run.specs.Takes.{Hears, TakesPhase, Took, IsLedTo, IsEvent};

use crate::fault::RunFault;
use crate::guards::way;
use crate::host::HostState;
use crate::returned::Returned;
use crate::standing::Standing;
use sdv_card::state_table::order;
use sdv_card::{Answer, Ask, DataEnd, WaitEnd, expect};
use sdv_graph::{Action, Phase};

/// Takes in what came of a command.
///
/// # Errors
///
/// [`RunFault::Reply`] for an answer that a run does not go on with. Nothing is taken in.
fn take_answer(host: &mut HostState, ask: &Ask, answer: &Answer) -> Result<(), RunFault>
    ensures heard { Hears host.old.kind ask.now answer.now (host_of host.old) (host_of host.new) result }
    ensures kind { host.new.kind ≡ host.old.kind }
{
    let order = order(host.kind, ask);
    if !answer.is_of_kind(expect(order, ask.index)) {
        return Err(RunFault::Reply);
    }
    host.hear(order, answer).map_err(|_| RunFault::Reply)
}

/// Takes in what a phase or a wait returned, and answers whether it ended well.
///
/// # Errors
///
/// [`RunFault::Reply`] for what another event returned. Nothing is taken in.
fn take_phase(host: &mut HostState, phase: Phase, returned: &Returned) -> Result<bool, RunFault>
    ensures taken { TakesPhase host.old.kind phase returned.now (host_of host.old) (host_of host.new) result }
    ensures refused { OnErr result (host_of host.new ≡ host_of host.old) }
    ensures kind { host.new.kind ≡ host.old.kind }
{
    match (phase, returned) {
        (Phase::ReceiveBlocks, Returned::BlocksIn(end))
        | (Phase::GiveBlocks, Returned::BlocksOut(end)) => Ok(*end == DataEnd::Ok),
        (Phase::ReceiveRegister, Returned::RegisterIn(end, register)) => {
            let ended_well = *end == DataEnd::Ok;
            if ended_well && host.register_length == 512 {
                host.ext_csd = Some(*register);
            }
            Ok(ended_well)
        }
        (Phase::Wait, Returned::Waited(end)) => Ok(*end == WaitEnd::Ok),
        _ => Err(RunFault::Reply),
    }
}

/// Goes on from the event of a point, by what it returned.
///
/// # Errors
///
/// [`RunFault::Reply`] for an answer that a run does not go on with, or for what another event returned. The run stands
/// where it stood.
pub fn take(
    action: &Action<'_>,
    standing: &mut Standing,
    returned: &Returned,
) -> Result<(), RunFault>
    requires event { IsEvent (action_move standing.old.host.kind (seen_action action.now)
        standing.old.turns.items (host_of standing.old.host)) }
    requires narrow { IsNarrow (action_move standing.old.host.kind (seen_action action.now)
        standing.old.turns.items (host_of standing.old.host)) }
    ensures took { Took standing.old.host.kind (action_move standing.old.host.kind (seen_action action.now)
        standing.old.turns.items (host_of standing.old.host)) returned.now (stand_of standing.new) result }
    ensures led { OnOk result (IsLedTo (action_move standing.old.host.kind (seen_action action.now)
        standing.old.turns.items (host_of standing.old.host)) (stand_of standing.new)) }
    ensures refused { OnErr result (stand_of standing.new ≡ stand_of standing.old) }
    ensures kind { standing.new.host.kind ≡ standing.old.host.kind }
{
    match action {
        Action::Send(command, cases, other) => {
            let Returned::Answered(answer) = returned else {
                return Err(RunFault::Reply);
            };
            take_answer(&mut standing.host, &command.ask, answer)?;
            standing.go_to(way(standing.host.kind, cases, *other, answer));
            Ok(())
        }
        Action::Phase(phase, well, other) => {
            let ended_well = take_phase(&mut standing.host, *phase, returned)?;
            standing.go_on(ended_well, *well, *other);
            Ok(())
        }
        _ => unreachable!(),
    }
}

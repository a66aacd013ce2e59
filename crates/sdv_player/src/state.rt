//! The state of a player.

use crate::host::HostNumbers;
use crate::place::Place;

/// Where a run stands, and what its host knows. The caller keeps it, and need not look into it.
#[repr(C)]
#[derive(Clone, Copy, Debug)]
pub struct State {
    /// What the host knows.
    pub host: HostNumbers,
    /// How many moves the run still makes at most.
    pub moves: u64,
    /// How many commands it still asks for at most. One is taken off with its answer.
    pub commands: u64,
    /// Where it stands.
    pub place: Place,
    /// Not 0 where the event of the point was asked for.
    pub asked: u32,
    /// Not 0 where the last command was taken as CMD55: its answer was an R1 with APP_CMD.
    pub app: u32,
}

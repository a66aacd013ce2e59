//! Tables of scripts, played over a port that plays a list.

use crate::common::{graph_of, same};
use crate::listed_port::{Play, PlayPort};
use crate::scripts::BRING_UP;
use sdv_card::{Answer, DataEnd};
use sdv_frames::{FrameFault, Reply};
use sdv_player::{HostNumbers, Next, Place, State, play, start};
use sdv_run::RunFault;
use sdv_table::encode;

// A script that writes two blocks, and reads one.
const WRITE_AND_READ: &str = "card sd
send 25 at block 0 count 2 { clean { give { ok { } else { fault write } } } else { fault lost } }
send 17 at block 0 { clean { recv { ok { } else { fault read } } } else { fault lost } }
done
";

// What a card with block addresses answers to the commands of a bring-up.
const SENT: Play = Play::Answer(Answer::Sent);

const ECHO: Play = Play::Reply(Reply::R7(0x1aa));

const TAKES_APP: Play = Play::R1(55, 0x120);

const READY: Play = Play::Reply(Reply::R3(0xc0ff_8000));

const CID: Play = Play::Reply(Reply::R2([0; 15]));

const ADDRESS: Play = Play::Reply(Reply::R6(0x1234_0500));

const CSD: Play = Play::Reply(Reply::R2([0x40, 0, 0, 0, 0, 0x09, 0, 0, 0, 0, 0, 0, 0, 0, 0]));

const SELECTED: Play = Play::R1(7, 0x700);

const LENGTH_SET: Play = Play::R1(16, 0x900);

const DAMAGED: Play = Play::Answer(Answer::Damaged(FrameFault::Crc));

const CARD: [Play; 9] = [
    SENT, ECHO, TAKES_APP, READY, CID, ADDRESS, CSD, SELECTED, LENGTH_SET,
];

// The same, and the answer to CMD8 is damaged.
const DAMAGED_ECHO: [Play; 9] = [
    SENT, DAMAGED, TAKES_APP, READY, CID, ADDRESS, CSD, SELECTED, LENGTH_SET,
];

// How a run of a table ended, or stopped.
fn name_of(outcome: &Result<Next<'_>, RunFault>) -> &'static str {
    match outcome {
        Ok(Next::Event(_)) => "event",
        Ok(Next::Done) => "done",
        Ok(Next::Fault(_)) => "fault",
        Ok(Next::Number) => "number",
        Ok(Next::Stopped) => "stopped",
        Err(RunFault::Reply) => "Reply",
        Err(RunFault::Input) => "Input",
        Err(RunFault::Memory) => "Memory",
        Err(_) => "another fault",
    }
}

// A run of a table that asks for at most so many commands, with so many blocks to give.
struct Run {
    script: &'static str,
    commands: u64,
    blocks: usize,
    plays: &'static [Play],
    // how it ends, after how many calls, and what is answered where it is played on from there: no call is made
    end: &'static str,
    calls: usize,
    again: &'static str,
}

static RUNS: [Run; 9] = [
    Run {
        script: BRING_UP,
        commands: 9,
        blocks: 0,
        plays: &CARD,
        end: "done",
        calls: 9,
        again: "done",
    },
    // one command more than the table says
    Run {
        script: BRING_UP,
        commands: 8,
        blocks: 0,
        plays: &CARD,
        end: "stopped",
        calls: 8,
        again: "stopped",
    },
    // a damaged answer to CMD8 is a lost one, which the script passes over
    Run {
        script: BRING_UP,
        commands: 9,
        blocks: 0,
        plays: &DAMAGED_ECHO,
        end: "done",
        calls: 9,
        again: "done",
    },
    // a damaged answer to CMD55 ends the script as a lost one does
    Run {
        script: BRING_UP,
        commands: 9,
        blocks: 0,
        plays: &[SENT, ECHO, DAMAGED],
        end: "fault",
        calls: 3,
        again: "fault",
    },
    // CMD0 has no answer that could be damaged
    Run {
        script: BRING_UP,
        commands: 9,
        blocks: 0,
        plays: &[DAMAGED],
        end: "Reply",
        calls: 1,
        again: "stopped",
    },
    // a command that waits for a response is not only sent
    Run {
        script: BRING_UP,
        commands: 9,
        blocks: 0,
        plays: &[SENT, ECHO, SENT],
        end: "Reply",
        calls: 3,
        again: "stopped",
    },
    Run {
        script: WRITE_AND_READ,
        commands: 2,
        blocks: 2,
        plays: &[
            Play::R1(25, 0x900),
            Play::Data(DataEnd::Ok, 0),
            Play::R1(17, 0x900),
            Play::Data(DataEnd::Ok, 0x5a),
        ],
        end: "done",
        calls: 4,
        again: "done",
    },
    Run {
        script: WRITE_AND_READ,
        commands: 2,
        blocks: 2,
        plays: &[Play::R1(25, 0x900), Play::Data(DataEnd::Cut, 0)],
        end: "fault",
        calls: 2,
        again: "fault",
    },
    // there is one block less than the phase gives
    Run {
        script: WRITE_AND_READ,
        commands: 2,
        blocks: 1,
        plays: &[Play::R1(25, 0x900)],
        end: "Input",
        calls: 1,
        again: "Input",
    },
];

#[test]
fn tables_are_played(rt: HostRuntime) {
    let alloc = rt.alloc();
    for run in RUNS.iter() {
        let graph = graph_of(alloc, run.script).expect(&rt, "a script");
        let words = encode(alloc, &graph, run.commands).expect(&rt, "a table");
        let mut state = State {
            host: HostNumbers::at_start(0, 0),
            moves: 0,
            commands: 0,
            place: Place::nowhere(),
            asked: 0,
            app: 0,
        };
        assert!(rt; start(&words, &mut state) && run.blocks <= 2);
        let mut port = PlayPort::new(run.plays);
        let (mut held, given) = ([[0; 512]], [[0x5a; 512]; 2]);
        let mut input = &given[..run.blocks];
        for (name, place) in [(run.end, 0), (run.again, 1)] {
            let outcome = play(&words, &mut state, &mut held, &mut input, &mut port);
            let found = (name_of(&outcome), port.calls);
            same(
                &rt,
                &found,
                &(name, run.calls),
                &(run.end, run.calls, place),
            );
        }
    }
}

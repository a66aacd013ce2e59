//! Runs over ports that answer anything.

use crate::common::{graph_of, same};
use crate::hostile::names::{Counts, name_of_run};
use crate::hostile::port::{FAULTS, HostilePort};
use crate::hostile::wire::HostileWire;
use crate::scripts::{BRING_UP, DEVICE_BRING_UP};
use sdv_card::Answer;
use sdv_controller::Controller;
use sdv_frames::{Expect, Reply};
use sdv_registers::Kind;
use sdv_run::{End, RunFault, run_graph};
use sdv_script::Graph;
use std::alloc::Global;
use std::process::Abort;
use std::str;

/// Every command of an SD card, every phase and every guard, twenty times.
const EVERYTHING: &str = "card sd
flags f g
nums x y
loop 20 {
send 0 { else { } }
send 8 { echo { set f } timeout { clear f } else { } }
send 55 { app { set g } answer { clear g } else { } }
send 41 0x40ff8000 { ocr.ready & ocr.block { set f } ocr.ready { clear f } else { } }
send 41 0x00ff8000 { ocr.block { } answer { clear f } else { set f } }
send 2 { answer { } else { } }
send 3 { clean & state=stby { } ready { set g } else { } }
send 10 { else { } }
send 9 { answer { let x = csd.blocks } else { } }
send 7 { clean & ready { } else { } }
send 7 none { answer { } else { fault kept } }
send 12 { state=data { } state=rcv { } else { } }
send 13 { clean & state=tran { } state=prg { wait { ok { } else { } } } else { } }
recv reg { ok { } else { } }
send 16 { clean { } else { } }
if x >= 8 { let y = x - 8 } else { let y = x + 1 }
send 17 at by f y + 7 { clean { recv { ok { } else { break } } } else { } }
send 18 at byte 3 count 3 { clean { recv { ok { } else { } } } else { } }
send 12 { else { } }
send 24 at block y { clean { give { ok { } else { } } } else { } }
send 25 at by g 5 count 2 { clean { give { ok { } else { } } } else { } }
wait { ok { } else { } }
send 32 at by g 1 { else { } }
send 33 at byte 2 { else { } }
send 38 { else { } }
send 51 { clean { recv reg { ok { } else { break } } } else { } }
if y < 100 { break } else { }
} else { fault turns }
done
";

/// The same of an e.MMC device.
const DEVICE_EVERYTHING: &str = "card emmc
flags f g
nums x y
loop 20 {
send 0 { else { } }
send 1 { ocr.ready & ocr.block { set f } ocr.ready { clear f } else { } }
send 2 { answer { } else { } }
send 3 { clean & state=ident { } ready { set g } else { } }
send 10 { else { } }
send 9 { answer { let y = csd.blocks } else { } }
send 7 { clean & ready { } else { } }
send 8 { clean { recv reg { ok { let x = ext.blocks } else { } } } else { } }
send 7 none { answer { } else { fault kept } }
send 12 { state=data { } state=rcv { } else { } }
send 13 { clean & state=tran { } state=prg { wait { ok { } else { } } } else { } }
recv reg { ok { } else { } }
send 16 { clean { } else { } }
if x >= 8 { let y = x - 8 } else { let y = x + 1 }
send 17 at by f y + 7 { clean { recv { ok { } else { break } } } else { } }
send 23 count 3 { else { } }
send 18 at byte 3 count 3 { clean { recv { ok { } else { } } } else { } }
send 12 { else { } }
send 24 at block y { clean { give { ok { } else { } } } else { } }
send 25 at by g 5 count 2 { clean { give { ok { } else { } } } else { } }
wait { ok { } else { } }
send 35 at by g 1 { else { } }
send 36 at byte 2 { else { } }
send 38 0 { else { } }
send 38 1 { else { } }
send 38 3 { else { } }
if y < 100 { break } else { }
} else { fault turns }
done
";

/// The input: blocks that begin with their numbers.
fn input_blocks(rt: &impl Abort, alloc: Global, count: u8) -> Vec<[u8; 512]> {
    let mut blocks = Vec::new(alloc);
    for number in 0..count {
        blocks.push([number; 512]).expect(rt, "memory");
    }
    blocks
}

/// Whether this is the last line of a run that ended so.
fn is_last_line(line: &str, end: &End) -> bool {
    match end {
        End::Done => line == "done\n",
        End::Fault(name) => match line.strip_prefix("fault ") {
            Some(rest) => rest.strip_suffix("\n") == Some(name.as_str()),
            None => false,
        },
    }
}

/// Whether the trace of a run says what happened at the port, as far as its outcome has it.
fn is_trace(outcome: &Result<End, RunFault>, port: &HostilePort, trace: &str) -> bool {
    let lines = port.lines.as_str();
    match outcome {
        Ok(end) => match trace.strip_prefix(lines) {
            Some(last) => port.taken && is_last_line(last, end),
            None => false,
        },
        // the last answer is not printed where it is refused; an address of more than 32 bits is not sent
        Err(RunFault::Reply) if !port.taken => Some(trace) == lines.get(..port.last),
        Err(RunFault::Reply | RunFault::Input) => port.taken && trace == lines,
        Err(_) => false,
    }
}

/// Whether the blocks given are the first of the input, in their order.
fn is_front_of_input(given: &[u8]) -> bool {
    given
        .iter()
        .enumerate()
        .all(|(number, byte)| *byte as usize == number)
}

/// Stops the test where something does not hold of a run; the message shows its trace and the lines of its port.
fn told(rt: &impl Abort, holds: bool, trace: &str, lines: &str) {
    assert!(rt; holds, "{trace}\nfor\n{lines}");
}

/// A run over a port or a wire says what happened there.
fn assert_told(
    rt: &impl Abort,
    outcome: &Result<End, RunFault>,
    port: &HostilePort,
    out: &[u8],
    trace: &[u8],
) {
    let trace = str::from_utf8(trace).expect(rt, "a text");
    let lines = port.lines.as_str();
    told(rt, is_trace(outcome, port, trace), trace, lines);
    told(rt, out == port.output.as_slice(), trace, lines);
    told(rt, is_front_of_input(port.given.as_slice()), trace, lines);
}

/// Runs a script over a port: its outcome, where trace and output say what happened there.
fn run_over(
    rt: &impl Abort,
    alloc: Global,
    graph: &Graph<'_>,
    port: &mut HostilePort,
    input: &[[u8; 512]],
) -> Result<End, RunFault> {
    let (mut out, mut trace) = (Vec::new(alloc), Vec::new(alloc));
    let outcome = run_graph(alloc, graph, port, input, &mut out, &mut trace);
    assert_told(rt, &outcome, port, &out, &trace);
    outcome
}

/// The same over a wire, behind a controller.
fn run_over_wire(
    rt: &impl Abort,
    alloc: Global,
    graph: &Graph<'_>,
    port: HostilePort,
    input: &[[u8; 512]],
) -> Result<End, RunFault> {
    let (mut out, mut trace) = (Vec::new(alloc), Vec::new(alloc));
    let mut controller = Controller::new(HostileWire { port });
    let outcome = run_graph(alloc, graph, &mut controller, input, &mut out, &mut trace);
    let port = controller.into_wire().port;
    assert_told(rt, &outcome, &port, &out, &trace);
    outcome
}

/// Scripts with their names, and one in how many answers is of any kind.
static RUNS: [(&str, Kind, &str, u32); 8] = [
    ("all commands", Kind::Sd, EVERYTHING, 0),
    ("all commands", Kind::Sd, EVERYTHING, 100),
    ("bring-up", Kind::Sd, BRING_UP, 0),
    ("bring-up", Kind::Sd, BRING_UP, 10),
    ("all commands of a device", Kind::Emmc, DEVICE_EVERYTHING, 0),
    (
        "all commands of a device",
        Kind::Emmc,
        DEVICE_EVERYTHING,
        100,
    ),
    ("bring-up of a device", Kind::Emmc, DEVICE_BRING_UP, 0),
    ("bring-up of a device", Kind::Emmc, DEVICE_BRING_UP, 10),
];

/// How often each end comes.
const ENDS: &str = "\
all commands, 0: done 379, Reply 103, Input 18
all commands, 100: done 245, Reply 254, Input 1
bring-up, 0: done 298, rca 43, blen 39, cid 13, csd 6, select 37, lost41 13, lost55 46, Reply 5
bring-up, 10: Reply 222, done 153, cid 10, lost55 48, rca 18, lost41 14, select 12, blen 16, csd 7
all commands of a device, 0: done 324, Input 48, Reply 128
all commands of a device, 100: done 197, Reply 300, Input 3
bring-up of a device, 0: done 264, rca 46, Reply 16, ext 61, lost1 19, select 39, csd 10, blen 32, cid 13
bring-up of a device, 10: Reply 213, done 113, rca 44, ext 33, select 32, cid 17, lost1 15, blen 23, csd 10
";

/// What runs go over.
#[derive(Clone, Copy, PartialEq, Eq)]
enum Way {
    Port,
    Wire,
}

/// The outcome of a run that goes over a port or a wire.
fn end_of(
    rt: &impl Abort,
    alloc: Global,
    way: Way,
    graph: &Graph<'_>,
    mut port: HostilePort,
    input: &[[u8; 512]],
) -> Result<End, RunFault> {
    match way {
        Way::Port => run_over(rt, alloc, graph, &mut port, input),
        Way::Wire => run_over_wire(rt, alloc, graph, port, input),
    }
}

/// How often each end comes of five hundred runs of a script.
fn ends_of(
    rt: &impl Abort,
    alloc: Global,
    way: Way,
    kind: Kind,
    text: &str,
    others: u32,
) -> String {
    let input = input_blocks(rt, alloc, 30);
    let graph = graph_of(alloc, text).expect(rt, "a script");
    let mut counts = Counts::new(alloc);
    for seed in 0..500 {
        let port = HostilePort::new(alloc, kind, seed, others);
        let outcome = end_of(rt, alloc, way, &graph, port, &input);
        counts.add(rt, name_of_run(&outcome));
    }
    counts.text(rt)
}

/// The same of each script. A wire does not see whether an answer is asked for after CMD7, so that none goes over it for which
/// there is none.
fn all_ends(rt: &impl Abort, alloc: Global, way: Way) -> String {
    let mut found = String::new(alloc);
    let none = if way == Way::Wire { "" } else { " none" };
    for row in RUNS.iter() {
        let (name, kind, text, others) = *row;
        let text = text.replace(alloc, " none", none).expect(rt, "memory");
        let ends = ends_of(rt, alloc, way, kind, &text, others);
        write!(found, "{name}, {others}: {ends}\n").expect(rt, "memory");
    }
    found
}

#[test]
fn runs_over_any_port(rt: HostRuntime) {
    let found = all_ends(&rt, rt.alloc(), Way::Port);
    same(&rt, &found.as_str(), &ENDS, &"over a port");
}

/// How often each end comes over a wire.
const ENDS_OVER_WIRES: &str = "\
all commands, 0: done 329, kept 51, Input 15, Reply 105
all commands, 100: done 228, Reply 233, kept 38, Input 1
bring-up, 0: done 285, cid 19, lost55 56, rca 31, lost41 13, select 37, Reply 13, blen 31, csd 15
bring-up, 10: done 149, cid 19, Reply 198, lost55 52, select 23, lost41 16, csd 14, blen 11, rca 18
all commands of a device, 0: done 270, Reply 140, Input 34, kept 56
all commands of a device, 100: Reply 271, done 184, kept 38, Input 7
bring-up of a device, 0: done 243, ext 71, rca 57, lost1 18, blen 35, select 38, csd 11, Reply 12, cid 15
bring-up of a device, 10: done 126, Reply 164, blen 24, ext 39, rca 45, cid 16, csd 22, lost1 33, select 31
";

#[test]
fn runs_over_any_wire(rt: HostRuntime) {
    let found = all_ends(&rt, rt.alloc(), Way::Wire);
    same(&rt, &found.as_str(), &ENDS_OVER_WIRES, &"over a wire");
}

/// Every kind of answer, but for an R1 of the command's own index and for damaged ones. The second R2 is a CSD that cannot
/// be read.
static ANSWERS: [Answer; 9] = [
    Answer::Sent,
    Answer::TimeOut,
    Answer::Reply(Reply::R1 {
        index: 61,
        status: 0x900,
    }),
    Answer::Reply(Reply::R2([
        0, 0, 0, 0, 0, 0x09, 0x03, 0xff, 0xc0, 0x03, 0x80, 0, 0, 0, 0,
    ])),
    Answer::Reply(Reply::R2([
        0xc0, 0, 0, 0, 0, 0x0c, 0x03, 0xff, 0xc0, 0x03, 0x80, 0, 0, 0, 0,
    ])),
    Answer::Reply(Reply::R3(0xc0ff_8080)),
    Answer::Reply(Reply::R6(0x0001_0500)),
    Answer::Reply(Reply::R7(0x1aa)),
    Answer::Reply(Reply::R1 {
        index: 0,
        status: 0xffff_ffff,
    }),
];

/// Commands with what they ask for.
static COMMANDS: [(Kind, &str, Expect); 44] = [
    (Kind::Sd, "0", Expect::Nothing),
    (Kind::Sd, "2", Expect::R2),
    (Kind::Sd, "3", Expect::R6),
    (Kind::Sd, "7", Expect::R1(7)),
    (Kind::Sd, "7 none", Expect::Nothing),
    (Kind::Sd, "8", Expect::R7),
    (Kind::Sd, "9", Expect::R2),
    (Kind::Sd, "10", Expect::R2),
    (Kind::Sd, "12", Expect::R1(12)),
    (Kind::Sd, "13", Expect::R1(13)),
    (Kind::Sd, "16", Expect::R1(16)),
    (Kind::Sd, "17 at block 0", Expect::R1(17)),
    (Kind::Sd, "18 at block 0 count 2", Expect::R1(18)),
    (Kind::Sd, "24 at block 0", Expect::R1(24)),
    (Kind::Sd, "25 at block 0 count 2", Expect::R1(25)),
    (Kind::Sd, "32 at block 0", Expect::R1(32)),
    (Kind::Sd, "33 at block 0", Expect::R1(33)),
    (Kind::Sd, "38", Expect::R1(38)),
    (Kind::Sd, "41 0x40ff8000", Expect::R3),
    (Kind::Sd, "41 0x00ff8000", Expect::R3),
    (Kind::Sd, "51", Expect::R1(51)),
    (Kind::Sd, "55", Expect::R1(55)),
    (Kind::Emmc, "0", Expect::Nothing),
    (Kind::Emmc, "1", Expect::R3),
    (Kind::Emmc, "2", Expect::R2),
    (Kind::Emmc, "3", Expect::R1(3)),
    (Kind::Emmc, "7", Expect::R1(7)),
    (Kind::Emmc, "7 none", Expect::Nothing),
    (Kind::Emmc, "8", Expect::R1(8)),
    (Kind::Emmc, "9", Expect::R2),
    (Kind::Emmc, "10", Expect::R2),
    (Kind::Emmc, "12", Expect::R1(12)),
    (Kind::Emmc, "13", Expect::R1(13)),
    (Kind::Emmc, "16", Expect::R1(16)),
    (Kind::Emmc, "17 at block 0", Expect::R1(17)),
    (Kind::Emmc, "18 at block 0 count 2", Expect::R1(18)),
    (Kind::Emmc, "23 count 2", Expect::R1(23)),
    (Kind::Emmc, "24 at byte 0", Expect::R1(24)),
    (Kind::Emmc, "25 at block 0 count 2", Expect::R1(25)),
    (Kind::Emmc, "35 at block 0", Expect::R1(35)),
    (Kind::Emmc, "36 at block 0", Expect::R1(36)),
    (Kind::Emmc, "38 0", Expect::R1(38)),
    (Kind::Emmc, "38 1", Expect::R1(38)),
    (Kind::Emmc, "38 3", Expect::R1(38)),
];

/// The answers that a command is given.
fn answers_to(rt: &impl Abort, alloc: Global, expect: Expect) -> Vec<Answer> {
    let mut answers = Vec::new(alloc);
    for answer in ANSWERS {
        answers.push(answer).expect(rt, "memory");
    }
    for fault in FAULTS {
        answers.push(Answer::Damaged(fault)).expect(rt, "memory");
    }
    if let Expect::R1(index) = expect {
        let status = 0xfdf9_0080;
        let answer = Answer::Reply(Reply::R1 { index, status });
        answers.push(answer).expect(rt, "memory");
    }
    answers
}

/// Whether a run of a command goes on with the answer: it stops at each other one.
fn is_taken(
    rt: &impl Abort,
    alloc: Global,
    graph: &Graph<'_>,
    (kind, command, expect): (Kind, &str, Expect),
    answer: Answer,
) -> bool {
    let mut port = HostilePort::answering(alloc, kind, answer);
    let outcome = run_over(rt, alloc, graph, &mut port, &[]);
    same(rt, &port.asked, &expect, &command);
    let wanted = if port.taken { "done" } else { "Reply" };
    same(rt, &name_of_run(&outcome), &wanted, &(command, answer));
    port.taken
}

/// How many answers to a command a run goes on with.
fn taken_of(rt: &impl Abort, alloc: Global, row: &(Kind, &str, Expect)) -> usize {
    let (kind, command, expect) = *row;
    let card = if kind == Kind::Sd { "sd" } else { "emmc" };
    let text = format!(in alloc; "card {card} send {command} {{ else {{ }} }} done");
    let text = text.expect(rt, "memory");
    let graph = graph_of(alloc, &text).expect(rt, "a script");
    let mut taken: usize = 0;
    for answer in answers_to(rt, alloc, expect) {
        let goes_on = is_taken(rt, alloc, &graph, *row, answer);
        taken = taken.saturating_add(goes_on as usize);
    }
    taken
}

#[test]
fn answers_to_commands(rt: HostRuntime) {
    for row in COMMANDS.iter() {
        // one answer, or also none; any CID, and one of the two CSDs
        let wanted = match row.2 {
            Expect::Nothing => 1,
            Expect::R2 if row.1 != "9" => 3,
            _ => 2,
        };
        same(&rt, &taken_of(&rt, rt.alloc(), row), &wanted, &row.1);
    }
}

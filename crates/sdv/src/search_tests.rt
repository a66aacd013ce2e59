//! Searches that break off, and paths of the state tables that are too short or too long. `sdv verify` shows the others.
use sdv_broken_paths::{Path, Turn, break_of};
use sdv_card::START_SHAPES;
use sdv_paths::Choice;
use sdv_script::parse;
use sdv_search::{Found, refute};
use std::alloc::Global;
use std::process::Abort;

/// CMD2 comes to a card in idle state: each run breaks the script.
const EARLY: &str = "card sd
send 0 { else { } }
send 2 { answer { } else { fault cid } }
done
";

/// CMD2 may come to a card in idle state, but beside no simulated card: with block addresses none is ready that took no CMD8.
const UNCHECKED: &str = "card sd
send 0 { else { } }
send 55 { app { send 41 0x40ff8000 { ocr.ready & ocr.block { send 0 { else { } } send 2 { else { } } } else { } } } else { } }
fault stop
";

fn search(rt: &impl Abort, alloc: Global, script: &str, budget: u64) -> Found {
    let script = parse(alloc, script).expect(rt, "a script");
    let graph = script.graph(alloc).expect(rt, "a graph");
    refute(alloc, &script, &graph, &[], budget).expect(rt, "a search")
}

/// Without a budget no run is tried; one of one event allows one run.
#[test]
fn a_search_ends_with_its_budget(rt: HostRuntime) {
    for (script, budget) in [(EARLY, 0), (UNCHECKED, 1)] {
        let found = search(&rt, rt.alloc(), script, budget);
        assert!(rt; found.refutations.is_empty() && !found.unbreakable);
    }
    let mut found = search(&rt, rt.alloc(), EARLY, 1).refutations;
    let run = found.pop().expect(&rt, "a run");
    assert!(rt; found.is_empty() && run.schedule.is_empty());
    let trace = b"CMD0 00000000 -\nwrong CMD2 00000000\n".as_slice();
    assert!(rt; run.trace.as_slice() == trace);
}

/// Whether a path breaks the script that takes the first outcome of so many events.
fn breaks(rt: &impl Abort, alloc: Global, events: usize) -> bool {
    let script = parse(alloc, EARLY).expect(rt, "a script");
    let graph = script.graph(alloc).expect(rt, "a graph");
    let mut path = Path {
        start: START_SHAPES[2],
        turns: Vec::new(alloc),
    };
    for _ in 0..events {
        path.turns
            .push(Turn {
                outcome: 0,
                choice: Choice::of(0),
            })
            .expect(rt, "memory");
    }
    let found = break_of(alloc, &graph, &path).expect(rt, "memory");
    found.is_some()
}

/// The script breaks behind its first event. A path has a turn for each event.
#[test]
fn a_path_ends_where_it_breaks_the_script(rt: HostRuntime) {
    for (events, wanted) in [(0, false), (1, true), (2, false)] {
        assert!(rt; breaks(&rt, rt.alloc(), events) == wanted);
    }
}

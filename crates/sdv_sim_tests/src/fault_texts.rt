//! The texts of the faults of simulated cards, runs and requests, to the letter.

use crate::shared::same;
use sdv_block::BlockFault;
use sdv_certify::CertifyFault;
use sdv_check::{CheckFault, VerifyFault};
use sdv_image::SimFault;
use sdv_run::RunFault;

/// Why there is no simulated card.
static OF_CARDS: [(SimFault, &str); 5] = [
    (
        SimFault::Description,
        "the description or the schedule is not as it must be",
    ),
    (SimFault::Capacity, "the card would have too many blocks"),
    (SimFault::ImageLength, "the image has another length"),
    (SimFault::ImageRead, "the image cannot be read"),
    (SimFault::Memory, "out of memory"),
];

#[test]
fn of_cards(rt: HostRuntime) {
    for &(fault, text) in OF_CARDS.iter() {
        let printed = fault.to_string(rt.alloc()).expect(&rt, "memory");
        same(&rt, &printed.as_str(), &text, &fault);
    }
}

/// Why a run stopped before its end.
static OF_RUNS: [(RunFault, &str); 5] = [
    (
        RunFault::Reply,
        "an answer of the card cannot be used, or an address needs more than 32 bits",
    ),
    (RunFault::Input, "the input has too few blocks"),
    (RunFault::Output, "the output failed"),
    (RunFault::Trace, "the trace failed"),
    (RunFault::Memory, "out of memory"),
];

#[test]
fn of_runs(rt: HostRuntime) {
    for &(fault, text) in OF_RUNS.iter() {
        let printed = fault.to_string(rt.alloc()).expect(&rt, "memory");
        same(&rt, &printed.as_str(), &text, &fault);
    }
}

/// Why requests were not served.
static OF_REQUESTS: [(BlockFault, &str); 7] = [
    (BlockFault::Empty, "there is no request"),
    (
        BlockFault::Range,
        "a request has no block, more than 65,535, or one that no card has",
    ),
    (
        BlockFault::Limit,
        "the script of the requests would break a limit",
    ),
    (
        BlockFault::Certify(CertifyFault::EndState { point: 25 }),
        "the card may not be in the transfer state at point 25",
    ),
    (
        BlockFault::Verify(VerifyFault::Check(CheckFault::Bound(7))),
        "the bound does not fall after point 7",
    ),
    (BlockFault::Run(RunFault::Trace), "the trace failed"),
    (BlockFault::Memory, "out of memory"),
];

#[test]
fn of_requests(rt: HostRuntime) {
    for &(fault, text) in OF_REQUESTS.iter() {
        let printed = fault.to_string(rt.alloc()).expect(&rt, "memory");
        same(&rt, &printed.as_str(), &text, &fault);
    }
}

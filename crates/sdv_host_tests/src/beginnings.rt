//! Scripts that begin with CMD0, and scripts that do not.

use crate::common::{graph_of, same};
use crate::scripts::{BRING_UP, DEVICE_BRING_UP, SMALLEST};

// Scripts, and whether they begin with CMD0: a production script sends it up to three times, in a loop.
static BEGINNINGS: [(&str, bool); 11] = [
    (SMALLEST, true),
    (BRING_UP, true),
    (DEVICE_BRING_UP, true),
    (
        "card sd flags hc loop 3 { clear hc send 0 { else { } } send 8 { answer { break } else { } } } else { fault lost } done",
        true,
    ),
    (
        "card emmc nums x let x = 6 bus.lines 1 if x < 7 { send 0 { else { } } } else { loop 2 { send 0 { else { done } } } else { } } done",
        true,
    ),
    (
        "card sd nums x let x = 6 if x < 7 { send 0 { else { } } } else { } done",
        false,
    ),
    (
        "card sd send 8 { else { } } send 0 { else { } } done",
        false,
    ),
    (
        "card emmc wait { ok { } else { } } send 0 { else { } } done",
        false,
    ),
    (
        "card sd loop 2 { break } else { } send 0 { else { } } done",
        false,
    ),
    ("card sd done", false),
    ("card sd fault none_sent", false),
];

#[test]
fn scripts_that_begin_with_a_reset(rt: HostRuntime) {
    for row in BEGINNINGS.iter() {
        let graph = graph_of(rt.alloc(), row.0).expect(&rt, "a script");
        same(&rt, &graph.begins(), &row.1, &row.0);
    }
}

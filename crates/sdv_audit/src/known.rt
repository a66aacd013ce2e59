//! What a trace tells of its host.

ghost use Rattle.std.specs.Prelude.{◌≡◌};
ghost use Rattle.sdv_audit.specs.Known.{nothing_known, known_running, announced_told, known_after_order};

use sdv_card::{Answer, Order, Width};

/// What a trace tells of its host.
#[derive(Clone, Copy, Debug, PartialEq, Eq)]
pub struct HostKnown {
    /// The relative card address that it sends.
    pub rca: u16,
    /// The data lines that it uses.
    pub lines: Width,
    /// The last CSD that it read: bits 127..8, the highest byte first.
    pub csd: Option<[u8; 15]>,
    /// The blocks that it announced last, if a line tells how many.
    pub announced: Option<u16>,
    /// The bytes of the register that it asked for last.
    pub register_length: u16,
}

impl HostKnown {
    /// Before the first line: one data line, and nothing else.
    pub fn nothing() -> HostKnown
        ensures { result ≡ nothing_known }
    {
        HostKnown {
            rca: 0,
            lines: Width::One,
            csd: None,
            announced: Some(0),
            register_length: 0,
        }
    }

    /// Where only the relative card address and the data lines are known: no register is on its way.
    pub fn running(rca: u16, lines: Width) -> HostKnown
        ensures { result ≡ known_running rca lines }
    {
        HostKnown {
            rca,
            lines,
            csd: None,
            announced: None,
            register_length: 0,
        }
    }

    /// What is known after a command and what came of it.
    pub fn after(&self, order: Option<Order>, answer: &Answer) -> HostKnown
        ensures { result ≡ known_after_order order answer.now self.now }
    {
        let Some(order) = order else {
            return *self;
        };
        HostKnown {
            rca: order.rca_after(answer, self.rca),
            lines: self.lines,
            csd: order.csd_after(answer, self.csd),
            announced: announced_told(order, self.announced),
            register_length: order.register_length_after(self.register_length),
        }
    }
}

/// The blocks that were announced last, if they are known.
fn announced_told(order: Order, before: Option<u16>) -> Option<u16>
    ensures { result ≡ announced_told order before }
{
    match order {
        Order::ReadSingleBlock | Order::WriteBlock => Some(1),
        Order::ReadMultipleBlock { count } | Order::WriteMultipleBlock { count } => Some(count),
        _ => before,
    }
}

//! What the host of a player knows.

ghost use Rattle.std.specs.Prelude.{◌≡◌, ◌≤◌};
ghost use Rattle.sdv_card.specs.Profile.{host_at_start};
ghost use Rattle.sdv_player.specs.Seen.{Remembers, no_registers, kind_of, lines_of, host_of};

use sdv_card::{Kind, Width};

/// The variables and flags of a script, and what its host has learned of the card.
#[repr(C)]
#[derive(Clone, Copy, Debug)]
pub struct HostNumbers {
    /// The number variables, in declared order.
    pub variables: [u64; 8],
    /// The blocks of the card by the last CSD that was read.
    pub csd_blocks: u64,
    /// SEC_COUNT of the last EXT_CSD that was read.
    pub ext_blocks: u64,
    /// The blocks of a boot partition by the last EXT_CSD that was read.
    pub ext_boot: u64,
    /// How many number variables the script declares.
    pub declared: usize,
    /// The kind of card: 0 SD, else e.MMC.
    pub kind: u32,
    /// How many data lines are used: 1, 4 or 8.
    pub lines: u32,
    /// Not 0 where a CSD was read.
    pub csd_read: u32,
    /// Not 0 where an EXT_CSD was read.
    pub ext_read: u32,
    /// The relative card address that is sent.
    pub rca: u16,
    /// The blocks that were announced last.
    pub announced: u16,
    /// The bytes of the register that was asked for last.
    pub register_length: u16,
    /// The flags as bits, the first declared one lowest.
    pub flags: u8,
}

impl HostNumbers {
    /// What a host knows before the first command to a card of this kind.
    pub fn at_start(kind: u32, declared: usize) -> HostNumbers
        ensures host { declared ≤ 8 → host_of result no_registers ≡ host_at_start declared }
        ensures remembers { Remembers result no_registers }
        ensures kind { result.kind ≡ kind }
    {
        HostNumbers {
            variables: [0; 8],
            csd_blocks: 0,
            ext_blocks: 0,
            ext_boot: 0,
            declared,
            kind,
            lines: 1,
            csd_read: 0,
            ext_read: 0,
            rca: 0,
            announced: 0,
            register_length: 0,
            flags: 0,
        }
    }

    /// The kind of card.
    pub fn kind(&self) -> Kind
        ensures { result ≡ kind_of self.now }
    {
        if self.kind == 0 { Kind::Sd } else { Kind::Emmc }
    }

    /// The data lines.
    pub fn lines(&self) -> Width
        ensures { result ≡ lines_of self.now.lines }
    {
        match self.lines {
            4 => Width::Four,
            8 => Width::Eight,
            _ => Width::One,
        }
    }
}

//! Data lines, and what commands with index 6 set.

ghost use Rattle.std.specs.Prelude.{◌≡◌};
ghost use Rattle.sdv_script.specs.Place.{tokens_at};
ghost use Rattle.sdv_script.specs.Commands.{width_with, partition_with, has_partitions, sd_argument, emmc_argument, setting_argument};
ghost use Rattle.sdv_script.specs.Reading.{Gives, read_width, read_partition, read_setting};

use crate::cursor::Cursor;
use crate::fault::{FaultKind, Stop};
use crate::keyword::Keyword;
use crate::token::Token;
use sdv_card::state_table::has_width;
use sdv_card::{Kind, Partition, Setting, Width};

/// A number of data lines. What is wrong with a token that is no number is given.
pub fn width(kind: Kind, at: &mut Cursor<'_>, other: FaultKind) -> Result<Width, Stop>
    ensures { Gives (λ x. (x, tokens_at at.new)) result (read_width kind (tokens_at at.old)) }
{
    let Token::Number(lines) = at.token else {
        return Err(Stop::Fault(at.fault(other)));
    };
    match width_with(lines) {
        Some(width) if has_width(kind, width) => {
            at.advance();
            Ok(width)
        }
        _ => Err(Stop::Fault(at.fault(FaultKind::Argument))),
    }
}

/// What a command with index 6 sets.
pub fn setting(kind: Kind, at: &mut Cursor<'_>) -> Result<Setting, Stop>
    ensures { Gives (λ x. (x, tokens_at at.new)) result (read_setting kind (tokens_at at.old)) }
{
    match at.token {
        Token::Key(Keyword::BusLines) => {
            at.advance();
            Ok(Setting::Lines(width(kind, at, FaultKind::Argument)?))
        }
        Token::Key(Keyword::PartAccess) if has_partitions(kind) => {
            at.advance();
            Ok(Setting::Access(partition(at)?))
        }
        _ => Err(Stop::Fault(at.fault(FaultKind::Argument))),
    }
}

/// The argument that sets it.
pub fn argument(kind: Kind, setting: Setting) -> u32
    ensures { result ≡ setting_argument kind setting }
{
    match kind {
        Kind::Sd => sd_argument(setting),
        Kind::Emmc => emmc_argument(setting),
    }
}

// The argument of ACMD6: one data line, or four.
fn sd_argument(setting: Setting) -> u32
    ensures { result ≡ sd_argument setting }
{
    match setting {
        Setting::Lines(Width::One) => 0,
        _ => 2,
    }
}

// The argument of CMD6.
fn emmc_argument(setting: Setting) -> u32
    ensures { result ≡ emmc_argument setting }
{
    match setting {
        Setting::Lines(Width::One) => 0x03b7_0000,
        Setting::Lines(Width::Four) => 0x03b7_0100,
        Setting::Lines(Width::Eight) => 0x03b7_0200,
        Setting::Access(Partition::User) => 0x03b3_0000,
        Setting::Access(Partition::Boot1) => 0x03b3_0100,
        Setting::Access(Partition::Boot2) => 0x03b3_0200,
    }
}

// The number of a partition.
fn partition(at: &mut Cursor<'_>) -> Result<Partition, Stop>
    ensures { Gives (λ x. (x, tokens_at at.new)) result (read_partition (tokens_at at.old)) }
{
    let Token::Number(number) = at.token else {
        return Err(Stop::Fault(at.fault(FaultKind::Argument)));
    };
    match partition_with(number) {
        Some(partition) => {
            at.advance();
            Ok(partition)
        }
        None => Err(Stop::Fault(at.fault(FaultKind::Argument))),
    }
}

// So many data lines.
fn width_with(lines: u64) -> Option<Width>
    ensures { result ≡ width_with lines }
{
    match lines {
        1 => Some(Width::One),
        4 => Some(Width::Four),
        8 => Some(Width::Eight),
        _ => None,
    }
}

// The partition that has the number in access.
fn partition_with(number: u64) -> Option<Partition>
    ensures { result ≡ partition_with number }
{
    match number {
        0 => Some(Partition::User),
        1 => Some(Partition::Boot1),
        2 => Some(Partition::Boot2),
        _ => None,
    }
}

// The kind has partitions beside the user area.
fn has_partitions(kind: Kind) -> bool
    ensures { result ≡ has_partitions kind }
{
    matches!(kind, Kind::Emmc)
}

//! The registers of SD and e.MMC cards, read field by field.
//!
//! A register is its list of bits, and a field the value of a range of them: `specs/Field.antt` says so once, and the
//! other files of `specs/` name the ranges of each register.
//!
//! Proved: each reader returns the value of the standard's bit range. `Csd::read` is Ok exactly where the register is
//! readable, and otherwise names the fault. `Csd::blocks` is the capacity formula of the CSD's version, in blocks of
//! 512 bytes (`specs/Csd.antt`). `Status::has_doubt` says whether a status leaves it open that the command was taken,
//! and `Status::is_clean` whether it shows no error (`specs/Status.antt`).
#![tactic(auto)]

mod cid;
mod csd;
mod emmc_cid;
mod ext_csd;
mod fault;
mod field;
mod kind;
mod ocr;
mod published;
mod scr;
mod sd_cid;
mod status;

pub use cid::Cid;
pub use csd::{Csd, CsdLayout};
pub use emmc_cid::EmmcCid;
pub use ext_csd::ExtCsd;
pub use fault::RegisterFault;
pub use kind::Kind;
pub use ocr::Ocr;
pub use published::PublishedRca;
pub use scr::Scr;
pub use sd_cid::SdCid;
pub use status::Status;

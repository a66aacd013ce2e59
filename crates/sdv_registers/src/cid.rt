//! The card identification register of either kind.

ghost use Rattle.std.specs.Prelude.{◌≡◌};

use crate::emmc_cid::EmmcCid;
use crate::kind::Kind;
use crate::sd_cid::SdCid;

/// The card identification register, by the kind of card, as the fields differ.
#[derive(Clone, Copy, Debug, PartialEq, Eq)]
pub enum Cid {
    Sd(SdCid),
    Emmc(EmmcCid),
}

impl Cid {
    /// The register of a card of this kind, from its bits 127..8.
    pub fn new(kind: Kind, register: [u8; 15]) -> Cid
        ensures sd { kind ≡ Kind.Sd → result ≡ Cid.Sd (record { 0 = register }) }
        ensures emmc { kind ≡ Kind.Emmc → result ≡ Cid.Emmc (record { 0 = register }) }
    {
        match kind {
            Kind::Sd => Cid::Sd(SdCid(register)),
            Kind::Emmc => Cid::Emmc(EmmcCid(register)),
        }
    }
}

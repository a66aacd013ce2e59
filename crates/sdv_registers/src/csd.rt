//! The card specific data register, and the capacity that it gives.

ghost use Rattle.std.specs.Prelude.{◌≡◌, ◌+◌, ◌-◌, ◌*◌, ◌^◌, ◌<◌, ◌≤◌, Some, None, IfOk, IfSome, MatchResult, IsTrue, is_none};
ghost use Rattle.sdv_frames.specs.Bits.{bits_of};
ghost use Rattle.sdv_registers.specs.Csd.{csd_structure, read_bl_len, c_size, c_size_mult_of, layout, fault, blocks};

use crate::fault::RegisterFault;
use crate::field::register_field;
use crate::kind::Kind;

/// How the fields of a CSD lie.
#[derive(Clone, Copy, Debug, PartialEq, Eq)]
pub enum CsdLayout {
    /// CSD version 1 of an SD card, and the CSD of every e.MMC device.
    Version1,
    /// CSD version 2 of an SD card.
    Version2,
}

/// The card-specific data register of a card, of which the capacity can be read.
#[derive(Clone, Copy, Debug, PartialEq, Eq)]
pub struct Csd {
    /// The kind of the card.
    pub kind: Kind,
    /// Bits 127..8 of the register, the highest byte first.
    pub register: [u8; 15],
    ghost readable: { IsTrue (is_none (fault kind (bits_of register))) },
}

impl Csd {
    /// Takes bits 127..8 of the register of a card of this kind, the highest byte first.
    ///
    /// # Errors
    ///
    /// [`RegisterFault::Structure`] for an SD card whose CSD_STRUCTURE is above 1, else
    /// [`RegisterFault::BlockLength`] for a READ_BL_LEN outside 9 to 11 in the layout of version 1.
    pub fn read(kind: Kind, register: &[u8; 15]) -> Result<Csd, RegisterFault>
        ensures fault { let csd = bits_of register.now in
            MatchResult result (λ _. fault kind csd ≡ None) (λ e. fault kind csd ≡ Some e) }
        ensures kind { IfOk result (λ csd. csd.kind ≡ kind) }
        ensures register { IfOk result (λ csd. csd.register ≡ register.now) }
    {
        if kind == Kind::Sd && structure_of(register) > 1 {
            return Err(RegisterFault::Structure);
        }
        if layout_of(kind, register) == CsdLayout::Version1
            && !(9..=11).contains(&block_length_of(register))
        {
            return Err(RegisterFault::BlockLength);
        }
        Ok(Csd {
            kind,
            register: *register,
        })
    }

    /// CSD_STRUCTURE `[127:126]`.
    pub fn csd_structure(&self) -> u8
        ensures { result ≡ csd_structure (bits_of self.now.register) }
    {
        structure_of(&self.register)
    }

    /// The layout of the fields below, by the kind of card and CSD_STRUCTURE.
    pub fn layout(&self) -> CsdLayout
        ensures { result ≡ layout self.now.kind (bits_of self.now.register) }
    {
        layout_of(self.kind, &self.register)
    }

    /// READ_BL_LEN `[83:80]`: the card reads blocks of 2 to the power of this many bytes.
    pub fn read_bl_len(&self) -> u8
        ensures { result ≡ read_bl_len (bits_of self.now.register) }
    {
        block_length_of(&self.register)
    }

    /// C_SIZE, `[73:62]` in version 1 and `[69:48]` in version 2.
    pub fn c_size(&self) -> u32
        ensures { let csd = bits_of self.now.register in result ≡ c_size (layout self.now.kind csd) csd }
    {
        match self.layout() {
            CsdLayout::Version1 => register_field(&self.register, 73, 62) as u32,
            CsdLayout::Version2 => register_field(&self.register, 69, 48) as u32,
        }
    }

    /// C_SIZE_MULT `[49:47]`, which stands in version 1 alone.
    pub fn c_size_mult(&self) -> Option<u8>
        ensures value { let csd = bits_of self.now.register in
            result ≡ c_size_mult_of (layout self.now.kind csd) csd }
        ensures narrow { IfSome result (λ mult. mult < 8) }
    {
        match self.layout() {
            CsdLayout::Version1 => Some(register_field(&self.register, 49, 47) as u8),
            CsdLayout::Version2 => None,
        }
    }

    /// The card's capacity in blocks of 512 bytes.
    ///
    /// A block-addressed e.MMC device has its capacity in EXT_CSD, and not here.
    pub fn blocks(&self) -> u64
        ensures { result ≡ blocks self.now.kind (bits_of self.now.register) }
    {
        match self.c_size_mult() {
            Some(mult) => scaled(self.c_size(), mult, self.read_bl_len()),
            None => (u64::from(self.c_size()) + 1) * 1024,
        }
    }
}

/// The capacity in blocks of 512 bytes by the formula of version 1.
fn scaled(c_size: u32, c_size_mult: u8, read_bl_len: u8) -> u64
    requires mult { c_size_mult < 8 }
    requires not_short { 9 ≤ read_bl_len }
    requires not_long { read_bl_len ≤ 11 }
    ensures { result ≡ (c_size + 1) * 2 ^ (c_size_mult + 2) * 2 ^ (read_bl_len - 9) }
{
    (u64::from(c_size) + 1) << (c_size_mult + 2) << (read_bl_len - 9)
}

/// CSD_STRUCTURE.
fn structure_of(register: &[u8; 15]) -> u8
    ensures value { result ≡ csd_structure (bits_of register.now) }
{
    register_field(register, 127, 126) as u8
}

/// READ_BL_LEN.
fn block_length_of(register: &[u8; 15]) -> u8
    ensures value { result ≡ read_bl_len (bits_of register.now) }
{
    register_field(register, 83, 80) as u8
}

/// The layout of the register of a card of this kind.
fn layout_of(kind: Kind, register: &[u8; 15]) -> CsdLayout
    ensures { result ≡ layout kind (bits_of register.now) }
{
    match kind {
        Kind::Sd if structure_of(register) == 1 => CsdLayout::Version2,
        _ => CsdLayout::Version1,
    }
}

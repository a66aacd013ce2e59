//! New simulated cards.

ghost use Rattle.std.specs.Prelude.{◌≡◌, ◌<◌, ◌^◌, length, All, IfOk, MatchResult, true};
ghost use Rattle.sdv_card.specs.Card.{IsByte, IsRegister};
ghost use Rattle.sdv_behavior.specs.Layout.{image_size};
ghost use Rattle.sdv_behavior.specs.Schedules.{are_codes};
ghost use Rattle.sdv_sim.specs.SimOf.{state_of};
ghost use Rattle.sdv_sim.specs.Made.{IsMade, IsRefused, IsUnread, are_digits};

use crate::schedule::Schedule;
use crate::sim::Sim;
use sdv_behavior::{Behavior, CardDesc, CardState};
use sdv_image::{Image, SimFault};
use std::alloc::Global;

/// Each value is one of a schedule of digits, 0 to 7.
fn are_digits(codes: &[u8]) -> bool
    ensures { result ≡ are_digits codes.now }
{
    codes.iter().all(|code| *code <= 7)
}

/// Each value is one of a schedule: 0, or that of a mishap.
fn are_codes(codes: &[u8]) -> bool
    ensures { result ≡ are_codes codes.now }
{
    codes.iter().all(|code| Behavior::of_code(*code).is_some())
}

// The elements of a slice of bytes are bytes. A contract knows the range of what is behind a reference once it is read:
// called for this clause alone, as `registers_fit` is for its own.
fn are_bytes(bytes: &[u8]) -> usize
    ensures count { result ≡ length bytes.now }
    ensures fit { All IsByte bytes.now }
{
    bytes.len()
}

// The CSD is a register of 15 bytes, and SEC_COUNT a word of 32 bits.
fn registers_fit(csd: &[u8; 15], sectors: u32) -> usize
    ensures csd { IsRegister 15 csd.now }
    ensures sectors { sectors < 2 ^ 32 }
{
    are_bytes(csd)
}

impl<I: Image + Drop> Sim<I> {
    /// A card of a description before its first command, over an image of its blocks, with the values of a schedule,
    /// one for each event. The image has the blocks of the user area, and behind them those of each boot partition. No
    /// call of it failed here. Later calls take no memory.
    ///
    /// # Errors
    ///
    /// [`SimFault::Description`] where a value of the schedule is above 7, [`SimFault::ImageLength`] where the image
    /// has not as many blocks as the card, [`SimFault::ImageRead`] where its first block cannot be read, and
    /// [`SimFault::Memory`]: the first of them. The image is dropped then, its blocks unchanged.
    #[tactic(auto, using(crate::proofs::DigitLaws::digits_known))]
    pub fn new(alloc: Global, desc: CardDesc, image: I, schedule: &[u8]) -> Result<Sim<I>, SimFault>
        ensures made { MatchResult result
            (λ sim. IsMade desc schedule.now (I.blocks image) (state_of sim))
            (IsRefused (are_digits schedule.now) (I.size image) (image_size desc)
            (IsUnread I.size I.blocks I.failed image)) }
        ensures no_fault { IfOk result (λ sim. (state_of sim).failed ≡ I.failed image) }
    {
        if !are_digits(schedule) {
            return Err(SimFault::Description);
        }
        made(alloc, desc, image, schedule)
    }

    /// A card as [`Sim::new`] makes it, with the values of a schedule that have names alone too.
    ///
    /// # Errors
    ///
    /// [`SimFault::Description`] where a value of the schedule is that of no mishap, and else those of [`Sim::new`].
    pub fn with_named_values(
        alloc: Global,
        desc: CardDesc,
        image: I,
        schedule: &[u8],
    ) -> Result<Sim<I>, SimFault>
        ensures made { MatchResult result
            (λ sim. IsMade desc schedule.now (I.blocks image) (state_of sim))
            (IsRefused (are_codes schedule.now) (I.size image) (image_size desc)
            (IsUnread I.size I.blocks I.failed image)) }
        ensures no_fault { IfOk result (λ sim. (state_of sim).failed ≡ I.failed image) }
    {
        if !are_codes(schedule) {
            return Err(SimFault::Description);
        }
        made(alloc, desc, image, schedule)
    }
}

/// A card before its first command, whose schedule is known. See [`Sim::new`].
fn made<I: Image + Drop>(
    alloc: Global,
    desc: CardDesc,
    image: I,
    schedule: &[u8],
) -> Result<Sim<I>, SimFault>
    requires known { are_codes schedule.now ≡ true }
    ensures made { MatchResult result
        (λ sim. IsMade desc schedule.now (I.blocks image) (state_of sim))
        (IsRefused true (I.size image) (image_size desc) (IsUnread I.size I.blocks I.failed image)) }
    ensures no_fault { IfOk result (λ sim. (state_of sim).failed ≡ I.failed image) }
{
    if image.len() != desc.image_size() {
        return Err(SimFault::ImageLength);
    }
    let mut image = image;
    if image.read_block(0, &mut [0; 512]).is_err() {
        return Err(SimFault::ImageRead);
    }
    let _fit = registers_fit(&desc.csd, desc.sectors);
    match Schedule::of_codes(alloc, schedule) {
        Ok(schedule) => Ok(Sim {
            card: CardState::at_start(&desc),
            desc,
            schedule,
            image,
        }),
        Err(_) => Err(SimFault::Memory),
    }
}

//! A simulated card, and the state of it that contracts see.

ghost use Rattle.std.specs.Prelude.{◌≡◌};
ghost use Rattle.sdv_behavior.specs.Layout.{image_size};

use crate::schedule::Schedule;
use sdv_behavior::{CardDesc, CardState};
use sdv_image::Image;

/// A simulated card over an image.
pub struct Sim<I: Image> {
    pub(crate) desc: CardDesc,
    pub(crate) card: CardState,
    pub(crate) schedule: Schedule,
    pub(crate) image: I,
    ghost sized: { I.size image ≡ image_size desc },
}

impl<I: Image + Drop> Drop for Sim<I> {
    // A caller that drops a card then reuses one proved `drop`.
    fn drop(self) {
        let Sim {
            desc: _,
            card: _,
            schedule: _schedule,
            image: _image,
        } = self;
    }
}

impl<I: Image> Sim<I> {
    ghost use Rattle.sdv_sim.specs.SimOf.{image_of, state_of};

    /// The description of the card.
    pub fn desc(&self) -> &CardDesc
        ensures { result.now ≡ (state_of self.now).desc }
    {
        &self.desc
    }

    /// What the card keeps from one event to the next.
    pub fn card(&self) -> &CardState
        ensures { result.now ≡ (state_of self.now).card }
    {
        &self.card
    }

    /// Gives the image back.
    pub fn into_image(self) -> I
        ensures { result ≡ image_of self }
    {
        let Sim {
            desc: _,
            card: _,
            schedule: _schedule,
            image,
        } = self;
        image
    }
}

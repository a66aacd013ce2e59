//! A card's description in words: its capacity, its registers field by field, and the image that `run` wants; or the line
//! that is wrong.

ghost use Rattle.std.specs.Prelude.{◌≡◌, IfOk, None, Some};
ghost use Rattle.sdv_explain.specs.Described.{Tells, misfit_for};

mod card;
mod field;
mod misfit;
mod schedule;

use card::put_card;
use misfit::{Misfit, misfit_in, put_misfit};
pub use schedule::describe_given;
use sdv_behavior::CardDesc;
use sdv_image::SimFault;
use sdv_telling::{Text, put};
use std::alloc::{AllocError, Global};

/// What is told of the text of a description.
#[derive(Drop)]
pub struct CardPage {
    /// The words.
    pub words: Text,
    /// Why the text gives no card, if it gives none.
    pub fault: Option<SimFault>,
    /// The line that is wrong, where the text is no description.
    pub misfit: Option<Misfit>,
}

/// What a text says of a card, or the line at which it is no description.
///
/// # Errors
///
/// Memory was refused.
fn describe(alloc: Global, text: &str) -> Result<CardPage, AllocError>
    ensures { IfOk result (Tells text.entry.now) }
{
    let mut words = Vec::new(alloc);
    match CardDesc::parse(text) {
        Ok(card) => {
            put_card(&mut words, alloc, &card)?;
            Ok(CardPage {
                words,
                fault: None,
                misfit: None,
            })
        }
        Err(fault) => {
            let misfit = misfit_for(fault, text);
            put_fault(&mut words, misfit)?;
            Ok(CardPage {
                words,
                fault: Some(fault),
                misfit,
            })
        }
    }
}

/// The line that is wrong in a text that gives no card, if it is no description.
fn misfit_for(fault: SimFault, text: &str) -> Option<Misfit>
    ensures { result ≡ misfit_for fault text.now }
{
    match fault {
        SimFault::Description => Some(misfit_in(text.as_bytes())),
        SimFault::Capacity | SimFault::ImageLength | SimFault::ImageRead | SimFault::Memory => {
            None
        }
    }
}

/// Adds why a text gives no card.
fn put_fault(words: &mut Text, misfit: Option<Misfit>) -> Result<(), AllocError> {
    match misfit {
        Some(misfit) => put_misfit(words, &misfit),
        None => put(
            words,
            "an e.MMC device with byte addresses has at most 4194304 blocks: make csize, cmult or rbl smaller, or write `unit block` and `sectors`\n",
        ),
    }
}

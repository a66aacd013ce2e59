//! What can stand at a place.

use crate::hints::tries::{Front, stops};
use sdv_script::KEYWORDS;
use sdv_telling::{Text, put, put_all};
use std::alloc::{AllocError, Global};

/// The signs.
const SIGNS: [&str; 8] = ["{", "}", "=", "+", "-", ">=", "<", "&"];

/// The numbers that are tried: the indices of commands, and the arguments of CMD41.
const NUMBERS: [&str; 66] = [
    "0",
    "1",
    "2",
    "3",
    "4",
    "5",
    "6",
    "7",
    "8",
    "9",
    "10",
    "11",
    "12",
    "13",
    "14",
    "15",
    "16",
    "17",
    "18",
    "19",
    "20",
    "21",
    "22",
    "23",
    "24",
    "25",
    "26",
    "27",
    "28",
    "29",
    "30",
    "31",
    "32",
    "33",
    "34",
    "35",
    "36",
    "37",
    "38",
    "39",
    "40",
    "41",
    "42",
    "43",
    "44",
    "45",
    "46",
    "47",
    "48",
    "49",
    "50",
    "51",
    "52",
    "53",
    "54",
    "55",
    "56",
    "57",
    "58",
    "59",
    "60",
    "61",
    "62",
    "63",
    "0x00ff8000",
    "0x40ff8000",
];

/// A name that is declared nowhere.
const NEW_NAME: &str = "not_a_name_yet";

/// What can stand at a place.
#[derive(Clone, Copy)]
pub enum Offer<'a> {
    /// This.
    Word(&'a str),
    /// A name that is not declared yet.
    NewName,
    /// A number from 1 to 65,535.
    Count,
    /// Any number.
    Number,
}

/// Adds each of these words that can follow a front.
fn try_words<'a>(
    alloc: Global,
    front: &Front<'_>,
    words: &[&'a str],
    offers: &mut Vec<Offer<'a>>,
) -> Result<(), AllocError> {
    for word in words {
        if !stops(alloc, front, word)? {
            offers.push(Offer::Word(word))?;
        }
    }
    Ok(())
}

/// Adds the reserved words that can follow a front.
fn try_keywords(
    alloc: Global,
    front: &Front<'_>,
    offers: &mut Vec<Offer<'_>>,
) -> Result<(), AllocError> {
    for keyword in &KEYWORDS {
        let word = keyword.text();
        if !stops(alloc, front, word)? {
            offers.push(Offer::Word(word))?;
        }
    }
    Ok(())
}

/// Adds the numbers that can follow a front.
fn try_numbers(
    alloc: Global,
    front: &Front<'_>,
    offers: &mut Vec<Offer<'_>>,
) -> Result<(), AllocError> {
    if !stops(alloc, front, "65536")? {
        offers.push(Offer::Number)?;
        return Ok(());
    }
    if !stops(alloc, front, "65535")? {
        offers.push(Offer::Count)?;
        return Ok(());
    }
    try_words(alloc, front, &NUMBERS, offers)
}

/// What can follow a front, by a script that declares these names.
pub fn offers_at<'a>(
    alloc: Global,
    front: &Front<'_>,
    names: &[&'a str],
) -> Result<Vec<Offer<'a>>, AllocError> {
    let mut offers = Vec::new(alloc);
    try_keywords(alloc, front, &mut offers)?;
    try_words(alloc, front, &SIGNS, &mut offers)?;
    try_words(alloc, front, names, &mut offers)?;
    if !stops(alloc, front, NEW_NAME)? {
        offers.push(Offer::NewName)?;
    }
    try_numbers(alloc, front, &mut offers)?;
    Ok(offers)
}

/// This word is offered.
pub fn has_word(offers: &[Offer<'_>], wanted: &str) -> bool {
    offers.iter().any(|offer| is_word_of(*offer, wanted))
}

fn is_word_of(offer: Offer<'_>, wanted: &str) -> bool {
    match offer {
        Offer::Word(word) => word == wanted,
        _ => false,
    }
}

/// This word can stand at the place, and nothing else.
pub fn is_only(offers: &[Offer<'_>], wanted: &str) -> bool {
    offers.len() == 1 && has_word(offers, wanted)
}

/// Adds the line of all that is offered, if anything is.
pub fn put_offers(page: &mut Text, offers: &[Offer<'_>]) -> Result<(), AllocError> {
    let mut front = "can stand here: ";
    for offer in offers {
        put(page, front)?;
        match *offer {
            Offer::Word(word) => put_all(page, &["`", word, "`"])?,
            Offer::NewName => put(page, "a new name")?,
            Offer::Count => put(page, "a number from 1 to 65535")?,
            Offer::Number => put(page, "a number up to 1099511627776")?,
        }
        front = ", ";
    }
    put(page, if offers.is_empty() { "" } else { "\n" })
}

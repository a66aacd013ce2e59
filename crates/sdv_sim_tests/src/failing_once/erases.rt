//! An image whose calls fail from one of them on.

ghost use Rattle.std.specs.Prelude.{None, ◌^◌, ◌-◌};

use crate::shared::{block_bring_up, play, r1, replies, write};
use crate::texts::BLOCK_CARD;
use sdv_card::{CardPort, DataEnd, WaitEnd};
use sdv_controller::Controller;
use sdv_sim::{CardDesc, Image, ImageFault, Sim, SimFault};

/// An image of 1,024 blocks of zeros, of which no write is kept. So many calls go well, and the later ones fail; its count of
/// failures stands at its greatest.
#[derive(Drop)]
struct Failing {
    good: u8,
}

impl Failing {
    fn call(&mut self) -> Result<(), ImageFault> {
        if self.good == 0 {
            return Err(ImageFault);
        }
        self.good -= 1;
        Ok(())
    }
}

impl Image for Failing {
    ghost size = { λ _. 1024 };

    ghost blocks = { λ _. None };

    ghost failed = { λ _. 2 ^ 64 - 1 };

    fn len(&self) -> u64 {
        1024
    }

    fn read_block(&mut self, _place: u64, block: &mut [u8; 512]) -> Result<(), ImageFault> {
        *block = [0; 512];
        self.call()
    }

    fn write_block(&mut self, _place: u64, _block: &[u8; 512]) -> Result<(), ImageFault> {
        self.call()
    }

    fn failures(&self) -> u64 {
        u64::MAX
    }
}

/// A first read that fails, phases that a later failure cuts, and an erase that one ends.
#[test]
fn failures(rt: HostRuntime) {
    let alloc = rt.alloc();
    let desc = CardDesc::parse(BLOCK_CARD).expect(&rt, "a description");
    let found = Sim::new(alloc, desc, Failing { good: 0 }, &[]).err();
    assert!(rt; found == Some(SimFault::ImageRead));
    let sim = Sim::new(alloc, desc, Failing { good: 1 }, &[]).expect(&rt, "a card");
    let mut card = Controller::new(sim);
    play(&rt, &mut card, &block_bring_up());
    replies(&rt, &mut card, 17, 3, 0x900);
    let read = card.data_in(1, &mut [[0; 512]]);
    replies(&rt, &mut card, 13, 0x1234_0000, 0x900);
    let written = write(&rt, &mut card, 3, 0);
    replies(&rt, &mut card, 13, 0x1234_0000, 0xd00);
    replies(&rt, &mut card, 12, 0, 0xd00);
    let ready = card.wait();
    let rows = [
        r1(32, 3, 0x900),
        r1(33, 4, 0x900),
        r1(38, 0, 0x900),
        r1(13, 0x1234_0000, 0x900),
    ];
    play(&rt, &mut card, &rows);
    assert!(rt; (read, written, ready) == (DataEnd::Cut, DataEnd::Cut, WaitEnd::Ok));
}

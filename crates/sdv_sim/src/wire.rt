//! A simulated card is a wire.

ghost use Rattle.std.specs.Prelude.{◌≡◌, IfSome};
ghost use Rattle.sdv_frames.specs.Frame.{HasIndex};
ghost use Rattle.sdv_behavior.specs.SimSteps.{SimSteps, card_shown, heard_of, Goes, BlocksLeft};
ghost use Rattle.sdv_behavior.proofs.SimKeeps.{sim_keeps};
ghost use Rattle.sdv_behavior.proofs.Described.{described_law};
ghost use Rattle.sdv_sim.specs.SimOf.{state_of};

use crate::sim::Sim;
use crate::wire_end::give;
use sdv_behavior::{
    copy_register, cuts, end_seen, erased_places, fails_later, heard_of, length_fits, next_place,
    on_lines, phase_over, wait_end, waited, with_error,
};
use sdv_card::state_table::{give_legal, recv_legal, recv_reg_legal, wait_legal};
use sdv_card::{DataEnd, WaitEnd};
use sdv_controller::{Wire, WireEnd};
use sdv_frames::{Command, Reply, decode_command};
use sdv_image::{Image, erase_blocks, read_blocks, write_blocks};

impl<I: Image> Sim<I> {
    /// What the card answers to a command.
    fn react(&mut self, command: Command) -> Option<Reply>
        ensures goes { Goes (heard_of (state_of self.old) command).after (state_of self.old) (state_of self.new) }
        ensures reply { result ≡ (heard_of (state_of self.old) command).reply }
        ensures blocks { BlocksLeft (heard_of (state_of self.old) command).erases
            (state_of self.old) (state_of self.new) }
        ensures index { IfSome result HasIndex }
    {
        let behavior = self.schedule.advance();
        let heard = heard_of(&self.desc, behavior, command, &self.card);
        if heard.erases {
            let (start, end) = erased_places(&self.desc, &self.card);
            let _ = erase_blocks(&mut self.image, start, end);
        }
        self.card = heard.after;
        heard.reply
    }
}

impl<I: Image> Wire for Sim<I> {
    ghost steps = { λ s call returned s'. SimSteps (state_of s) call returned (state_of s') };

    ghost card = { λ s. card_shown (state_of s) };

    ghost keeps_tables = { sim_keeps state_of (λ s. described_law s.desc) };

    fn transfer(&mut self, frame: &[u8; 6], response: &mut [u8; 17]) -> WireEnd {
        match decode_command(frame) {
            Ok(command) => give(self.react(command), response),
            Err(_) => {
                self.schedule.advance();
                WireEnd::Silent
            }
        }
    }

    fn data_in(&mut self, lines: u8, blocks: &mut [[u8; 512]]) -> DataEnd {
        let behavior = self.schedule.advance();
        if !recv_legal(self.card.state, self.card.transfer)
            || !on_lines(&self.card, lines)
            || !length_fits(&self.desc, &self.card, blocks.len())
        {
            return DataEnd::Cut;
        }
        let place = next_place(&self.desc, &self.card);
        let end = if cuts(behavior.phase) || read_blocks(&mut self.image, place, blocks).is_err() {
            DataEnd::Cut
        } else {
            DataEnd::Ok
        };
        self.card = phase_over(behavior.moves_on, end, &self.card);
        end
    }

    fn data_in_reg(&mut self, lines: u8, bytes: &mut [u8]) -> DataEnd {
        let behavior = self.schedule.advance();
        if !recv_reg_legal(self.card.state, self.card.transfer)
            || !on_lines(&self.card, lines)
            || bytes.is_empty()
        {
            return DataEnd::Cut;
        }
        let end = if cuts(behavior.phase) {
            DataEnd::Cut
        } else {
            copy_register(&self.desc, self.card.transfer, self.card.mode, bytes);
            DataEnd::Ok
        };
        self.card = phase_over(behavior.moves_on, end, &self.card);
        end
    }

    fn data_out(&mut self, lines: u8, blocks: &[[u8; 512]]) -> DataEnd {
        let behavior = self.schedule.advance();
        if !give_legal(self.card.state, self.card.transfer)
            || !on_lines(&self.card, lines)
            || !length_fits(&self.desc, &self.card, blocks.len())
        {
            return DataEnd::Cut;
        }
        if fails_later(behavior.phase) {
            self.card = with_error(phase_over(behavior.moves_on, DataEnd::Ok, &self.card));
            return DataEnd::Ok;
        }
        let place = next_place(&self.desc, &self.card);
        if cuts(behavior.phase) || write_blocks(&mut self.image, place, blocks).is_err() {
            self.card = phase_over(behavior.moves_on, DataEnd::Cut, &self.card);
            return DataEnd::Cut;
        }
        self.card = phase_over(behavior.moves_on, DataEnd::Ok, &self.card);
        end_seen(behavior.phase)
    }

    fn wait(&mut self) -> WaitEnd {
        let behavior = self.schedule.advance();
        let end = if wait_legal(self.card.state) {
            wait_end(behavior.ready)
        } else {
            WaitEnd::Ok
        };
        self.card = waited(behavior.moves_on, end, &self.card);
        end
    }
}

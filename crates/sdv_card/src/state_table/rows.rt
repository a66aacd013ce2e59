//! What a row leaves of a settled card, by what a kind says of its rows.

ghost use Rattle.std.specs.Prelude.{◌≡◌, ◌≤◌, ◌+◌, ◌*◌, ◌++◌, ◌∷◌, [], if◌then◌else◌, length, Bool, true, false};
ghost use Rattle.arrayvec.specs.ArrayVec.{array_vec_len};
ghost use Rattle.sdv_registers.specs.declared.kind.Kind.{Kind};
ghost use Rattle.sdv_card.specs.StateTable.{rows, targets};
ghost use Rattle.sdv_card.specs.NextStates.{next_states};
ghost use Rattle.sdv_card.specs.RowRules.{erase_after, length_after, preset_kept, transfer_after};
ghost use Rattle.sdv_card.specs.LegalShapes.{row_legal};
ghost use Rattle.sdv_card.specs.Modes.{calm, failed, first_mode, set};
ghost use Rattle.sdv_card.specs.Outcomes.{with_lengths, with_presets, with_matches, taken, stayed};
ghost use Rattle.sdv_card.specs.declared.command.Row.TheVariants.{Cmd0};
ghost use Rattle.sdv_card.specs.declared.state.State.TheVariants.{Idle};

use super::modes::may_stay_pending;
use super::rules::{erase_after, erase_allows, length_allows, preset_allows, transfer_after};
use crate::command::{Row, Setting};
use crate::fields::Fields;
use crate::state::{EraseStage, Mode, State};
use arrayvec::ArrayVec;
use sdv_registers::Kind;

/// In what the state tables of the kinds differ: the states to which rows lead, and what becomes of a preset count.
pub trait Rows {
    ghost kind: { Kind };

    /// The kind of card.
    fn kind() -> Kind
        ensures { result ≡ kind };

    /// The state after a row, if cards have the row in the state. After CMD1 and ACMD41 a card may stay in idle too.
    fn next(row: Row, from: State) -> Option<State>
        ensures { targets (rows kind row) from ≡ next_states row result };

    /// The preset counts that a row may leave if it neither sets nor ends one.
    fn preset_kept(preset: u16) -> ArrayVec<u16, 2>
        ensures { result.items ≡ preset_kept kind preset };
}

/// Cards have the row in the state, and the block length, the erase stage and the preset count allow it.
pub fn row_legal<T: Rows>(row: Row, t: &Fields) -> bool
    ensures { result ≡ row_legal T.kind row t.now }
{
    T::next(row, t.state).is_some()
        && length_allows(row, t.length_512)
        && erase_allows(row, t.erase)
        && preset_allows(row, t.preset)
}

/// Adds a card for each preset count.
fn with_presets<const N: usize>(all: &mut ArrayVec<Fields, N>, card: Fields, presets: &[u16])
    requires { array_vec_len all.old + length presets.now ≤ N }
    ensures items { all.new.items ≡ all.old.items ++ with_presets card presets.now }
    ensures len { array_vec_len all.new ≡ array_vec_len all.old + length presets.now }
{
    for preset in presets {
        all.push(Fields {
            preset: *preset,
            ..card
        });
    }
}

/// Adds a card for a switch that is made and one for a switch that fails, with each preset count. `card` is as either
/// leaves the card but for its mode, which was `mode`.
fn with_switch(
    all: &mut ArrayVec<Fields, 4>,
    card: Fields,
    mode: Mode,
    setting: Setting,
    presets: &[u16],
)
    requires { array_vec_len all.old + 2 * length presets.now ≤ 4 }
    ensures { all.new.items ≡ all.old.items ++
        (with_presets (record card { mode = calm (set setting mode) }) presets.now ++
        with_presets (record card { mode = failed mode }) presets.now) }
{
    let set = Fields {
        mode: mode.set(setting).calm(),
        ..card
    };
    with_presets(all, set, presets);
    let failed = Fields {
        mode: mode.failed(),
        ..card
    };
    with_presets(all, failed, presets);
}

/// Adds a reset card, with each block length that it may have.
fn with_reset(all: &mut ArrayVec<Fields, 4>, card: Fields)
    requires { array_vec_len all.old + 2 ≤ 4 }
    ensures { all.new.items ≡ all.old.items ++ with_lengths card (length_after Cmd0 card.block_unit card.length_512)
        (first_mode ∷ []) (true ∷ []) (0 ∷ []) }
{
    let reset = Fields {
        mode: Mode::first(),
        matched: true,
        preset: 0,
        ..card
    };
    if !card.block_unit {
        all.push(Fields {
            length_512: false,
            ..reset
        });
    }
    all.push(Fields {
        length_512: true,
        ..reset
    });
}

/// Adds a card that is initialized, if it may be, and one that stays in idle state, with each preset count.
fn with_idle(all: &mut ArrayVec<Fields, 4>, card: Fields, may_be_ready: bool, presets: &[u16])
    requires { array_vec_len all.old + 2 * length presets.now ≤ 4 }
    ensures { all.new.items ≡ all.old.items ++ ((if may_be_ready then with_presets card presets.now else []) ++
        with_presets (record card { state = Idle }) presets.now) }
{
    if may_be_ready {
        with_presets(all, card, presets);
    }
    let idle = Fields {
        state: State::Idle,
        ..card
    };
    with_presets(all, idle, presets);
}

/// Adds a card with the address that the host heard, and where it heard none also one with another, with each preset
/// count.
fn with_address(all: &mut ArrayVec<Fields, 4>, card: Fields, heard: bool, presets: &[u16])
    requires { array_vec_len all.old + 2 * length presets.now ≤ 4 }
    ensures { all.new.items ≡ all.old.items ++
        ((if heard then [] else with_presets (record card { matched = false }) presets.now) ++
        with_presets (record card { matched = true }) presets.now) }
{
    if !heard {
        let unknown = Fields {
            matched: false,
            ..card
        };
        with_presets(all, unknown, presets);
    }
    let known = Fields {
        matched: true,
        ..card
    };
    with_presets(all, known, presets);
}

/// Adds a card, and one whose mode is still `mode` if that may be, with each preset count.
fn with_told(
    all: &mut ArrayVec<Fields, 4>,
    card: Fields,
    mode: Mode,
    may_stay: bool,
    presets: &[u16],
)
    requires { array_vec_len all.old + 2 * length presets.now ≤ 4 }
    ensures { all.new.items ≡ all.old.items ++ (with_presets card presets.now ++
        (if may_stay then with_presets (record card { mode = mode }) presets.now else [])) }
{
    with_presets(all, card, presets);
    if may_stay {
        with_presets(all, Fields { mode, ..card }, presets);
    }
}

/// A settled card in the state after a row, with what every row does to the other parts: CMD0 does more, and where a row
/// leaves several cards, they differ from this one.
fn in_next_state(row: Row, state: State, t: &Fields) -> Fields
    ensures { result ≡ record t.now {
      state = state;
      app = false;
      erase = erase_after row t.now.erase;
      transfer = transfer_after row t.now.preset t.now.transfer;
      mode = calm t.now.mode;
    } }
{
    Fields {
        state,
        app: false,
        erase: erase_after(row, t.erase),
        transfer: transfer_after(row, t.preset, t.transfer),
        mode: t.mode.calm(),
        ..*t
    }
}

/// A settled card after a row; `heard`: the host heard the answer, or there is none.
pub fn taken<T: Rows>(row: Row, heard: bool, t: &Fields) -> ArrayVec<Fields, 4>
    ensures { result.items ≡ taken T.kind row heard t.now }
{
    let mut all = ArrayVec::new();
    let Some(state) = T::next(row, t.state) else {
        return all;
    };
    let u = in_next_state(row, state, t);
    let kept = T::preset_kept(t.preset);
    let kept = kept.as_slice();
    match row {
        Row::Cmd0 => with_reset(&mut all, u),
        Row::Cmd1 => with_idle(&mut all, u, true, kept),
        Row::Cmd3Sd => with_address(&mut all, u, heard, kept),
        Row::Cmd3Emmc => with_presets(&mut all, Fields { matched: true, ..u }, kept),
        Row::Cmd6 { setting } => with_switch(&mut all, u, t.mode, setting, kept),
        Row::Cmd13 => {
            let may_stay = may_stay_pending(heard, t.state, t.mode);
            with_told(&mut all, u, t.mode, may_stay, kept);
        }
        Row::Cmd16 => {
            let length_512 = true;
            with_presets(&mut all, Fields { length_512, ..u }, kept);
        }
        Row::Cmd18 { .. } | Row::Cmd25 { .. } => all.push(Fields { preset: 0, ..u }),
        Row::Cmd23 { count } => all.push(Fields { preset: count, ..u }),
        Row::Cmd55 => {
            with_presets(&mut all, u, kept);
            with_presets(&mut all, Fields { app: true, ..u }, kept);
        }
        Row::Acmd6 { width } => {
            let mode = t.mode.set(Setting::Lines(width)).calm();
            with_presets(&mut all, Fields { mode, ..u }, kept);
        }
        Row::Acmd41 { high_capacity } => {
            with_idle(&mut all, u, high_capacity | !t.block_unit, kept);
        }
        _ => with_presets(&mut all, u, kept),
    }
    all
}

/// Adds a card for each match, with each preset count.
fn with_matches(all: &mut ArrayVec<Fields, 8>, card: Fields, matches: &[bool], presets: &[u16])
    requires few_presets { length presets.now ≤ 2 }
    requires room { array_vec_len all.old + 2 * length matches.now ≤ 8 }
    ensures items { all.new.items ≡ all.old.items ++ with_matches card matches.now presets.now }
    ensures few { array_vec_len all.new ≤ array_vec_len all.old + 2 * length matches.now }
{
    for matched in matches {
        let card = Fields {
            matched: *matched,
            ..card
        };
        with_presets(all, card, presets);
    }
}

/// A settled card that did not take a row, with each match: it lost its application flag, and perhaps its erase stage
/// or its preset count. At CMD13 it is as one that took it may be, and is not listed.
pub fn stayed<T: Rows>(row: Row, matches: &[bool], t: &Fields) -> ArrayVec<Fields, 8>
    requires { length matches.now ≤ 2 }
    ensures items { (heard : Bool) → result.items ≡ stayed T.kind row heard matches.now t.now }
    ensures few { array_vec_len result ≤ 4 * length matches.now }
{
    let mut all = ArrayVec::new();
    if let Row::Cmd13 = row {
        return all;
    }
    let u = Fields {
        app: false,
        mode: t.mode.calm(),
        ..*t
    };
    let kept = T::preset_kept(t.preset);
    with_matches(&mut all, u, matches, kept.as_slice());
    match row {
        Row::Acmd13 => {}
        _ => {
            let ended = Fields {
                erase: EraseStage::Outside,
                ..u
            };
            with_matches(&mut all, ended, matches, kept.as_slice());
        }
    }
    all
}

// Settings and rows: what they are, which refusal number refuses them, and what an effect sees of them in a scan.
// Document 01, "Settings, row, state", "Refusal numbers" and "The rules of one scan". It rests on `rules` and `bits`.
// How a refusal number is computed, and in which order the tests of one refusal number are made, may change without moving a contract;
// the order of the refusal numbers may not.
#![tactic(auto)]

mod numbers;

ghost use Rattle.std.specs.Prelude.{◌≡◌, ◌&&◌, ◌||◌, not, ◌+◌, ◌<◌, ◌≤◌, eqb, leb, ltb};
ghost use Rattle.std.specs.Int.Bits.{bit_and};
ghost use Rattle.std.specs.Int.Count.{ones};
ghost use Rattle.bits.specs.Lists.{all_from};
ghost use Rattle.rules.specs.Limits.{most_delay, most_hold};
ghost use Rattle.settings.specs.Right.{known_of, block_number, effect_ok, effect_number, count_ok, slot_ok, effects_number, settings_number, words_ok, fields_number, apart, apart_number, several, several_number, words_number, hold_number, row_number};
ghost use Rattle.settings.specs.Refusals.{number_in};
ghost use Rattle.settings.specs.Causes.{seen_of};
ghost use Rattle.settings.specs.Signals.{forces_count};

pub use numbers::{Refusal, Refused, number_in};
use rules::Seen;

// The settings of one effect: its association word and its delay in milliseconds.
#[derive(Clone, Copy)]
pub struct Effect {
    pub association: u16,
    pub delay: u32,
}

// Cause count, options, scan period in milliseconds, effect count, and sixteen slots of effects.
#[derive(Clone, Copy)]
pub struct Settings {
    pub causes: u8,
    pub options: u8,
    pub period: u16,
    pub count: u8,
    pub effects: [Effect; 16],
}

// The ten words of a row.
#[derive(Clone, Copy)]
pub struct Words {
    pub values: u16,
    pub bad: u16,
    pub mask: u16,
    pub require_reset: u16,
    pub reset_permit: u16,
    pub start_permit: u16,
    pub reset: u16,
    pub force_permit: u16,
    pub force_trip: u16,
    pub force_normal: u16,
}

#[derive(Clone, Copy)]
pub struct Row {
    pub hold: u32,
    pub words: Words,
}

// What is known of the settings where effects and rows are checked: the causes and effects that exist, and the options.
#[derive(Clone, Copy)]
pub struct Known {
    pub causes: u8,
    pub count: u8,
    pub options: u8,
}

impl Effect {
    pub const MOST_DELAY: u32 = 3600000;

    // The constant is the definition's.
    pub fn most_delay() -> u32
        ensures { result ≡ most_delay }
    {
        Effect::MOST_DELAY
    }
}

impl Row {
    pub const MOST_HOLD: u32 = 1000000;

    // The constant is the definition's.
    pub fn most_hold() -> u32
        ensures { result ≡ most_hold }
    {
        Row::MOST_HOLD
    }
}

// ---- settings: refusal number 2, then 3

pub fn known_of(st: Settings) -> Known
    ensures { result ≡ known_of st }
{
    Known {
        causes: st.causes,
        count: st.count,
        options: st.options,
    }
}

// Refuses a block section that is not valid: refusal number 2.
pub fn check_block(causes: u8, options: u8, period: u16) -> Result<(), Refusal>
    ensures { number_in result ≡ block_number causes options period }
{
    if (1 <= causes) & (causes <= 16) & (options < 8) & (1 <= period) & (period <= 1000) {
        Ok(())
    } else {
        Err(Refusal::Block)
    }
}

fn effect_ok(causes: u8, e: Effect) -> bool
    ensures { result ≡ effect_ok causes e }
{
    (1 <= e.association) & bits::within(e.association, causes) & (e.delay <= Effect::MOST_DELAY)
}

// Refuses an effect that is not valid: refusal number 3.
pub fn check_effect(causes: u8, e: Effect) -> Result<(), Refusal>
    ensures { number_in result ≡ effect_number causes e }
{
    if effect_ok(causes, e) {
        Ok(())
    } else {
        Err(Refusal::Effects)
    }
}

// Slot i holds a valid effect; past the count it is zero.
fn slot_ok(known: Known, i: usize, e: Effect) -> bool
    ensures { result ≡ slot_ok known i e }
{
    if i < (known.count as usize) {
        effect_ok(known.causes, e)
    } else {
        (e.association == 0) & (e.delay == 0)
    }
}

fn slots_ok(known: Known, effects: [Effect; 16]) -> bool
    ensures { result ≡ all_from (slot_ok known) 0 effects }
{
    for (i, e) in effects.iter().enumerate() {
        if !slot_ok(known, i, *e) {
            return false;
        }
    }
    true
}

fn count_ok(count: u8) -> bool
    ensures { result ≡ count_ok count }
{
    (1 <= count) & (count <= 16)
}

// Refuses an effect count or slots that are not valid: refusal number 3.
fn check_effects(st: Settings) -> Result<(), Refusal>
    ensures { number_in result ≡ effects_number st }
{
    let effects = st.effects;
    if count_ok(st.count) & slots_ok(known_of(st), effects) {
        Ok(())
    } else {
        Err(Refusal::Effects)
    }
}

// Refuses settings that are not valid.
#[tactic(auto, unfolding(crate::specs::Right::settings_number))]
pub fn check_settings(st: Settings) -> Result<(), Refusal>
    ensures { number_in result ≡ settings_number st }
{
    check_block(st.causes, st.options, st.period)?;
    check_effects(st)
}

// ---- rows: refusal numbers 4, 5, then 6

fn words_ok(known: Known, w: Words) -> bool
    ensures { result ≡ words_ok known w }
{
    let causes = known.causes;
    let count = known.count;
    bits::within(w.values, causes)
        & bits::within(w.bad, causes)
        & bits::within(w.mask, causes)
        & bits::within(w.require_reset, count)
        & bits::within(w.reset_permit, count)
        & bits::within(w.start_permit, count)
        & bits::within(w.reset, count)
        & (w.force_permit <= 1)
        & bits::within(w.force_trip, count)
        & bits::within(w.force_normal, count)
}

fn check_fields(known: Known, w: Words) -> Result<(), Refusal>
    ensures { number_in result ≡ fields_number known w }
{
    if words_ok(known, w) {
        Ok(())
    } else {
        Err(Refusal::Rows)
    }
}

// No effect stands in both force words.
fn is_apart(w: Words) -> bool
    ensures { result ≡ apart w }
{
    w.force_trip & w.force_normal == 0
}

fn check_apart(w: Words) -> Result<(), Refusal>
    ensures { number_in result ≡ apart_number w }
{
    if is_apart(w) {
        Ok(())
    } else {
        Err(Refusal::BothForces)
    }
}

// The two force words hold more than one bit together. Whoever asks for a refusal number, or why it is given, counts here.
pub fn is_several(w: Words) -> bool
    ensures { result ≡ several w }
{
    1 < w.force_trip.count_ones() + w.force_normal.count_ones()
}

fn check_several(known: Known, w: Words) -> Result<(), Refusal>
    ensures { number_in result ≡ several_number known w }
{
    if bits::bit(known.options as u16, 2) | !is_several(w) {
        Ok(())
    } else {
        Err(Refusal::SeveralForced)
    }
}

// Refuses words that are not valid.
#[tactic(auto, unfolding(crate::specs::Right::words_number))]
pub fn check_words(known: Known, w: Words) -> Result<(), Refusal>
    ensures { number_in result ≡ words_number known w }
{
    check_fields(known, w)?;
    check_apart(w)?;
    check_several(known, w)
}

fn check_hold(hold: u32) -> Result<(), Refusal>
    ensures { number_in result ≡ hold_number hold }
{
    if (1 <= hold) & (hold <= Row::MOST_HOLD) {
        Ok(())
    } else {
        Err(Refusal::Rows)
    }
}

// Refuses a row that is not valid.
#[tactic(auto, unfolding(crate::specs::Right::row_number))]
pub fn check_row(known: Known, row: Row) -> Result<(), Refusal>
    ensures { number_in result ≡ row_number known row }
{
    check_hold(row.hold)?;
    check_words(known, row.words)
}

// ---- what an effect sees in a scan

// Forces count.
pub fn forces_count(options: u8, w: Words) -> bool
    ensures { result ≡ forces_count options w }
{
    (w.force_permit == 1) | bits::bit(options as u16, 1)
}

// What is seen of the causes.
pub fn seen_of(options: u8, w: Words) -> Seen
    ensures { result ≡ seen_of options w }
{
    Seen {
        tripped: !w.values & !w.mask,
        bad: if bits::bit(options as u16, 0) {
            w.bad & !w.mask
        } else {
            0
        },
    }
}

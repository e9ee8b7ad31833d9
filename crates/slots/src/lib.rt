// What is kept of an effect from scan to scan, and when it is valid for the settings: refusal number 8, except for the scans done.
// Document 01, "Settings, row, state". It rests on `settings` and `rules`. How the tests are made may change without moving a contract;
// what is valid stands in specs/Slots.
#![tactic(auto)]

ghost use Rattle.std.specs.Prelude.{◌≡◌, ◌<◌};
ghost use Rattle.bits.specs.Lists.{all_from};
ghost use Rattle.slots.specs.Slots.{timer_right, first_right, slot_right, slot_unused, slot_ok};

use rules::{EffectState, Slot};
use settings::{Effect, Settings};

fn timer_right(delay: u32, x: Slot) -> bool
    ensures { result ≡ timer_right delay x }
{
    let p = x.state;
    if p == EffectState::Delayed {
        (1 <= x.timer) & (x.timer <= delay)
    } else {
        x.timer == 0
    }
}

fn first_right(association: u16, x: Slot) -> bool
    ensures { result ≡ first_right association x }
{
    let p = x.state;
    if p == EffectState::Normal {
        x.first_out == 0
    } else {
        x.first_out & association == x.first_out
    }
}

// What is kept of an effect is valid.
fn slot_right(e: Effect, x: Slot) -> bool
    ensures { result ≡ slot_right e x }
{
    timer_right(e.delay, x) & first_right(e.association, x)
}

// The slot holds what is kept of no effect.
fn slot_unused(x: Slot) -> bool
    ensures { result ≡ slot_unused x }
{
    let p = x.state;
    (p == EffectState::Tripped) & (x.timer == 0) & (x.first_out == 0)
}

// Slot i is valid, or unused past the count. The settings are lent: as a value they would be copied for each slot.
fn slot_ok(st: &Settings, i: usize, x: Slot) -> bool
    requires { i < 16 }
    ensures { result ≡ slot_ok st.now i x }
{
    if i < (st.count as usize) {
        let e = st.effects[i];
        slot_right(e, x)
    } else {
        slot_unused(x)
    }
}

// Every slot is valid, or unused past the count.
pub fn slots_ok(st: Settings, slots: [Slot; 16]) -> bool
    ensures { result ≡ all_from (slot_ok st) 0 slots }
{
    for (i, x) in slots.iter().enumerate() {
        if !slot_ok(&st, i, *x) {
            return false;
        }
    }
    true
}

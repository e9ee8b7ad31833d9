// From slots to words and back; the words are those of the effects in each state.
ghost use Rattle.std.specs.Prelude.{◌≡◌, ◌<◌, ◌≤◌, get_or};
ghost use Rattle.bits.specs.Words.{word_of};
ghost use Rattle.rules.specs.Rules.{no_slot, same};
ghost use Rattle.planes.specs.Planes.{planes_of, state_at};

use super::Planes;
use rules::{EffectState, Slot};

// The effects in state q.
fn plane(count: usize, xs: [Slot; 16], q: EffectState) -> u16
    requires { count ≤ 16 }
    ensures { result ≡ word_of (λ i. same (get_or xs i no_slot).state q) count }
{
    bits::word_where(count, |i| xs[i].state == q)
}

// The states of the slots, by words.
pub fn planes_of(count: usize, xs: [Slot; 16]) -> Planes
    requires { count ≤ 16 }
    ensures { result ≡ planes_of count (λ i. (get_or xs i no_slot).state) }
{
    Planes {
        tripped: plane(count, xs, EffectState::Tripped),
        wait_reset: plane(count, xs, EffectState::WaitReset),
        ready: plane(count, xs, EffectState::Ready),
        wait_start: plane(count, xs, EffectState::WaitStart),
        normal: plane(count, xs, EffectState::Normal),
        delayed: plane(count, xs, EffectState::Delayed),
    }
}

// The state of effect i.
fn state_at(p: Planes, i: usize) -> EffectState
    requires { i < 16 }
    ensures { result ≡ state_at p i }
{
    if bits::bit(p.tripped, i) {
        return EffectState::Tripped;
    }
    if bits::bit(p.wait_reset, i) {
        return EffectState::WaitReset;
    }
    if bits::bit(p.ready, i) {
        return EffectState::Ready;
    }
    if bits::bit(p.wait_start, i) {
        return EffectState::WaitStart;
    }
    if bits::bit(p.normal, i) {
        return EffectState::Normal;
    }
    EffectState::Delayed
}

pub fn slot_of(p: Planes, t: u32, f: u16, i: usize) -> Slot
    requires { i < 16 }
    ensures { result ≡ (record { state = state_at p i; timer = t; first_out = f }) }
{
    Slot {
        state: state_at(p, i),
        timer: t,
        first_out: f,
    }
}

// The states of all effects as six words, one bit an effect, and the rules of one scan as formulas on them, so that a scan of all effects
// takes a few operations on words. Document 01, "The rules of one scan" and "Held runs and their two counts".
// What the rules mean stands in the specs of `rules`, effect by effect; the proofs here show that the formulas give the same, and `boards`
// shows it of a scan and a held run. It rests on `rules` and `bits`. All of it may change without moving a contract of an entry point:
// inner functions alone cite it.
#![tactic(auto)]

mod words;

ghost use Rattle.std.specs.Prelude.{◌≡◌, ◌≤◌, ◌<◌};
ghost use Rattle.planes.specs.Planes.{planes_after, changed_of, one_of, code_at};

pub use words::{planes_of, slot_of};

// What the rules ask of all effects, one bit an effect. bad_trip, active and with_delay: the effect's Bad causes, its active word and its
// delay are not 0.
#[derive(Clone, Copy)]
pub struct Asked {
    pub force_trip: u16,
    pub force_normal: u16,
    pub bad_trip: u16,
    pub active: u16,
    pub require_reset: u16,
    pub reset_permit: u16,
    pub start_permit: u16,
    pub reset: u16,
    pub with_delay: u16,
}

// The states of all effects: bit i is set in the word of effect i's state.
#[derive(Clone, Copy)]
pub struct Planes {
    pub tripped: u16,
    pub wait_reset: u16,
    pub ready: u16,
    pub wait_start: u16,
    pub normal: u16,
    pub delayed: u16,
}

// ---- the rules by words

// The states after a scan. due: the timer is at most the period.
pub fn planes_after(w: Asked, due: u16, p: Planes) -> Planes
    ensures { result ≡ planes_after w due p }
{
    let stop = w.force_trip | (w.force_normal | w.bad_trip);
    // The effects that an active cause trips at once.
    let open = p.tripped | (p.wait_reset | (p.ready | (p.wait_start | (p.normal & !w.with_delay))));
    let trips = (p.delayed & due) | (w.active & open);
    let asks = p.tripped & w.require_reset;
    let waits = p.wait_reset | (p.ready | asks);
    let permitted = w.reset_permit & (p.wait_reset | (asks | (p.ready & !w.reset)));
    // The effects that need only the start permit to reach Normal.
    let way = p.wait_start
        | ((p.tripped & !w.require_reset) | (p.ready & (w.reset_permit & w.reset)));
    let starts = p.normal | (w.start_permit & way);
    let delays = (p.delayed & !due) | (p.normal & (w.active & w.with_delay));
    Planes {
        tripped: w.force_trip | ((w.bad_trip & !w.force_normal) | (trips & !stop)),
        wait_reset: waits & !(stop | (w.active | w.reset_permit)),
        ready: permitted & !(stop | w.active),
        wait_start: way & !(stop | (w.active | w.start_permit)),
        normal: (w.force_normal & !w.force_trip) | (starts & !(stop | w.active)),
        delayed: delays & !stop,
    }
}

// The effects whose state differs between p and q.
pub fn changed(p: Planes, q: Planes) -> u16
    ensures { result ≡ changed_of p q }
{
    (p.tripped & !q.tripped)
        | ((p.wait_reset & !q.wait_reset)
            | ((p.ready & !q.ready)
                | ((p.wait_start & !q.wait_start)
                    | ((p.normal & !q.normal) | (p.delayed & !q.delayed)))))
}

// ---- codes

fn one_bit(w: u16, i: usize) -> u8
    requires { i < 16 }
    ensures { (result ≡ one_of w i) × (result ≤ 1) }
{
    ((w >> i) % 2) as u8
}

// The code of effect i's state, bit by bit: three words give it, which are the same for every effect of a scan.
pub fn code_at(p: Planes, i: usize) -> u8
    requires { i < 16 }
    ensures { result ≡ code_at p i }
{
    one_bit(p.wait_reset | p.wait_start | p.delayed, i)
        + 2 * one_bit(p.ready | p.wait_start, i)
        + 4 * one_bit(p.normal | p.delayed, i)
}

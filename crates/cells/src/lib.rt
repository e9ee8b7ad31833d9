// The lent array: associations, delays, timers and first-outs of sixteen effects, in four parts, read and changed in place at the set
// bits of a word of effects. Document 01, "The rules of one scan" and "Held runs and their two counts".
// This crate is a part of the algorithm of `engine`. It rests on `boards` for what the parts mean and on `planes` for the states.
// All of it may change without moving a contract of an entry point: inner functions alone cite it.
#![tactic(auto)]

mod slots;

ghost use Rattle.std.specs.Prelude.{◌≡◌, ◌-◌, ◌*◌, ◌^◌, ◌<◌, ◌≤◌, min, get_or};
ghost use Rattle.std.specs.Int.Count.{count_trailing_zeros};
ghost use Rattle.bits.specs.Words.{bit_of, word_of};
ghost use Rattle.rules.specs.Limits.{most_hold, most_period};
ghost use Rattle.boards.specs.Table.{watches, due_in, Still, low_to};
ghost use Rattle.cells.specs.Array.{associations_in, timers_in};
ghost use Rattle.cells.specs.Changed.{fallen, settled_at};

use bits::Ones;
pub use slots::{fill, load, slots_of};

// What stays the same from row to row: the number of effects, the scan period, the options, and words of effects and causes: all
// effects, those with a delay, and the causes that any effect watches.
// That there are at most sixteen effects is asked by each function and is no fact of this type, since `plan_of` (plans/specs) makes a plan of any
// settings, also of those with more. The lent array stands beside the plan and not in one struct with it: a plan stays while the array changes, so
// that a contract which says what the array becomes need not say that the plan stays.
#[derive(Clone, Copy)]
pub struct Plan {
    pub count: usize,
    pub period: u32,
    pub options: u8,
    pub all: u16,
    pub with_delay: u16,
    pub watched: u16,
}

// Where the parts of the lent array begin. It is one array and no struct of four: two parts cannot be lent at once, and arrays in a value that
// is handed down cost some 10 ns a row (docs/DECISIONS.md).
pub const ASSOCIATIONS: usize = 0;

pub const DELAYS: usize = 16;

pub const TIMERS: usize = 32;

pub const FIRST_OUTS: usize = 48;

// ---- words of effects

// The effects that watch one of the causes. In most rows there are none, because no effect watches a cause that is tripped or Bad; the
// loop is then left out.
pub fn watching(count: usize, board: &[u32; 64], causes: u16) -> u16
    requires { count ≤ 16 }
    ensures { result ≡ word_of (watches (associations_in board.now) causes) count }
{
    if causes == 0 {
        return 0;
    }
    bits::word_where(count, |i| 0 < board[i] & causes as u32)
}

// The effects in Delayed whose timer is at most the period. Nothing asks this of the other effects.
fn due_of(board: &[u32; 64], plan: Plan, delayed: u16) -> u16
    requires { (plan.count ≤ 16) × (delayed < 2 ^ plan.count) }
    ensures { result ≡ word_of (due_in (timers_in board.now) plan.period delayed) plan.count }
{
    let mut word: u16 = 0;
    for i in Ones(delayed) {
        word = bits::put_bit(word, i, board[TIMERS + i] <= plan.period);
    }
    word
}

// The same, where the least timer of the effects in Delayed is known: mostly it is above the period, and the loop is left out.
pub fn due_by(board: &[u32; 64], plan: Plan, delayed: u16, low: u32) -> u16
    requires { (plan.count ≤ 16) × (delayed < 2 ^ plan.count) × (low ≡ low_to (bit_of delayed) (λ i. get_or (timers_in board.now) i 0) plan.count) }
    ensures { result ≡ word_of (due_in (timers_in board.now) plan.period delayed) plan.count }
{
    if plan.period < low {
        return 0;
    }
    due_of(board, plan, delayed)
}

// ---- a scan

// The timers of the effects in Delayed after one scan, in place, whatever the scan changes. The answer is the effects that were due in it,
// as of `due_of`: both are read in one loop.
pub fn tick(board: &mut [u32; 64], plan: Plan, delayed: u16) -> u16
    requires { (plan.count ≤ 16) × (delayed < 2 ^ plan.count) × Still plan.count delayed (timers_in board.old) }
    ensures value { result ≡ word_of (due_in (timers_in board.old) plan.period delayed) plan.count }
    ensures board_after { board.new ≡ fallen plan.count plan.period board.old }
{
    let mut word: u16 = 0;
    for i in Ones(delayed) {
        let t = board[TIMERS + i];
        word = bits::put_bit(word, i, t <= plan.period);
        board[TIMERS + i] = t.saturating_sub(plan.period);
    }
    word
}

// The timer and the first-out of effect i, in place, where a scan has changed its state. causes: those that a first-out may take. was, is:
// the effects in Normal before the scan and after it. delayed: those in Delayed after it.
pub fn settle(board: &mut [u32; 64], i: usize, causes: u16, was: u16, is: u16, delayed: u16)
    requires { i < 16 }
    ensures { board.new ≡ settled_at causes was is delayed i board.old }
{
    let c = board[i];
    let d = board[DELAYS + i];
    let f = board[FIRST_OUTS + i];
    board[TIMERS + i] = if bits::bit(delayed, i) { d } else { 0 };
    board[FIRST_OUTS + i] = if bits::bit(is, i) {
        0
    } else if bits::bit(was, i) {
        c & causes as u32
    } else {
        f
    };
}

// ---- timers later

// The least timer of the effects in Delayed.
pub fn low_timer(board: &[u32; 64], count: usize, delayed: u16) -> u32
    requires { (count ≤ 16) × (delayed < 2 ^ count) }
    ensures { result ≡ low_to (bit_of delayed) (λ i. get_or (timers_in board.now) i 0) count }
{
    let mut low = u32::MAX;
    for i in Ones(delayed) {
        low = low.min(board[TIMERS + i]);
    }
    low
}

// The timers after k scans that leave every state as it is, in place.
pub fn timers_later(k: u32, board: &mut [u32; 64], plan: Plan, delayed: u16)
    requires { (plan.count ≤ 16) × (k ≤ most_hold) × (plan.period ≤ most_period) × (delayed < 2 ^ plan.count) × Still plan.count delayed (timers_in board.old) }
    ensures { board.new ≡ fallen plan.count (k * plan.period) board.old }
{
    if k == 0 {
        return;
    }
    let by = k * plan.period;
    for i in Ones(delayed) {
        let t = board[TIMERS + i];
        board[TIMERS + i] = t.saturating_sub(by);
    }
}

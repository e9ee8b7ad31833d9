// The block: its state, when it is valid, one scan and a held run. Document 01, "Settings, row, state", "The rules of one
// scan", "Held runs and their two counts" and "Refusal numbers".
// It rests on `settings` and `slots` for what is valid and on `wiring` for the run. How a run is made (`run_right`, `run_kept` and all
// below them) may change without moving a contract; the order of the refusal numbers and what a state keeps may not.
#![tactic(auto)]

ghost use Rattle.std.specs.Prelude.{◌≡◌, true, ◌*◌, ◌≤◌, ◌<◌, length, replicate};
ghost use Rattle.std.proofs.lemmas.List.Edits.{sets};
ghost use Rattle.bits.specs.Words.{one, word_of};
ghost use Rattle.effects.specs.Records.{record_length, bytes};
ghost use Rattle.rules.specs.Limits.{most_scans};
ghost use Rattle.settings.specs.Refusals.{number_in};
ghost use Rattle.block.specs.Answer.{as_scanned, as_held};
ghost use Rattle.block.specs.State.{state_number, fresh as fresh_state};
ghost use Rattle.block.specs.Scan.{scans_number, input_number, scan_of, scan_into};
ghost use Rattle.block.specs.Held.{run, granted_held, held_of, held_into};
ghost use Rattle.cells.specs.Array.{array_length, firsts_in};
ghost use Rattle.engine.specs.Marks.{board_at};
ghost use Rattle.boards.specs.Table.{Narrow};
ghost use Rattle.block.specs.Run.{LoadedAs, reached_by, Runnable, RunsBy, scanned_by};

use cells::Plan;
use engine::Mark;
use planes::Planes;
use rules::{EffectState, Slot};
use settings::{Refusal, Row, Settings, Words};
use wiring::Struck;

// The state of the block: scans done, the next sequence number, and sixteen slots, one for each effect.
#[derive(Clone, Copy)]
pub struct State {
    pub scans_done: u32,
    pub next: u16,
    pub slots: [Slot; 16],
}

// What a scan answers: the state after it, the effect and the latent word, and the number of records.
#[derive(Clone, Copy)]
pub struct Scanned {
    pub state: State,
    pub effect: u16,
    pub latent: u16,
    pub records: usize,
}

// What a held run answers: what a scan answers, with the words of its last scan, and its live and exercised scans.
#[derive(Clone, Copy)]
pub struct Held {
    pub state: State,
    pub effect: u16,
    pub latent: u16,
    pub records: usize,
    pub live: u32,
    pub exercised: u32,
}

// Why a scan or a held run is refused, and the state that was given.
#[derive(Clone, Copy)]
pub struct RunRefused {
    pub refusal: Refusal,
    pub state: State,
}

impl From<RunRefused> for Refusal {
    ghost from_gives = { λ refused refusal. refusal ≡ refused.refusal };

    fn from(refused: RunRefused) -> Refusal {
        refused.refusal
    }
}

// ---- when a state is valid: refusal number 8

#[tactic(auto, unfolding(crate::specs::State::state_number))]
fn check_state(st: Settings, x: State) -> Result<(), Refusal>
    ensures { number_in result ≡ state_number st x }
{
    let slots = x.slots;
    if (x.scans_done <= State::MOST_SCANS) & slots::slots_ok(st, slots) {
        Ok(())
    } else {
        Err(Refusal::State)
    }
}

// ---- when a scan or a held run is valid: refusal numbers 2, 3, 8, 4, 5, 6, 9

// Refuses a hold whose scans end after the last that is counted: refusal number 9.
pub fn check_scans(done: u32, hold: u32) -> Result<(), Refusal>
    ensures { number_in result ≡ scans_number done hold }
{
    if (done as u64) + (hold as u64) <= State::MOST_SCANS as u64 {
        Ok(())
    } else {
        Err(Refusal::LastScan)
    }
}

// Refuses settings, a state or a row that are not valid, and scans that cannot be counted.
#[tactic(auto, unfolding(crate::specs::Scan::input_number))]
fn check_input(st: Settings, x: State, row: Row) -> Result<(), Refusal>
    ensures { number_in result ≡ input_number st x row }
{
    settings::check_settings(st)?;
    check_state(st, x)?;
    settings::check_row(settings::known_of(st), row)?;
    check_scans(x.scans_done, row.hold)
}

// ---- a held run

fn refused(refusal: Refusal, given: State) -> RunRefused
    ensures { result ≡ (record { refusal = refusal; state = given }) }
{
    RunRefused {
        refusal,
        state: given,
    }
}

// The exercised scans of a hold.
pub fn exercised_scans(hold: u32, exercised: bool) -> u32
    ensures { result ≡ hold * one exercised }
{
    if exercised { hold } else { 0 }
}

// What a stroke with these settings starts with, at a state: its mark, and the array, which has to be 0 before.
pub fn load(board: &mut [u32; 64], st: Settings, x: State) -> Mark
    requires { (st.count ≤ 16) × (board.old ≡ replicate array_length 0) }
    ensures { LoadedAs st x (record { mark = result; board = board.new }) }
{
    let slots = x.slots;
    plans::wire(board, st);
    let planes = cells::load(board, st.count as usize, slots);
    Mark {
        scans_done: x.scans_done,
        next: x.next,
        at: 0,
        live: 0,
        planes,
    }
}

// What `load` gives at a fresh state, from the word of all effects alone: each is Tripped, and the array has no timers and no first-outs.
pub fn load_fresh(board: &mut [u32; 64], st: Settings, all: u16) -> Mark
    requires { (st.count ≤ 16) × (board.old ≡ replicate array_length 0) × (all ≡ word_of (λ i. true) st.count) }
    ensures { LoadedAs st fresh_state (record { mark = result; board = board.new }) }
{
    plans::wire(board, st);
    Mark {
        scans_done: 0,
        next: 0,
        at: 0,
        live: 0,
        planes: Planes {
            tripped: all,
            wait_reset: 0,
            ready: 0,
            wait_start: 0,
            normal: 0,
            delayed: 0,
        },
    }
}

// The state that a stroke has reached.
fn reached(board: &[u32; 64], count: usize, mark: Mark) -> State
    requires { (count ≤ 16) × Narrow (firsts_in board.now) }
    ensures { result ≡ reached_by count (board_at mark board.now) }
{
    let planes = mark.planes;
    State {
        scans_done: mark.scans_done,
        next: mark.next,
        slots: cells::slots_of(board, count, planes),
    }
}

// A held run as `run_right` gives it, where the state is kept as words of effects from row to row.
pub fn run_kept(buf: &mut [u8], board: &mut [u32; 64], plan: Plan, row: Row, from: Mark) -> Struck
    requires { Runnable plan row from board.old (length buf.old) }
    ensures { RunsBy plan row from board.old buf.old result board.new buf.new }
{
    wiring::stroke(buf, board, plan, row, from)
}

// A held run in one stroke, of valid input: the row's words for its hold, the reset word in the first scan
// only. Its records go to the front of `buf`. A single scan is a run of hold 1.
pub fn run_right(buf: &mut [u8], st: Settings, row: Row, x: State) -> Held
    requires { (input_number st x row ≡ 0) × (record_length * length (run st row x).events ≤ length buf.old) }
    ensures value { as_held (Ok result) ≡ granted_held st row x }
    ensures buf_after { buf.new ≡ sets buf.old 0 (bytes (run st row x).events) }
{
    let mut board = [0u32; 64];
    let from = load(&mut board, st, x);
    let plan = plans::plan_of(st);
    let r = wiring::stroke(buf, &mut board, plan, row, from);
    let mark = r.mark;
    Held {
        state: reached(&board, plan.count, mark),
        effect: r.effect,
        latent: r.latent,
        records: mark.at / effects::RECORD_LENGTH,
        live: mark.live,
        exercised: exercised_scans(row.hold, r.exercised),
    }
}

// The part of a held run's answer that a scan answers.
fn scan_of(h: Held) -> Scanned
    ensures { as_scanned (Ok result) ≡ scanned_by (as_held (Ok h)) }
{
    let state = h.state;
    Scanned {
        state: state,
        effect: h.effect,
        latent: h.latent,
        records: h.records,
    }
}

impl State {
    pub const MOST_SCANS: u32 = 1000000000;

    // The constant is the definition's.
    pub fn most_scans() -> u32
        ensures { result ≡ most_scans }
    {
        State::MOST_SCANS
    }

    // A fresh state: every effect is Tripped, and all numbers are 0.
    pub fn fresh() -> Self
        ensures { result ≡ fresh_state }
    {
        let x = Slot {
            state: EffectState::Tripped,
            timer: 0,
            first_out: 0,
        };
        Self {
            scans_done: 0,
            next: 0,
            slots: [x; 16],
        }
    }

    // One scan: its records go to the front of `out`. It is a held run of hold 1.
    pub fn scan(self, st: Settings, w: Words, out: &mut [u8]) -> Result<Scanned, RunRefused>
        ensures value { as_scanned result ≡ scan_of st w self (length out.old) }
        ensures out_after { out.new ≡ scan_into st w self out.old }
    {
        let once = Row { hold: 1, words: w };
        let held = self.held(st, once, out)?;
        Ok(scan_of(held))
    }

    // A held run. Its records go to the front of `out`. They are laid in a space of their own first, because a run that is refused for
    // want of room touches no byte of `out`. It is not inlined: where a caller makes state and settings of numbers that it knows one by one, the
    // compiler takes both apart there, and puts them together again wherever a slot or an effect is taken by its number.
    #[inline(never)]
    pub fn held(self, st: Settings, row: Row, out: &mut [u8]) -> Result<Held, RunRefused>
        ensures value { as_held result ≡ held_of st row self (length out.old) }
        ensures out_after { out.new ≡ held_into st row self out.old }
    {
        if let Err(refusal) = check_input(st, self, row) {
            return Err(refused(refusal, self));
        }
        let mut space = [0u8; effects::MOST_ROW_BYTES];
        let ran = run_right(&mut space, st, row, self);
        let at = effects::RECORD_LENGTH * ran.records;
        if out.len() < at {
            return Err(refused(Refusal::Room, self));
        }
        bits::copy_front(&space, at, out);
        Ok(ran)
    }
}

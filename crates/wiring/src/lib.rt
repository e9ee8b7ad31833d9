// What a row gives to the words of effects: what the rules are asked of all of them, and a held run of it. Document 01, "The rules
// of one scan".
// This crate leads from a row to the algorithm of `engine`. What an effect sees stands in the specs of `settings`. It rests on `engine`,
// on `plans` for what the settings give, on `settings`, and on what those rest on. All of it may change without moving a contract of an
// entry point.
#![tactic(auto)]

ghost use Rattle.std.specs.Prelude.{◌≡◌, ◌≤◌, length};
ghost use Rattle.cells.specs.Array.{associations_in};
ghost use Rattle.wiring.specs.Wiring.{watched_of, asked_by, task_of, Runnable, RunsBy};

use cells::Plan;
use engine::{Mark, Task};
use planes::Asked;
use rules::Seen;
use settings::{Row, Words};

// What a held run results in: its mark, the effect and latent words of its last scan, and whether it exercises an effect.
#[derive(Clone, Copy)]
pub struct Struck {
    pub mark: Mark,
    pub effect: u16,
    pub latent: u16,
    pub exercised: bool,
}

// ---- a row

// What is seen of the causes that any effect watches. The others reach no effect, and are left out once for all that is asked of the causes.
fn watched_of(plan: Plan, w: Words) -> Seen
    ensures { result ≡ watched_of plan w }
{
    let seen = settings::seen_of(plan.options, w);
    Seen {
        tripped: seen.tripped & plan.watched,
        bad: seen.bad & plan.watched,
    }
}

// What the rules are asked in a row. seen: of the causes that any effect watches.
fn asked_by(plan: Plan, board: &[u32; 64], seen: Seen, w: Words) -> Asked
    requires { plan.count ≤ 16 }
    ensures { result ≡ asked_by plan (associations_in board.now) seen w }
{
    let counts = settings::forces_count(plan.options, w);
    Asked {
        force_trip: if counts { w.force_trip } else { 0 },
        force_normal: if counts { w.force_normal } else { 0 },
        bad_trip: cells::watching(plan.count, board, seen.bad),
        active: cells::watching(plan.count, board, seen.tripped),
        require_reset: w.require_reset,
        reset_permit: w.reset_permit,
        start_permit: w.start_permit,
        reset: w.reset,
        with_delay: plan.with_delay,
    }
}

// What a row asks of a stroke.
fn task_of(plan: Plan, board: &[u32; 64], row: Row) -> Task
    requires { plan.count ≤ 16 }
    ensures { result ≡ task_of plan (associations_in board.now) row }
{
    let words = row.words;
    let seen = watched_of(plan, words);
    Task {
        hold: row.hold,
        seen,
        asked: asked_by(plan, board, seen, words),
    }
}

// A held run of a valid row, in one stroke. Its records go to the front of the buffer, and the timers and first-outs
// are those after it.
pub fn stroke(buf: &mut [u8], board: &mut [u32; 64], plan: Plan, row: Row, from: Mark) -> Struck
    requires { Runnable plan row from board.old (length buf.old) }
    ensures { RunsBy plan row from board.old buf.old result board.new buf.new }
{
    let task = task_of(plan, board, row);
    let mark = engine::stroke(buf, board, plan, task, from);
    let seen = task.seen;
    let asked = task.asked;
    let p = mark.planes;
    Struck {
        mark,
        effect: p.normal | p.delayed,
        latent: asked.force_normal & (asked.active | asked.bad_trip),
        exercised: seen.tripped | seen.bad != 0,
    }
}

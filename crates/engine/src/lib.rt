// The stroke: a held run of a row by rounds, on words of effects, with one lent array for what each effect has. Document 01, "Held runs
// and their two counts".
// This crate is an algorithm alone: it is proved to give what `boards` says of words, and so the held run over lists of slots. It rests on
// `cells` for the array, on `boards` and `planes`, and on what those rest on. All of it may change without moving a contract of an entry
// point: inner functions alone cite it.
#![tactic(auto)]

ghost use Rattle.std.specs.Prelude.{◌≡◌, ◌+◌, ◌-◌, ◌*◌, ◌/◌, ◌%◌, ◌^◌, ◌<◌, ◌≤◌, not, length, ◌==◌, slice_index};
ghost use Rattle.std.proofs.lemmas.List.Edits.{sets};
ghost use Rattle.bits.specs.Words.{bit_of, one, word_of};
ghost use Rattle.rules.specs.Limits.{most_hold, most_period, most_scans};
ghost use Rattle.effects.specs.Records.{record_length};
ghost use Rattle.cells.specs.Array.{timers_in, firsts_in};
ghost use Rattle.cells.specs.Changed.{settled_in};
ghost use Rattle.planes.specs.Planes.{planes_after, changed_of};
ghost use Rattle.boards.specs.Table.{due_at, low_to, quiets_by, joined};
ghost use Rattle.engine.specs.Marks.{record_by, scan_entries, Changeable, begun};
ghost use Rattle.engine.specs.Stroke.{Calm, ScanReady, ScanDone, StrokeReady, StrokeDone};

use bits::Ones;
use cells::Plan;
use effects::Record;
use planes::{Asked, Planes};
use rules::Seen;

// What a row asks of a stroke: its hold, what is seen of the causes, and what the rules ask.
#[derive(Clone, Copy)]
pub struct Task {
    pub hold: u32,
    pub seen: Seen,
    pub asked: Asked,
}

// How far a run of scans has got: the scans done, the next sequence number, the place after the records in the buffer, the live scans so
// far, and the effects' states. Associations, delays, timers and first-outs are in one array that is lent beside it. Timers and first-outs
// change in place: to copy them from scan to scan would cost more than all the rest.
#[derive(Clone, Copy)]
pub struct Mark {
    pub scans_done: u32,
    pub next: u16,
    pub at: usize,
    pub live: u32,
    pub planes: Planes,
}

// ---- scans that are not live

// Whether the next scan changes a state. low: the least timer of the effects in Delayed. still: the scan before has changed none; then only
// a delay that runs out can, and the rules are not asked once more.
fn changes_next(board: &[u32; 64], plan: Plan, w: Asked, p: Planes, low: u32, still: bool) -> bool
    requires { (plan.count ≤ 16) × (p.delayed < 2 ^ plan.count) × (low ≡ low_to (bit_of p.delayed) (λ i. slice_index (timers_in board.now) i) plan.count) × Calm w p still }
    ensures { result ≡ not (changed_of p (planes_after w (word_of (due_at (timers_in board.now) plan.period) plan.count) p) == 0) }
{
    if still & (plan.period < low) {
        return false;
    }
    let due = cells::due_by(board, plan, p.delayed, low);
    let next = planes::planes_after(w, due, p);
    planes::changed(p, next) != 0
}

// How many of the next n scans leave every state as it is. still: the scan before has changed none.
fn quiets(n: u32, board: &[u32; 64], plan: Plan, w: Asked, p: Planes, still: bool) -> u32
    requires { (plan.count ≤ 16) × (n ≤ most_hold) × (0 < plan.period) × (plan.period ≤ most_period) × (p.delayed < 2 ^ plan.count) × Calm w p still }
    ensures { result ≡ quiets_by n plan.count plan.period w p (timers_in board.now) }
{
    if n == 0 {
        return n;
    }
    let low = cells::low_timer(board, plan.count, p.delayed);
    if changes_next(board, plan, w, p, low, still) {
        return 0;
    }
    if p.delayed == 0 {
        return n;
    }
    n.min(low.saturating_sub(1) / plan.period)
}

// ---- the records

// The record of effect i of a scan from x to the states `is`. q: its sequence number.
fn record_at(board: &[u32; 64], x: Mark, is: Planes, q: u16, i: usize) -> Record
    requires { (i < 16) × (x.scans_done < most_scans) }
    ensures { result ≡ record_by (firsts_in board.now) x is q i }
{
    let was = x.planes;
    Record {
        seq: q,
        scan: x.scans_done + 1,
        effect: i as u8 + 1,
        from: planes::code_at(was, i),
        to: planes::code_at(is, i),
        first_out: (board[cells::FIRST_OUTS + i] % 65536) as u16,
    }
}

// Ends a scan from x to the states `is` for the effects in the word `ch`, which it has changed: their timers and first-outs go into the
// array and their records into the buffer, in one loop. causes: those that a first-out may take. The answer is the place after the records.
fn put_changed(
    buf: &mut [u8],
    board: &mut [u32; 64],
    causes: u16,
    x: Mark,
    is: Planes,
    ch: u16,
) -> usize
    requires { Changeable causes x is ch board.old (length buf.old) }
    ensures value { result ≡ x.at + record_length * length (scan_entries (firsts_in board.new) x is ch) }
    ensures board_after { board.new ≡ settled_in causes x.planes is ch board.old 16 }
    ensures buf_after { buf.new ≡ sets buf.old x.at (joined (scan_entries (firsts_in board.new) x is ch)) }
{
    let was = x.planes;
    let mut at = x.at;
    let mut q = x.next;
    for i in Ones(ch) {
        cells::settle(board, i, causes, was.normal, is.normal, is.delayed);
        effects::put_record(buf, at, record_at(board, x, is, q, i));
        at += effects::RECORD_LENGTH;
        q = q.wrapping_add(1);
    }
    at
}

// ---- a run

// The sequence number after the records from one place to another.
fn seq_after(q: u16, from: usize, to: usize) -> u16
    requires { (from ≤ to) × (to ≤ from + 192) }
    ensures { result ≡ (q + (to - from) / record_length) % 2 ^ 16 }
{
    q.wrapping_add(((to - from) / effects::RECORD_LENGTH) as u16)
}

// One scan more. Its records go to the buffer at the run's place.
fn scan(buf: &mut [u8], board: &mut [u32; 64], plan: Plan, seen: Seen, w: Asked, x: Mark) -> Mark
    requires { ScanReady plan seen w x board.old (length buf.old) }
    ensures { ScanDone plan seen w x board.old buf.old result board.new buf.new }
{
    let was = x.planes;
    let due = cells::tick(board, plan, was.delayed);
    let is = planes::planes_after(w, due, was);
    let ch = planes::changed(was, is);
    let at = put_changed(buf, board, seen.tripped | seen.bad, x, is, ch);
    Mark {
        scans_done: x.scans_done + 1,
        next: seq_after(x.next, x.at, at),
        at,
        live: x.live + u32::from(ch != 0),
        planes: is,
    }
}

// The run that starts where another run has ended.
pub fn begin(x: Mark) -> Mark
    ensures { result ≡ begun x }
{
    Mark {
        at: 0,
        live: 0,
        ..x
    }
}

// A held run by rounds: one scan by the rules, and then all scans before the next live one or the hold's end. Its records go
// to the front of the buffer, and the timers and first-outs are those after it. The reset counts in the first scan and is 0 afterwards. The
// falling number of the loop is `fuel`.
pub fn stroke(buf: &mut [u8], board: &mut [u32; 64], plan: Plan, task: Task, from: Mark) -> Mark
    requires { StrokeReady plan task from board.old (length buf.old) }
    ensures { StrokeDone plan task from board.old buf.old result board.new buf.new }
{
    let mut w = task.asked;
    let mut x = begin(from);
    let mut left = task.hold;
    let mut fuel = 2 * plan.count + 1;
    // No `for`: each turn takes off the scans that it jumps over, so that no counter gives the number of turns. By the fuel they end.
    while 0 < left {
        fuel -= 1;
        let y = scan(buf, board, plan, task.seen, w, x);
        w = Asked { reset: 0, ..w };
        left -= 1;
        let k = quiets(left, board, plan, w, y.planes, y.live == x.live);
        cells::timers_later(k, board, plan, y.planes.delayed);
        x = Mark {
            scans_done: y.scans_done + k,
            ..y
        };
        left -= k;
    }
    x
}

// How all effects stand after the last scan of a recording: what the reasons of their states are read from. Document 02, L4. It rests on
// `rerun` for the rows, on `cells` for the slots, and on `reasoned` and `reasons`. Only the last row's records are read: what they say up to
// the scan before the last tells each effect's state before that scan. All of it may change without moving a contract of an entry point.
#![tactic(auto)]

ghost use Rattle.std.specs.Prelude.{◌≡◌, ◌+◌, ◌≤◌, ◌<◌};
ghost use Rattle.rules.specs.Limits.{most_effects};
ghost use Rattle.effects.specs.Records.{Recorded};
ghost use Rattle.recording.specs.Answers.{row_count_of};
ghost use Rattle.recording.specs.Opened.{IsRead};
ghost use Rattle.recording.specs.Reader.{reading};
ghost use Rattle.rerun.specs.Replay.{replay};
ghost use Rattle.rerun.specs.Turn.{Going};
ghost use Rattle.standing.specs.Stands.{told_by, ToldAll, Stands, reason_now};

use effects::Event;
use reasons::{Reason, Sight};
use recording::Recording;
use rerun::Run;
use rules::Slot;
use settings::Settings;

// from: each effect's state before the last scan, in a slot of which only the state counts. to: its slot after that scan. sight: what a
// reason reads of the last row.
// Two arrays: `cells` gives the slots of all effects at once, before the last row and after it, and pairs would be copies of both.
#[derive(Clone, Copy)]
pub struct Standing {
    pub from: [Slot; 16],
    pub to: [Slot; 16],
    pub sight: Sight,
}

// ---- the states before the last scan

// Gives the slots the state that an event leads to, if its scan is not after `scan`.
fn tell(slots: &mut [Slot; 16], e: Event, scan: u32)
    requires { (1 ≤ e.effect) × (e.effect ≤ most_effects) }
    ensures { slots.new ≡ told_by scan e slots.old }
{
    if e.scan <= scan {
        let i = (e.effect - 1) as usize;
        slots[i] = Slot {
            state: e.to,
            timer: 0,
            first_out: 0,
        };
    }
}

// Gives the slots the states that the n records at the front of `records` lead to, up to `scan`.
fn tell_all(slots: &mut [Slot; 16], records: &[u8], n: usize, scan: u32)
    requires { Recorded records.now n }
    ensures { ToldAll scan records.now n slots.old slots.new }
{
    for i in 0..n {
        let e = effects::event_at(records, effects::RECORD_LENGTH * i);
        tell(slots, e, scan);
    }
}

// ---- the last row

// How the effects stand after the last row, where the rows before it have run.
fn after_last(s: &[u8], last: Run, board: &mut [u32; 64]) -> Standing
    requires { Going s.now last board.old × (last.rows + 1 ≡ row_count_of (reading s.now).answer) × ((replay s.now).number ≡ 0) }
    ensures { Stands s.now result }
{
    let count = last.plan.count;
    let sight = reasoned::sight_at(s, last);
    let mut from = cells::slots_of(board, count, last.mark.planes);
    let mut records = [0u8; effects::MOST_ROW_BYTES];
    let end = rerun::run_of(rerun::go(s, last, last.rows + 1, board, &mut records, true));
    let reached = end.mark;
    tell_all(
        &mut from,
        &records,
        (end.records - last.records) as usize,
        reached.scans_done.saturating_sub(1),
    );
    let to = cells::slots_of(board, count, reached.planes);
    Standing { from, to, sight }
}

// How the effects of a recording stand after its last scan, where the reader accepts it and none of its rows ends it.
pub fn at_end(s: &[u8], file: Recording) -> Standing
    requires { IsRead file s.now × ((replay s.now).number ≡ 0) }
    ensures { Stands s.now result }
{
    let mut board = [0u32; 64];
    let run = rerun::begin(file, &mut board);
    let mut space = [0u8; effects::MOST_ROW_BYTES];
    let before = (file.rows - 1) as u32;
    let last = rerun::run_of(rerun::go(s, run, before, &mut board, &mut space, false));
    after_last(s, last, &mut board)
}

// ---- the reasons

// The reason of the effect in slot i, from 0.
pub fn reason_now(st: Settings, x: Standing, i: usize) -> Reason
    requires { i < most_effects }
    ensures { result ≡ reason_now st x i }
{
    let was = x.from[i];
    let is = x.to[i];
    let signs = reasons::signs_of(x.sight, st.effects[i].association as u32, i);
    reasons::reason_by(signs, was.state, is.state, is.timer)
}

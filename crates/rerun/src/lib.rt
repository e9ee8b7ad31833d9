// A whole recording, replayed row by row from a fresh state. Document 01, "One session, whole". What the reader has checked
// is not checked again: settings and rows are valid, and so is every state that a replay reaches.
// It rests on `recording` for the reader, on `layout` for the rows and on `block` for the runs. What is carried from row to row (`Run`,
// and the array that is lent beside it) may change without moving the contract of `replay`. A caller that replays row by row uses only
// `Going` and the laws of proofs/Turns.
#![tactic(auto)]

ghost use Rattle.std.specs.Prelude.{◌≡◌, ◌≤◌, length, replicate};
ghost use Rattle.cells.specs.Array.{array_length};
ghost use Rattle.recording.specs.Answer.{Accepted};
ghost use Rattle.recording.specs.Reader.{reading};
ghost use Rattle.rerun.specs.Answer.{as_turn, as_end, as_replayed, as_stop};
ghost use Rattle.rerun.specs.Replay.{refusal, replay as whole_replay, answered};
ghost use Rattle.rerun.specs.Turn.{Begins, RowReady, RowDone, RowsReady, RowsDone, SmallSums, place_of, run_after, counts_in, answer_of, stop_of};

use cells::Plan;
use engine::Mark;
use recording::Recording;
use settings::{Refusal, Refused};
use wiring::Struck;

// What is carried from row to row: what stays the same, how far the effects have got, the width and number of the file's rows, the
// place of the next row, and what the rows so far have given. Associations, delays, timers and first-outs are in one array that is
// lent beside it and changed in place.
#[derive(Clone, Copy)]
pub struct Run {
    pub plan: Plan,
    pub mark: Mark,
    pub width: usize,
    pub row_count: u32,
    pub place: usize,
    pub rows: u32,
    pub records: u32,
    pub live: u32,
    pub exercised: u32,
}

// What one row more results in: the number of its records, and the run after it.
#[derive(Clone, Copy)]
pub struct Turn {
    pub records: usize,
    pub run: Run,
}

// A row that is refused, by refusal number 9, and the run before it, whose place is the row's first byte.
#[derive(Clone, Copy)]
pub struct Stopped {
    pub refusal: Refusal,
    pub run: Run,
}

// What the rows of a whole file have given.
#[derive(Clone, Copy)]
pub struct Counts {
    pub records: u32,
    pub rows: u32,
    pub scans: u32,
    pub live: u32,
    pub exercised: u32,
}

// What is told of a whole file, in text and to other languages: 0, 0 and what its rows have given; or the refusal number, its place, and
// zeros. What tells it takes any numbers, also such as no replay results in.
#[derive(Clone, Copy)]
pub struct Replayed {
    pub number: u8,
    pub place: usize,
    pub records: u32,
    pub rows: u32,
    pub scans: u32,
    pub live: u32,
    pub exercised: u32,
}

impl From<Stopped> for Refused {
    ghost from_gives = { λ stopped refused. refused ≡ (record { refusal = stopped.refusal; place = stopped.run.place }) };

    fn from(stopped: Stopped) -> Refused {
        Refused {
            refusal: stopped.refusal,
            place: stopped.run.place,
        }
    }
}

impl From<Result<Counts, Refused>> for Replayed {
    ghost from_gives = { λ answer told. told ≡ as_replayed answer };

    fn from(answer: Result<Counts, Refused>) -> Replayed {
        match answer {
            Ok(counts) => Replayed {
                number: 0,
                place: 0,
                records: counts.records,
                rows: counts.rows,
                scans: counts.scans,
                live: counts.live,
                exercised: counts.exercised,
            },
            Err(refused) => refused_by(u8::from(refused.refusal), refused.place),
        }
    }
}

// A refusal as it is told: its number, which may be any, its place, and zeros.
fn refused_by(number: u8, place: usize) -> Replayed
    ensures { result ≡ refusal place number }
{
    Replayed {
        number,
        place,
        records: 0,
        rows: 0,
        scans: 0,
        live: 0,
        exercised: 0,
    }
}

// ---- row by row

// The run before the first row of an accepted file. The array has to be 0 before.
pub fn begin(file: Recording, board: &mut [u32; 64]) -> Run
    requires { (file.settings.count ≤ 16) × (board.old ≡ replicate array_length 0) }
    ensures { Begins file.settings file.rows file.first file.width (record { run = result; board = board.new }) }
{
    let plan = plans::plan_of(file.settings);
    let mark = block::load_fresh(board, file.settings, plan.all);
    Run {
        plan,
        mark,
        width: file.width,
        row_count: file.rows as u32,
        place: file.first,
        rows: 0,
        records: 0,
        live: 0,
        exercised: 0,
    }
}

// The run after a row of this hold, whose run resulted in `ran`.
fn after_row(run: Run, hold: u32, ran: Struck) -> Run
    requires { SmallSums run hold ran }
    ensures { result ≡ run_after run hold ran }
{
    let plan = run.plan;
    let mark = ran.mark;
    Run {
        plan,
        mark: engine::begin(mark),
        width: run.width,
        row_count: run.row_count,
        place: run.place + run.width,
        rows: run.rows + 1,
        records: run.records + (mark.at / effects::RECORD_LENGTH) as u32,
        live: run.live + mark.live,
        exercised: run.exercised + block::exercised_scans(hold, ran.exercised),
    }
}

// Replays one row more, the one at the run's place. Its records go to the front of `buf`.
pub fn row(s: &[u8], run: Run, board: &mut [u32; 64], buf: &mut [u8]) -> Result<Turn, Stopped>
    requires { RowReady s.now run board.old (length buf.old) }
    ensures { RowDone s.now run buf.old (as_turn result) board.new buf.new }
{
    let row = layout::row_at(s, run.place, run.width);
    let mark = run.mark;
    if let Err(refusal) = block::check_scans(mark.scans_done, row.hold) {
        return Err(Stopped { refusal, run });
    }
    let plan = run.plan;
    let ran = block::run_kept(buf, board, plan, row, mark);
    let end = ran.mark;
    Ok(Turn {
        records: end.at / effects::RECORD_LENGTH,
        run: after_row(run, row.hold, ran),
    })
}

// Where the records of a row go: after those of the rows before it if they are kept, else over them.
fn place_of(keep: bool, records: u32) -> usize
    ensures { result ≡ place_of keep records }
{
    if keep {
        effects::RECORD_LENGTH * records as usize
    } else {
        0
    }
}

// Replays the rows from the run's next one to the one before `until`, or up to one that is refused. Their records go to the front of
// `buf`, one after the other, if they are to be kept; else the records of each row go over those of the row before. A caller may stop
// at a row and go on from there: the records of the rows that it goes on with are then at the front, so that it needs room for these rows
// alone. This is the one loop that runs rows without text, so that all below it is compiled into it. The records of earlier rows are read
// of `t` and not of `run`: then LLVM keeps `live` and `exercised` apart, which spares some 20 instructions a row on x86-64.
pub fn go(
    s: &[u8],
    run: Run,
    until: u32,
    board: &mut [u32; 64],
    buf: &mut [u8],
    keep: bool,
) -> Result<Run, Stopped>
    requires { RowsReady s.now run until board.old (length buf.old) keep }
    ensures { RowsDone s.now run until keep buf.old (as_end result) board.new buf.new }
{
    let mut t = run;
    let earlier = t.records;
    // No `for`: it would count the rows beside the run, which counts them itself.
    while t.rows < until {
        let at = place_of(keep, t.records - earlier);
        let turn = row(s, t, board, &mut buf[at..])?;
        t = turn.run;
    }
    Ok(t)
}

// The run that some rows ended with: after them, or before the row that is refused.
pub fn run_of(end: Result<Run, Stopped>) -> Run
    ensures { result ≡ (as_end end).run }
{
    match end {
        Ok(run) => run,
        Err(stopped) => stopped.run,
    }
}

// ---- where a replay stops

// Refuses the first row of an accepted file whose scans cannot be counted. This is known before any row is run: the scans done are the sum of
// the holds so far.
pub fn check_holds(s: &[u8], file: Recording) -> Result<(), Refused>
    requires { (reading s.now).answer ≡ Accepted file.rows file.first file.width }
    ensures { as_stop result ≡ stop_of (whole_replay s.now) }
{
    let mut done = 0;
    for passed in 0..file.rows {
        let place = file.first + file.width * passed as usize;
        let row = layout::row_at(s, place, file.width);
        if let Err(refusal) = block::check_scans(done, row.hold) {
            return Err(Refused { refusal, place });
        }
        done += row.hold;
    }
    Ok(())
}

// ---- a whole file

// What the rows of a run have given.
fn counts_of(run: Run) -> Counts
    ensures { as_replayed (Ok result) ≡ counts_in run }
{
    let mark = run.mark;
    Counts {
        records: run.records,
        rows: run.rows,
        scans: mark.scans_done,
        live: run.live,
        exercised: run.exercised,
    }
}

// The answer of a replay that ended so: what its rows have given, or the refusal of the row after them.
pub fn counted(end: Result<Run, Stopped>) -> Result<Counts, Refused>
    ensures { as_replayed result ≡ answer_of (as_end end) }
{
    Ok(counts_of(end?))
}

// What is told of a replay that ended with this refusal number, which may be any, and this run: by 0 what its rows have given, else the
// refusal of the row after them.
pub fn answer_of(number: u8, run: Run) -> Replayed
    ensures { result ≡ answer_of (record { number = number; records = 0; run = run }) }
{
    if number == 0 {
        return Replayed::from(Ok(counts_of(run)));
    }
    refused_by(number, run.place)
}

// Replays a whole recording, and answers what its rows gave, or the refusal. The records are not kept.
pub fn replay(s: &[u8]) -> Result<Counts, Refused>
    ensures { as_replayed result ≡ answered (whole_replay s.now) }
{
    let file = recording::read(s)?;
    let mut board = [0u32; 64];
    let run = begin(file, &mut board);
    let mut space = [0u8; effects::MOST_ROW_BYTES];
    counted(go(s, run, file.rows as u32, &mut board, &mut space, false))
}

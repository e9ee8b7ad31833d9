// Season totals: a report over recordings, each replayed from a fresh state. Document 02, L1. What a total is stands in specs/Season by
// single scans; the code counts by stretches, from the event records that each row leaves (`tally`), and `trace` shows that both agree. It
// rests on `rerun` for the rows and on `tally` for the counting. How rows are counted may change without moving a contract of `Report`.
#![tactic(auto)]

ghost use Rattle.std.specs.Prelude.{◌≡◌, ◌<◌};
ghost use Rattle.settings.specs.Refusals.{number_of};
ghost use Rattle.recording.specs.Answers.{row_count_of};
ghost use Rattle.recording.specs.Opened.{IsRead};
ghost use Rattle.recording.specs.Reader.{reading};
ghost use Rattle.rerun.specs.Replay.{replay};
ghost use Rattle.tally.specs.Shown.{shown};
ghost use Rattle.season.specs.Answer.{as_added};
ghost use Rattle.season.specs.Season.{empty as empty_report, added_to};
ghost use Rattle.season.specs.Rows.{Tallying, PieceEnds, PieceCounted, AllCounted, refused_at, joined};

use recording::Recording;
use rerun::Run;
use settings::{Refusal, Refused};
use tally::Count;

// 113 sums: for each effect, in its slot from 0, seven: the scans after which it stood in each state, by the state's code, and its
// changes into Tripped; behind those of sixteen effects the exercised scans. They are one array since they cross in this order, and are added
// as one.
#[derive(Clone, Copy)]
pub struct Report {
    pub sums: [u64; 113],
}

// A recording that was added: its effect count, and the report after it.
#[derive(Clone, Copy)]
pub struct Added {
    pub effects: u8,
    pub report: Report,
}

// A recording that was not added: what refuses it, and the report as it was.
#[derive(Clone, Copy)]
pub struct NotAdded {
    pub refused: Refused,
    pub report: Report,
}

impl From<NotAdded> for Refusal {
    ghost from_gives = { λ added refusal. refusal ≡ added.refused.refusal };

    fn from(added: NotAdded) -> Refusal {
        added.refused.refusal
    }
}

// ---- counting

// Rows are run in pieces, and the events of a piece are counted after it: so that rows have no second loop beside that of `rerun`. The
// rows of a piece, and the room that their records need.
const PIECE_ROWS: u32 = 32;

const PIECE_BYTES: usize = effects::MOST_ROW_BYTES * PIECE_ROWS as usize;

// Where a piece ends that begins with a row of so many: the row before which it stops.
fn piece_end(row: u32, rows: u32) -> u32
    requires { row < rows }
    ensures { PieceEnds row rows result }
{
    row.saturating_add(PIECE_ROWS).min(rows)
}

// A piece more, of a recording whose rows all run.
fn count_piece(
    s: &[u8],
    run: Run,
    board: &mut [u32; 64],
    records: &mut [u8; PIECE_BYTES],
    count: &mut Count,
) -> Run
    requires { Tallying s.now run board.old (shown count.old) × (run.rows < row_count_of (reading s.now).answer) }
    ensures { PieceCounted s.now run result board.new (shown count.new) }
{
    let until = piece_end(run.rows, run.row_count);
    let next = rerun::run_of(rerun::go(s, run, until, board, records, true));
    count.count_events(records, (next.records - run.records) as usize);
    next
}

// The rows of an accepted file that all run, from the first.
fn count_rows(s: &[u8], run: Run, board: &mut [u32; 64], count: &mut Count) -> Run
    requires { Tallying s.now run board.old (shown count.old) }
    ensures { AllCounted s.now result (shown count.new) }
{
    let mut records = [0u8; PIECE_BYTES];
    let mut t = run;
    // a `for` would count the rows beside the run, which counts them itself
    while t.rows < t.row_count {
        let next = count_piece(s, t, board, &mut records, count);
        t = next;
    }
    t
}

// ---- the report

// The report as it was.
fn not_added(report: Report, refusal: Refusal, place: usize) -> NotAdded
    ensures { as_added (Err result) ≡ refused_at report (number_of refusal) place }
{
    NotAdded {
        refused: Refused { refusal, place },
        report,
    }
}

// The sums of one recording more, of so many effects: 11 if one would pass 64 bits.
fn join(r: Report, effects: u8, more: [u64; 113]) -> Result<Added, NotAdded>
    ensures { as_added result ≡ joined r effects more }
{
    let mut sums = r.sums;
    if !sums::in_range(&sums, &more) {
        return Err(not_added(r, Refusal::Sums, 0));
    }
    sums::add_all(&mut sums, &more);
    Ok(Added {
        effects,
        report: Report { sums },
    })
}

// A file that the reader accepts and none of whose rows ends it.
fn add_whole(r: Report, s: &[u8], file: Recording) -> Result<Added, NotAdded>
    requires { IsRead file s.now × ((replay s.now).number ≡ 0) }
    ensures { as_added result ≡ added_to r s.now }
{
    let mut board = [0u32; 64];
    let run = rerun::begin(file, &mut board);
    let mut count = Count::empty();
    let end = count_rows(s, run, &mut board, &mut count);
    let effects = file.settings.count;
    count.close_all(effects as usize, end.mark.scans_done);
    count.sums[tally::EXERCISED_SUM] = end.exercised as u64;
    join(r, effects, count.sums)
}

impl Report {
    // The empty report.
    pub fn empty() -> Report
        ensures { result ≡ empty_report }
    {
        Report { sums: [0; 113] }
    }

    // One recording more, from a fresh state. Only what the reader refuses has a place.
    pub fn add(self, s: &[u8]) -> Result<Added, NotAdded>
        ensures { as_added result ≡ added_to self s.now }
    {
        let read = recording::read(s);
        let Ok(file) = read else {
            let refused = read.unwrap_err();
            return Err(not_added(self, refused.refusal, refused.place));
        };
        if let Err(stop) = rerun::check_holds(s, file) {
            return Err(not_added(self, stop.refusal, 0));
        }
        add_whole(self, s, file)
    }
}

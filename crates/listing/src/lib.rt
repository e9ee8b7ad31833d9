// The listing of a replay, piece by piece: the opening, the lines of each row, and the closing. Document 01, "One session,
// whole"; document 02, L4: `why` asks for a last column with reasons. Each piece goes to a place of a lent buffer. A buffer with fewer than
// MOST_PIECE bytes left is full: then nothing is written, and the caller goes on with more room. A place within the buffer stays within it, so
// that a caller need not show it. It rests on `rerun`, `reasoned` and `text`, and on what those rest on. How lines are put, and the records that
// a row leaves on the way, may change without moving a contract; the text is specs/Text of `text`, and when a buffer is full is part of every
// contract.
#![tactic(auto)]

ghost use Rattle.std.specs.Prelude.{◌≡◌, ◌+◌, ◌<◌, ◌≤◌, length, IfSome};
ghost use Rattle.recording.specs.Answers.{row_count_of};
ghost use Rattle.recording.specs.Reader.{reading as reading_of};
ghost use Rattle.rerun.specs.Answer.{as_turn};
ghost use Rattle.rerun.specs.Turn.{Going};
ghost use Rattle.wording.specs.Puts.{Puts};
ghost use Rattle.text.specs.Room.{most_piece};
ghost use Rattle.listing.specs.Listing.{closing as closing_of};
ghost use Rattle.reasoned.specs.Told.{NextRow};
ghost use Rattle.listing.specs.Printed.{answer_told, opening as opening_of, column_of, has_room, placed, written, place_of, printed_of, PrintedRow};

use reasons::Sight;
use recording::Recording;
use rerun::{Replayed, Run, Stopped, Turn};
use text::Told;

// The place after a row's lines, and the row's turn.
#[derive(Clone, Copy)]
pub struct Printed {
    pub at: usize,
    pub turn: Result<Turn, Stopped>,
}

const MOST_PIECE: usize = 2368;

// The most bytes of a piece, for the size of a caller's buffer.
pub fn most_piece() -> usize
    ensures { result ≡ most_piece }
{
    MOST_PIECE
}

// Any piece fits from `at` on in a buffer of n bytes.
#[tactic(auto, using(crate::proofs::Placing::too_short, crate::proofs::Placing::less_a_piece))]
pub fn has_room(n: usize, at: usize) -> bool
    ensures { result ≡ has_room n at }
{
    if n < MOST_PIECE {
        return false;
    }
    at <= n - MOST_PIECE
}

fn put_opening(out: &mut [u8], at: usize, answer: Result<Recording, Told>, why: bool) -> usize
    requires { at + most_piece ≤ length out.old }
    ensures value { Puts out.old at (opening_of why (answer_told answer)) result out.new }
    ensures upper_bound { result ≤ length out.old }
{
    match answer {
        Ok(_) | Err(Told { number: 0, .. }) => text::put_header(out, at, why),
        Err(Told { number, place }) => text::put_refusal(out, at, number, place),
    }
}

// The opening of a listing, from the reader's answer: the header; or, for a refused file, the line of the refusal, which is then the whole
// listing. Refusal number 0 refuses nothing. The place after it; none where the buffer is full.
pub fn opening(
    answer: Result<Recording, Told>,
    out: &mut [u8],
    at: usize,
    why: bool,
) -> Option<usize>
    ensures value { result ≡ place_of (written (length out.old) at (opening_of why (answer_told answer))) }
    ensures out_after { out.new ≡ placed out.old at (opening_of why (answer_told answer)) }
    ensures at_in_bounds { IfSome result (λ r. r ≤ length out.old) }
{
    if !has_room(out.len(), at) {
        return None;
    }
    Some(put_opening(out, at, answer, why))
}

// What reasons read of the row at the run's place. Without reasons the row is not read.
fn column_of(s: &[u8], run: Run, why: bool) -> Option<Sight>
    requires { NextRow s.now run }
    ensures { result ≡ column_of why s.now run.rows }
{
    why.then(|| reasoned::sight_at(s, run))
}

// The number of records of a row: one that is refused has none.
fn records_of(turn: Result<Turn, Stopped>) -> usize
    ensures { result ≡ (as_turn turn).records }
{
    match turn {
        Ok(turn) => turn.records,
        Err(_) => 0,
    }
}

// Runs the run's next row, and puts its lines. Most rows have no record, and then there is no column to find. Where the buffer is full, no
// row is run.
pub fn row(
    s: &[u8],
    run: Run,
    board: &mut [u32; 64],
    out: &mut [u8],
    at: usize,
    why: bool,
) -> Option<Printed>
    requires { Going s.now run board.old × (run.rows < row_count_of (reading_of s.now).answer) }
    ensures { PrintedRow why s.now run at out.old (printed_of run at result) board.new out.new }
{
    if !has_room(out.len(), at) {
        return None;
    }
    let mut records = [0u8; effects::MOST_ROW_BYTES];
    let turn = rerun::row(s, run, board, &mut records);
    let count = records_of(turn);
    if count == 0 {
        return Some(Printed { at, turn });
    }
    let column = column_of(s, run, why);
    let next = text::put_lines(out, at, &records, count, column, board);
    Some(Printed { at: next, turn })
}

fn put_closing(out: &mut [u8], at: usize, end: Replayed) -> usize
    requires { at + most_piece ≤ length out.old }
    ensures value { Puts out.old at (closing_of end) result out.new }
    ensures upper_bound { result ≤ length out.old }
{
    if end.number == 0 {
        text::put_last(out, at, end.rows, end.scans, end.live, end.exercised)
    } else {
        text::put_refusal(out, at, end.number, end.place)
    }
}

// The closing of a listing, from what is told of the replay: the last line, or the line of a refusal. The place after it; none where the
// buffer is full.
pub fn closing(end: Replayed, out: &mut [u8], at: usize) -> Option<usize>
    ensures value { result ≡ place_of (written (length out.old) at (closing_of end)) }
    ensures out_after { out.new ≡ placed out.old at (closing_of end) }
    ensures at_in_bounds { IfSome result (λ r. r ≤ length out.old) }
{
    if !has_room(out.len(), at) {
        return None;
    }
    Some(put_closing(out, at, end))
}

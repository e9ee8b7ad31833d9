// A listing on a program's output: its text is `listing`'s, collected in one lent buffer and handed over when no piece fits any more
// and at the end. All programs that print listings do it here. It rests on `listing` and what that rests on, and on std's writers.
// When a part is handed over may change without moving a contract; the parts joined, and how it ends (specs/Status), may not.
#![tactic(auto)]

mod sending;

ghost use Rattle.std.specs.Prelude.{◌≡◌, true, ◌+◌, ◌≤◌, ◌<◌, length, take, drop, OnOk};
ghost use Rattle.std.specs.Io.KnownBytes.{Appends};
ghost use Rattle.text.specs.Room.{most_piece};
ghost use Rattle.rerun.specs.Turn.{Going, answer_of};
ghost use Rattle.rerun.specs.Replay.{replay};
ghost use Rattle.recording.specs.Answer.{as_reading};
ghost use Rattle.listing.specs.Printed.{listing_of, answer_told};
ghost use Rattle.rerun.specs.Answer.{as_end};
ghost use Rattle.printing.specs.Filled.{so_far, filled_of, Filled};
ghost use Rattle.printing.specs.Status.{status as status_of, outcome_number, Told};
ghost use Rattle.printing.specs.Waiting.{Buffer, most_gone, Waiting, Closes};

use recording::Recording;
use rerun::{Replayed, Run, Stopped};
pub use sending::{Sent, Unwritten};
use settings::Refused;
use std::io::Write;

// ---- the text

// How far a buffer was filled: it is full, and the run has a row left for the next one; or no row is left to run, and how the rows ended.
enum Progress {
    Full {
        at: usize,
        run: Run,
    },
    Last {
        at: usize,
        end: Result<Run, Stopped>,
    },
}

// What the reader answers, as the opening is told it.
fn reading_told(answer: Result<Recording, Refused>) -> Result<Recording, text::Told>
    ensures { answer_told result ≡ (as_reading answer).answer }
{
    match answer {
        Ok(file) => Ok(file),
        Err(refused) => Err(text::Told::from(refused)),
    }
}

// What rows that ended so result in, as the closing is told it.
fn end_told(end: Result<Run, Stopped>) -> Replayed
    ensures { result ≡ answer_of (as_end end) }
{
    match end {
        Ok(run) => rerun::answer_of(0, run),
        Err(stopped) => rerun::answer_of(u8::from(stopped.refusal), stopped.run),
    }
}

// Puts the lines of rows, from the one that the run has reached: all that are left, up to a refused one, or as many as fit.
fn fill(
    s: &[u8],
    run: Run,
    board: &mut [u32; 64],
    out: &mut [u8],
    from: usize,
    why: bool,
) -> Progress
    requires { Going s.now run board.old }
    ensures { Filled why s.now run from out.old (filled_of result) board.new out.new }
{
    let mut t = run;
    let mut at = from;
    // No `for`: it would count the rows beside the run, which counts them itself.
    while t.rows < t.row_count {
        let Some(p) = listing::row(s, t, board, out, at, why) else {
            return Progress::Full { at, run: t };
        };
        match p.turn {
            Ok(turn) => t = turn.run,
            Err(stopped) => {
                return Progress::Last {
                    at: p.at,
                    end: Err(stopped),
                };
            }
        }
        at = p.at;
    }
    Progress::Last { at, end: Ok(t) }
}

// ---- the output

// How the listing of a recording ends.
#[derive(Clone, Copy, PartialEq, Eq)]
pub enum Outcome {
    Replayed,
    Refused,
}

// How printing ended where the output took all, and what has gone.
#[derive(Clone, Copy)]
pub struct Ending {
    pub outcome: Outcome,
    pub sent: Sent,
}

// How a listing ends, by how its rows ended.
fn outcome_of(end: Result<Run, Stopped>) -> Outcome
    ensures { outcome_number result ≡ status_of true (as_end end).number }
{
    match end {
        Ok(_) => Outcome::Replayed,
        Err(_) => Outcome::Refused,
    }
}

// Writes what waits at the front of the buffer, which is the rest of the listing.
fn write_rest<W: Write>(
    output: &mut W,
    s: &[u8],
    why: bool,
    sent: Sent,
    out: &[u8],
    at: usize,
    outcome: Outcome,
) -> Result<Ending, Unwritten>
    requires waiting { Waiting why s.now sent (take at out.now) (listing_of why s.now) × (outcome_number outcome ≡ status_of true (replay s.now).number) }
    requires at_in_bounds { (at ≤ length out.now) × Buffer (length out.now) × (sent.gone < most_gone) }
    ensures told { Told why s.now result }
    ensures handed { OnOk result (Appends (W.contents output.old) (W.contents output.new) (drop sent.gone (listing_of why s.now))) }
{
    let sent = sending::flush(output, s, why, sent, &out[..at])?;
    Ok(Ending { outcome, sent })
}

// Puts the closing at a place from which any piece fits, and writes the rest of the listing.
fn write_closing<W: Write>(
    output: &mut W,
    s: &[u8],
    why: bool,
    sent: Sent,
    end: Result<Run, Stopped>,
    out: &mut [u8],
    at: usize,
) -> Result<Ending, Unwritten>
    requires closes { Closes why s.now sent (as_end end) (take at out.old) }
    requires most_piece_in_bounds { (at + most_piece ≤ length out.old) × Buffer (length out.old) × (sent.gone < most_gone) }
    ensures told { Told why s.now result }
    ensures handed { OnOk result (Appends (W.contents output.old) (W.contents output.new) (drop sent.gone (listing_of why s.now))) }
{
    let told = end_told(end);
    let to = listing::closing(told, out, at).unwrap();
    let outcome = outcome_of(end);
    write_rest(output, s, why, sent, out, to, outcome)
}

// The same from any place: where the closing may not fit, what waits is written first.
fn print_closing<W: Write>(
    output: &mut W,
    s: &[u8],
    why: bool,
    sent: Sent,
    end: Result<Run, Stopped>,
    out: &mut [u8],
    at: usize,
) -> Result<Ending, Unwritten>
    requires closes { Closes why s.now sent (as_end end) (take at out.old) }
    requires at_in_bounds { (at ≤ length out.old) × Buffer (length out.old) × (sent.gone + at < most_gone) }
    ensures told { Told why s.now result }
    ensures handed { OnOk result (Appends (W.contents output.old) (W.contents output.new) (drop sent.gone (listing_of why s.now))) }
{
    if listing::has_room(out.len(), at) {
        return write_closing(output, s, why, sent, end, out, at);
    }
    let next = sending::flush(output, s, why, sent, &out[..at])?;
    write_closing(output, s, why, next, end, out, 0)
}

// The listing of a file that the reader accepted, whose opening waits.
fn print_rows<W: Write>(
    output: &mut W,
    s: &[u8],
    run: Run,
    board: &mut [u32; 64],
    out: &mut [u8],
    from: usize,
    why: bool,
) -> Result<Ending, Unwritten>
    requires going { Going s.now run board.old × (take from out.old ≡ so_far why s.now run.rows) }
    requires from_in_bounds { (from ≤ length out.old) × Buffer (length out.old) }
    ensures told { Told why s.now result }
    ensures handed { OnOk result (Appends (W.contents output.old) (W.contents output.new) (listing_of why s.now)) }
{
    let mut sent = sending::nothing();
    let mut filled = fill(s, run, board, out, from, why);
    // No `for`: how often the buffer is full is known only when the last row has been put.
    loop {
        match filled {
            Progress::Full { at, run: next } => {
                sent = sending::flush(output, s, why, sent, &out[..at])?;
                filled = fill(s, next, board, out, 0, why);
            }
            Progress::Last { at, end } => {
                return print_closing(output, s, why, sent, end, out, at);
            }
        }
    }
}

// Prints the listing of a recording, with reasons if `why` asks for them, by way of the lent buffer, and answers how it ended, or
// the write that failed. Where all was written, an output whose bytes are known holds the whole listing more, and nothing else.
pub fn print<W: Write>(
    output: &mut W,
    s: &[u8],
    why: bool,
    out: &mut [u8],
) -> Result<Ending, Unwritten>
    requires { Buffer (length out.old) }
    ensures told { Told why s.now result }
    ensures handed { OnOk result (Appends (W.contents output.old) (W.contents output.new) (listing_of why s.now)) }
{
    let answer = recording::read(s);
    let told = reading_told(answer);
    let at = listing::opening(told, out, 0, why).unwrap();
    match answer {
        Ok(file) => {
            let mut board = [0u32; 64];
            let run = rerun::begin(file, &mut board);
            print_rows(output, s, run, &mut board, out, at, why)
        }
        Err(_) => {
            let sent = sending::nothing();
            write_rest(output, s, why, sent, out, at, Outcome::Refused)
        }
    }
}

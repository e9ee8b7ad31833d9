// The reasons of a recording in lent bytes, 8 bytes a reason, as they cross to other languages: of each event, and of each effect after the
// last scan. Document 02, L4. It rests on `rerun` for the rows, on `reasoned` and `standing` for what reasons are read from, on `room` for
// refusal number 10 and on `reason_bytes` for the bytes of a reason. How reasons are found may change without moving a contract of
// `put_reasons` and `put_now`; their order and their 8 bytes may not.
#![tactic(auto)]

ghost use Rattle.std.specs.Prelude.{◌≡◌, ◌+◌, ◌*◌, ◌≤◌, ◌<◌, length};
ghost use mathlib.Core.List.{flat_map};
ghost use Rattle.std.proofs.lemmas.List.Edits.{sets};
ghost use Rattle.bits.specs.Lists.{tabulate};
ghost use Rattle.rules.specs.Limits.{most_effects};
ghost use Rattle.effects.specs.Records.{Recorded};
ghost use Rattle.settings.specs.Refusals.{number_in};
ghost use Rattle.recording.specs.Answers.{row_count_of};
ghost use Rattle.recording.specs.Reader.{reading as reading_of};
ghost use Rattle.reason_bytes.specs.Bytes.{numbers_of};
ghost use Rattle.reasoned.specs.Reasoned.{reasoned};
ghost use Rattle.standing.specs.Stands.{reason_now};
ghost use Rattle.why_bytes.specs.Bytes.{reason_length, reason_bytes, reasons_number, reasons_into, now_number, now_into};
ghost use Rattle.why_bytes.specs.Rows.{RowPut, Telling, RowTold};

use reasons::Sight;
use rerun::Run;
use settings::{Refusal, Settings};
use standing::Standing;

// The length of a reason, in bytes, and the room that the records of a row need.
const REASON_LENGTH: usize = 8;

const ROW_BYTES: usize = effects::MOST_ROW_BYTES;

// ---- the reasons of all events

// The reasons of the n records at the front of `records`, from `at` on. The association words of the effects stand at the front of
// `associations`.
fn put_row(
    out: &mut [u8],
    at: usize,
    records: &[u8],
    n: usize,
    sight: Sight,
    associations: &[u32; 64],
)
    requires { Recorded records.now n × (at + reason_length * n ≤ length out.old) }
    ensures { RowPut sight associations.now records.now n at out.old out.new }
{
    for i in 0..n {
        let e = effects::event_at(records, effects::RECORD_LENGTH * i);
        let r = reasons::reason_in(sight, associations, e);
        reason_bytes::put_numbers(out, at + REASON_LENGTH * i, r);
    }
}

// Runs a row more, and puts the reasons of its records behind those of the rows before. Most rows have no record, and then the row is not
// read again.
fn put_next(
    s: &[u8],
    run: Run,
    board: &mut [u32; 64],
    records: &mut [u8; ROW_BYTES],
    out: &mut [u8],
) -> Run
    requires { Telling s.now run board.old (length out.old) × (run.rows < row_count_of (reading_of s.now).answer) }
    ensures { RowTold s.now run out.old result board.new out.new }
{
    let next = rerun::run_of(rerun::go(s, run, run.rows + 1, board, records, true));
    let n = (next.records - run.records) as usize;
    if n == 0 {
        return next;
    }
    let sight = reasoned::sight_at(s, run);
    put_row(
        out,
        REASON_LENGTH * run.records as usize,
        records,
        n,
        sight,
        board,
    );
    next
}

// The reasons of the events of all rows, from the first row on.
fn put_rows(s: &[u8], run: Run, board: &mut [u32; 64], out: &mut [u8])
    requires { Telling s.now run board.old (length out.old) × (run.rows ≡ 0) }
    ensures { out.new ≡ sets out.old 0 (reason_bytes (reasoned s.now)) }
{
    let mut records = [0u8; ROW_BYTES];
    let mut t = run;
    // a `for` would count the rows beside the run, which counts them itself
    while t.rows < t.row_count {
        let next = put_next(s, t, board, &mut records, out);
        t = next;
    }
}

// Writes the reasons of all events of a recording to the front of `out`: whatever refuses it does so before any byte is written.
fn reasons_of(s: &[u8], out: &mut [u8]) -> Result<(), Refusal>
    ensures value { number_in result ≡ reasons_number s.now (length out.old) }
    ensures out_after { out.new ≡ reasons_into s.now out.old }
{
    let file = recording::read(s)?;
    rerun::check_holds(s, file)?;
    let mut board = [0u32; 64];
    let run = rerun::begin(file, &mut board);
    room::check_records(s, run, &board, REASON_LENGTH, out.len())?;
    put_rows(s, run, &mut board, out);
    Ok(())
}

// Writes the reasons of all events of a recording to the front of `out`, and answers its refusal number, which crosses by the C interface.
pub fn put_reasons(s: &[u8], out: &mut [u8]) -> u8
    ensures value { result ≡ reasons_number s.now (length out.old) }
    ensures out_after { out.new ≡ reasons_into s.now out.old }
{
    settings::number_in(reasons_of(s, out))
}

// ---- the reasons of all effects after the last scan

// The reasons of the effects that stand so.
fn put_effects(out: &mut [u8], st: Settings, x: Standing)
    requires { (st.count ≤ most_effects) × (reason_length * st.count ≤ length out.old) }
    ensures { out.new ≡ sets out.old 0 (flat_map numbers_of (tabulate (reason_now st x) st.count)) }
{
    for i in 0..st.count as usize {
        let r = standing::reason_now(st, x, i);
        reason_bytes::put_numbers(out, REASON_LENGTH * i, r);
    }
}

// Writes the reasons of all effects after the last scan of a recording to the front of `out`: whatever refuses it does so before any byte is
// written.
fn now_of(s: &[u8], out: &mut [u8]) -> Result<(), Refusal>
    ensures value { number_in result ≡ now_number s.now (length out.old) }
    ensures out_after { out.new ≡ now_into s.now out.old }
{
    let file = recording::read(s)?;
    rerun::check_holds(s, file)?;
    let st = file.settings;
    if out.len() < REASON_LENGTH * st.count as usize {
        return Err(Refusal::Room);
    }
    let x = standing::at_end(s, file);
    put_effects(out, st, x);
    Ok(())
}

// Writes the reasons of all effects after the last scan of a recording to the front of `out`, and answers its refusal number, which crosses by
// the C interface.
pub fn put_now(s: &[u8], out: &mut [u8]) -> u8
    ensures value { result ≡ now_number s.now (length out.old) }
    ensures out_after { out.new ≡ now_into s.now out.old }
{
    settings::number_in(now_of(s, out))
}

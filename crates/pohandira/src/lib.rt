// What other languages call, by `pohandira_c`: the version, a check, a count, a whole replay and the reasons of a recording, and season
// totals over many. Each of these takes bytes and lent buffers, keeps nothing, and answers any bytes. What crosses is in
// specs/Crossing, for season totals in season_bytes/specs/Bytes and for reasons in why_bytes/specs/Bytes; include/pohandira.h says it in C.
// It rests on `rerun` for the replay, on `room` for refusal number 10, on `numbers` for the bytes of what crosses, on `season_bytes` for the
// totals and on `why_bytes` for the reasons. The numbers that cross, their order and their 8 bytes may not change without moving a contract.
#![tactic(auto)]

ghost use Rattle.std.specs.Prelude.{◌≡◌, length};
ghost use Rattle.rerun.specs.Answer.{as_replayed};
ghost use Rattle.pohandira.specs.Crossing.{check_number, check_into, count_number, count_into, replay_number, records_into, totals_or_refusal, totals_into};
ghost use Rattle.pohandira.specs.Version.{version};
ghost use Rattle.season_bytes.specs.Bytes.{into_number, season_into};
ghost use Rattle.why_bytes.specs.Bytes.{reasons_number, reasons_into, now_number, now_into};

use rerun::{Counts, Replayed};
use settings::{Refusal, Refused};

// ---- the version

// The parts of the version, which are those of the file VERSION, and what each counts for in the one number.
const MAJOR: u32 = 0;

const MINOR: u32 = 4;

const PATCH: u32 = 0;

const MAJOR_WORTH: u32 = 1000000;

const MINOR_WORTH: u32 = 1000;

// The version as one number. A caller compares it with that of the header it was compiled with, since what crosses may grow.
pub fn pohandira_version() -> u32
    ensures { result ≡ version }
{
    MAJOR * MAJOR_WORTH + MINOR * MINOR_WORTH + PATCH
}

// ---- a check

// Checks a recording: answers its refusal number, and writes 24 bytes to `answer`: refusal number, place, rows.
pub fn pohandira_check(recording: &[u8], answer: &mut [u8]) -> u8
    ensures value { result ≡ check_number recording.now (length answer.old) }
    ensures answer_after { answer.new ≡ check_into recording.now answer.old }
{
    match recording::read(recording) {
        Ok(file) => numbers::put_check(answer, 0, 0, file.rows),
        Err(refused) => {
            let number = u8::from(refused.refusal);
            numbers::put_check(answer, number, refused.place, 0)
        }
    }
}

// ---- a count

// Replays a recording and keeps no record: answers its refusal number, and writes to `totals` the 56 bytes that a replay with room for
// all records gives. So a caller learns how many records there are before it lends room for them.
pub fn pohandira_count(recording: &[u8], totals: &mut [u8]) -> u8
    ensures value { result ≡ count_number recording.now (length totals.old) }
    ensures totals_after { totals.new ≡ count_into recording.now totals.old }
{
    let counted = rerun::replay(recording);
    numbers::put_counted(totals, Replayed::from(counted))
}

// ---- a replay

// 10 has no place.
fn no_room(refusal: Refusal) -> Refused
    ensures { result ≡ record { refusal = refusal; place = 0 } }
{
    Refused { refusal, place: 0 }
}

// Replays a recording and writes all records to `records`, where the totals have so many bytes of room. What the reader refuses, and 9, come
// before any byte is written, and so does 10.
fn put_records(s: &[u8], records: &mut [u8], totals_room: usize) -> Result<Counts, Refused>
    ensures value { as_replayed result ≡ totals_or_refusal s.now (length records.old) totals_room }
    ensures records_after { records.new ≡ records_into s.now totals_room records.old }
{
    let file = recording::read(s)?;
    rerun::check_holds(s, file)?;
    if totals_room < numbers::TOTALS_BYTES {
        return Err(no_room(Refusal::Room));
    }
    let mut board = [0u32; 64];
    let run = rerun::begin(file, &mut board);
    let each = effects::RECORD_LENGTH;
    if let Err(refusal) = room::check_records(s, run, &board, each, records.len()) {
        return Err(no_room(refusal));
    }
    rerun::counted(rerun::go(s, run, run.row_count, &mut board, records, true))
}

// Replays a recording: answers its refusal number, and writes all records to `records` and 56 bytes to `totals`: records, rows, scans,
// live, exercised, refusal number, place.
pub fn pohandira_replay(recording: &[u8], records: &mut [u8], totals: &mut [u8]) -> u8
    ensures value { result ≡ replay_number recording.now (length records.old) (length totals.old) }
    ensures records_after { records.new ≡ records_into recording.now (length totals.old) records.old }
    ensures totals_after { totals.new ≡ totals_into recording.now (length records.old) totals.old }
{
    let counted = put_records(recording, records, totals.len());
    numbers::put_counted(totals, Replayed::from(counted))
}

// ---- season totals

// Adds a recording to a report: answers its refusal number, and on 0 `report` begins with the 904 bytes of the report after it. On any
// refusal no byte is touched.
pub fn pohandira_season(recording: &[u8], report: &mut [u8]) -> u8
    ensures value { result ≡ into_number recording.now report.old }
    ensures report_after { report.new ≡ season_into recording.now report.old }
{
    season_bytes::add(recording, report)
}

// ---- reasons

// Finds the reason of each event of a recording: answers its refusal number, and on 0 `reasons` begins with 8 bytes for each record of a
// replay, in their order. On any refusal no byte is touched.
pub fn pohandira_reasons(recording: &[u8], reasons: &mut [u8]) -> u8
    ensures value { result ≡ reasons_number recording.now (length reasons.old) }
    ensures reasons_after { reasons.new ≡ reasons_into recording.now reasons.old }
{
    why_bytes::put_reasons(recording, reasons)
}

// Finds the reason of each effect's state after the last scan of a recording: answers its refusal number, and on 0 `reasons` begins with 8
// bytes for each effect, in their order. On any refusal no byte is touched.
pub fn pohandira_now(recording: &[u8], reasons: &mut [u8]) -> u8
    ensures value { result ≡ now_number recording.now (length reasons.old) }
    ensures reasons_after { reasons.new ≡ now_into recording.now reasons.old }
{
    why_bytes::put_now(recording, reasons)
}

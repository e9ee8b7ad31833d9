// The static library that other languages link, by the C ABI: one export for each function of `pohandira`, under its name and with its
// clauses, which calls it and does nothing else. A crate of Rattle is a library or a static library, and the crates above `pohandira` rest on
// its contracts; so the exports stand here. A slice crosses as a pointer and a length; include/pohandira.h says it all in C. The names, the
// order of the parameters and the numbers that cross may not change; how `pohandira` answers may.
#![tactic(auto)]

ghost use Rattle.std.specs.Prelude.{◌≡◌, length};
ghost use Rattle.pohandira.specs.Crossing.{check_number, check_into, count_number, count_into, replay_number, records_into, totals_into};
ghost use Rattle.pohandira.specs.Version.{version};
ghost use Rattle.season_bytes.specs.Bytes.{into_number, season_into};
ghost use Rattle.why_bytes.specs.Bytes.{reasons_number, reasons_into, now_number, now_into};

// The version as one number. A caller compares it with that of the header it was compiled with, since what crosses may grow.
#[unsafe(no_mangle)]
pub extern "C" fn pohandira_version() -> u32
    ensures { result ≡ version }
{
    pohandira::pohandira_version()
}

// Checks a recording: answers its refusal number, and writes 24 bytes to `answer`: refusal number, place, rows.
#[unsafe(no_mangle)]
pub extern "C" fn pohandira_check(recording: &[u8], answer: &mut [u8]) -> u8
    ensures value { result ≡ check_number recording.now (length answer.old) }
    ensures answer_after { answer.new ≡ check_into recording.now answer.old }
{
    pohandira::pohandira_check(recording, answer)
}

// Replays a recording and keeps no record: answers its refusal number, and writes to `totals` the 56 bytes that a replay with room for
// all records gives. So a caller learns how many records there are before it lends room for them.
#[unsafe(no_mangle)]
pub extern "C" fn pohandira_count(recording: &[u8], totals: &mut [u8]) -> u8
    ensures value { result ≡ count_number recording.now (length totals.old) }
    ensures totals_after { totals.new ≡ count_into recording.now totals.old }
{
    pohandira::pohandira_count(recording, totals)
}

// Replays a recording: answers its refusal number, and writes all records to `records` and 56 bytes to `totals`: records, rows, scans,
// live, exercised, refusal number, place.
#[unsafe(no_mangle)]
pub extern "C" fn pohandira_replay(recording: &[u8], records: &mut [u8], totals: &mut [u8]) -> u8
    ensures value { result ≡ replay_number recording.now (length records.old) (length totals.old) }
    ensures records_after { records.new ≡ records_into recording.now (length totals.old) records.old }
    ensures totals_after { totals.new ≡ totals_into recording.now (length records.old) totals.old }
{
    pohandira::pohandira_replay(recording, records, totals)
}

// Adds a recording to a report: answers its refusal number, and on 0 `report` begins with the 904 bytes of the report after it. On any
// refusal no byte is touched.
#[unsafe(no_mangle)]
pub extern "C" fn pohandira_season(recording: &[u8], report: &mut [u8]) -> u8
    ensures value { result ≡ into_number recording.now report.old }
    ensures report_after { report.new ≡ season_into recording.now report.old }
{
    pohandira::pohandira_season(recording, report)
}

// Finds the reason of each event of a recording: answers its refusal number, and on 0 `reasons` begins with 8 bytes for each record of a
// replay, in their order. On any refusal no byte is touched.
#[unsafe(no_mangle)]
pub extern "C" fn pohandira_reasons(recording: &[u8], reasons: &mut [u8]) -> u8
    ensures value { result ≡ reasons_number recording.now (length reasons.old) }
    ensures reasons_after { reasons.new ≡ reasons_into recording.now reasons.old }
{
    pohandira::pohandira_reasons(recording, reasons)
}

// Finds the reason of each effect's state after the last scan of a recording: answers its refusal number, and on 0 `reasons` begins with 8
// bytes for each effect, in their order. On any refusal no byte is touched.
#[unsafe(no_mangle)]
pub extern "C" fn pohandira_now(recording: &[u8], reasons: &mut [u8]) -> u8
    ensures value { result ≡ now_number recording.now (length reasons.old) }
    ensures reasons_after { reasons.new ≡ now_into recording.now reasons.old }
{
    pohandira::pohandira_now(recording, reasons)
}

// A report in lent bytes, as it crosses to other languages: 113 numbers of 8 bytes, big-endian. Document 02, L1. It rests on `season` for
// the report, and on `bits` and `numbers` for the numbers. How a recording is added may change without moving a contract; the bytes of a
// report may not.
#![tactic(auto)]

ghost use Rattle.std.specs.Prelude.{◌≡◌, ◌≤◌, length};
ghost use Rattle.std.proofs.lemmas.List.Edits.{sets};
ghost use Rattle.settings.specs.Refusals.{or_else, number_in};
ghost use Rattle.rerun.specs.Replay.{replay};
ghost use Rattle.season_bytes.specs.Bytes.{report_length, report_of, report_bytes, into_number, season_into};

use bits::BigEndian;
use season::Report;
use settings::Refusal;

// The bytes of a number, the sums of a report, and its bytes.
const NUMBER_BYTES: usize = 8;

const SUM_COUNT: usize = 113;

const REPORT_BYTES: usize = NUMBER_BYTES * SUM_COUNT;

// The report that `bytes` begins with.
pub fn report_at(bytes: &[u8]) -> Report
    requires { report_length ≤ length bytes.now }
    ensures { result ≡ report_of bytes.now }
{
    let mut sums = [0u64; SUM_COUNT];
    for (k, sum) in sums.iter_mut().enumerate() {
        *sum = u64::get(bytes, NUMBER_BYTES * k);
    }
    Report { sums }
}

// Writes a report to the front of `bytes`; what stands behind it stays.
pub fn put_report(bytes: &mut [u8], r: Report)
    requires { report_length ≤ length bytes.old }
    ensures { bytes.new ≡ sets bytes.old 0 (report_bytes r) }
{
    numbers::put_numbers(bytes, &r.sums);
}

// Refuses a recording for which there is no report: what refuses the recording itself comes before 10.
fn without_room(s: &[u8]) -> Result<(), Refusal>
    ensures { number_in result ≡ or_else (replay s.now).number 10 }
{
    rerun::replay(s)?;
    Err(Refusal::Room)
}

// Adds a recording to the report that `bytes` begins with.
fn add_into(s: &[u8], bytes: &mut [u8]) -> Result<(), Refusal>
    ensures value { number_in result ≡ into_number s.now bytes.old }
    ensures bytes_after { bytes.new ≡ season_into s.now bytes.old }
{
    if bytes.len() < REPORT_BYTES {
        return without_room(s);
    }
    let before = report_at(bytes);
    let added = before.add(s)?;
    put_report(bytes, added.report);
    Ok(())
}

// Adds a recording to the report that `bytes` begins with, and answers its refusal number, which crosses by the C interface.
pub fn add(s: &[u8], bytes: &mut [u8]) -> u8
    ensures value { result ≡ into_number s.now bytes.old }
    ensures bytes_after { bytes.new ≡ season_into s.now bytes.old }
{
    settings::number_in(add_into(s, bytes))
}

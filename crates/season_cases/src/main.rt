// Answers a stream of season cases on standard input: a report and a recording each, and for each a line of hexadecimal digits: the
// refusal number, the place, the effects and the report after the recording was added. second/README.md lays both streams out. It is a
// test program over `season`, `season_bytes`, `cases` and `streams`: all but the streams may change.
#![tactic(auto)]

ghost use Rattle.std.specs.Prelude.{◌≤◌, length};
ghost use Rattle.season_bytes.specs.Bytes.{report_length};

use bits::BigEndian;
use season::{Added, NotAdded};
use std::io;
use std::io::{ErrorKind, Write};

// The bytes of a report.
const REPORT_BYTES: usize = 904;

// Where the place, the effects and the report stand in an answer, and its bytes.
const PLACE: usize = 1;

const EFFECTS: usize = 9;

const REPORT: usize = 10;

const ANSWER_BYTES: usize = REPORT + REPORT_BYTES;

// The digits of an answer.
const DIGITS: usize = 2 * ANSWER_BYTES;

// What is not answered stays 0: an added recording has no refusal, and one that is not added no effects.
fn answer_bytes(a: Result<Added, NotAdded>) -> [u8; ANSWER_BYTES] {
    let mut out = [0u8; ANSWER_BYTES];
    match a {
        Ok(added) => {
            u8::put(&mut out, EFFECTS, added.effects);
            season_bytes::put_report(&mut out[REPORT..], added.report);
        }
        Err(kept) => {
            let refused = kept.refused;
            u8::put(&mut out, 0, u8::from(refused.refusal));
            u64::put(&mut out, PLACE, refused.place as u64);
            season_bytes::put_report(&mut out[REPORT..], kept.report);
        }
    }
    out
}

// Writes the line of an answer.
fn print<W: Write>(output: &mut W, a: Result<Added, NotAdded>) -> io::Result<()> {
    let mut line = [b'\n'; DIGITS + 1];
    cases::put_hex(&answer_bytes(a), &mut line, 0);
    output.write_all(&line)
}

// Adds the recording that stands behind a report to it, and writes the answer.
fn answer_whole<W: Write>(output: &mut W, case: &[u8]) -> io::Result<()>
    requires { report_length ≤ length case.now }
{
    let before = season_bytes::report_at(case);
    print(output, before.add(&case[REPORT_BYTES..]))
}

// Answers a case; one that is too short for a report has no answer.
fn answer<W: Write>(output: &mut W, case: &[u8]) -> io::Result<()> {
    if case.len() < REPORT_BYTES {
        return Err(ErrorKind::UnexpectedEof.into());
    }
    answer_whole(output, case)
}

// The bytes of the longest case of a stream.
const MOST_BYTES: usize = 50166;

fn main(rt: HostRuntime) {
    streams::answer_each_sized::<MOST_BYTES, _, _, _>(&mut rt.stdin(), &mut rt.stdout(), answer);
}

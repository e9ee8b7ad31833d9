// Answers a stream of scan cases: 241 bytes each on standard input, a line each on standard output. second/README.md
// lays both out. It is a test program over `block`, `layout` (for words), `cases` and `streams`: all but the stream may change.
#![tactic(auto)]

ghost use Rattle.std.specs.Prelude.{◌≤◌, length};

use block::{RunRefused, Scanned};
use std::io;
use std::io::Write;
use streams::Answer;

fn run(case: &[u8; 241], buf: &mut [u8]) -> Result<Scanned, RunRefused> {
    let st = cases::settings_at(case, 0);
    let x = cases::state_at(case, 101);
    let w = layout::words_at(case, 219);
    cases::fill(buf);
    x.scan(st, w, buf)
}

// Answers a case in a buffer of exactly its room.
fn answer_in<W: Write>(output: &mut W, case: &[u8; 241], buf: &mut [u8]) -> io::Result<()>
    requires { length buf.old ≤ 400 }
{
    let r = run(case, buf);
    let mut head = [0u8; 129];
    cases::put_scanned(&mut head, r);
    let mut line = [0u8; 1076];
    cases::print_line(output, &head, buf, b'\n', &mut line)
}

// Scan cases.
struct Scans;

impl Answer<241> for Scans {
    // Writes the line that answers a case.
    fn answer<W: Write>(output: &mut W, case: &[u8; 241]) -> io::Result<()> {
        let mut space = [0u8; 400];
        let room = cases::room_at(case, 239, 400);
        answer_in(output, case, &mut space[0..room])
    }
}

fn main(rt: HostRuntime) {
    streams::answer_each::<241, Scans, _, _>(&mut rt.stdin(), &mut rt.stdout());
}

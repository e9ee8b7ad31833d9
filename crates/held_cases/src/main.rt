// Answers a stream of held cases: 245 bytes each on standard input, a line each on standard output. second/README.md
// lays both out. It is a test program over `block`, `layout` (for words), `cases` and `streams`: all but the stream may change.
#![tactic(auto)]

ghost use Rattle.std.specs.Prelude.{◌≡◌, ◌≤◌, length};

use bits::BigEndian;
use block::{Held, RunRefused, Scanned};
use settings::Row;
use std::io;
use std::io::Write;
use streams::Answer;

fn run(case: &[u8; 245], buf: &mut [u8]) -> Result<Held, RunRefused> {
    let st = cases::settings_at(case, 0);
    let x = cases::state_at(case, 101);
    let hold = u32::get(case, 219);
    let words = layout::words_at(case, 223);
    cases::fill(buf);
    x.held(st, Row { hold, words }, buf)
}

// The part of a held run's answer that a scan's answer has, too.
fn shared(r: Held) -> Scanned {
    let state = r.state;
    Scanned {
        state,
        effect: r.effect,
        latent: r.latent,
        records: r.records,
    }
}

// Puts what answers a held run; the counts of a refused one stay 0.
fn put_head(r: Result<Held, RunRefused>, head: &mut [u8])
    requires { length head.old ≡ 137 }
{
    cases::put_scanned(head, r.map(shared));
    if let Ok(held) = r {
        u32::put(head, 129, held.live);
        u32::put(head, 133, held.exercised);
    }
}

// Answers a case in a buffer of exactly its room.
fn answer_in<W: Write>(output: &mut W, case: &[u8; 245], buf: &mut [u8]) -> io::Result<()>
    requires { length buf.old ≤ 400 }
{
    let r = run(case, buf);
    let mut head = [0u8; 137];
    put_head(r, &mut head);
    let mut line = [0u8; 1076];
    cases::print_line(output, &head, buf, b'\n', &mut line)
}

// Held cases.
struct HeldRuns;

impl Answer<245> for HeldRuns {
    // Writes the line that answers a case.
    fn answer<W: Write>(output: &mut W, case: &[u8; 245]) -> io::Result<()> {
        let mut space = [0u8; 400];
        let room = cases::room_at(case, 243, 400);
        answer_in(output, case, &mut space[0..room])
    }
}

fn main(rt: HostRuntime) {
    streams::answer_each::<245, HeldRuns, _, _>(&mut rt.stdin(), &mut rt.stdout());
}

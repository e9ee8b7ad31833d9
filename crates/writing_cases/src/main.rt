// Answers a stream of writing cases: 129 bytes each on standard input, a line each on standard output, the opening piece
// and then the row piece, each in a buffer of its own. second/README.md lays both out. It is a test program over `writing`,
// `layout` (for words), `cases` and `streams`: all but the stream may change.
#![tactic(auto)]

ghost use Rattle.std.specs.Prelude.{◌≤◌, length};

use bits::BigEndian;
use settings::{Refusal, Row};
use std::io;
use std::io::Write;
use streams::Answer;

// The refusal number, place and length of a written piece: 7 bytes.
fn head_of(w: Result<usize, Refusal>) -> [u8; 7] {
    let mut head = [0u8; 7];
    match w {
        Ok(n) => u16::put(&mut head, 5, (n % 65536) as u16),
        Err(refusal) => u8::put(&mut head, 0, u8::from(refusal)),
    }
    head
}

// Writes the digits of a piece's answer and of its buffer, and the character after them.
fn print<W: Write>(
    output: &mut W,
    w: Result<usize, Refusal>,
    buf: &[u8],
    last: u8,
) -> io::Result<()>
    requires { length buf.now ≤ 160 }
{
    let mut line = [0u8; 1076];
    cases::print_line(output, &head_of(w), buf, last, &mut line)
}

fn print_opening<W: Write>(output: &mut W, case: &[u8; 129], buf: &mut [u8]) -> io::Result<()>
    requires { length buf.old ≤ 160 }
{
    let st = cases::settings_at(case, 0);
    let rows = u16::get(case, 101);
    cases::fill(buf);
    let w = writing::write_opening(st, rows, buf);
    print(output, w, buf, b' ')
}

fn print_row<W: Write>(output: &mut W, case: &[u8; 129], buf: &mut [u8]) -> io::Result<()>
    requires { length buf.old ≤ 160 }
{
    let st = cases::settings_at(case, 0);
    let hold = u32::get(case, 103);
    let words = layout::words_at(case, 107);
    cases::fill(buf);
    let w = writing::write_row(st, Row { hold, words }, buf);
    print(output, w, buf, b'\n')
}

// Answers a case in a buffer of exactly its room. Where the opening's half of the line can't be written, the row's is tried all the same.
fn answer_in<W: Write>(output: &mut W, case: &[u8; 129], buf: &mut [u8]) -> io::Result<()>
    requires { length buf.old ≤ 160 }
{
    let _ = print_opening(output, case, buf);
    print_row(output, case, buf)
}

// Writing cases.
struct Pieces;

impl Answer<129> for Pieces {
    // Writes the line that answers a case.
    fn answer<W: Write>(output: &mut W, case: &[u8; 129]) -> io::Result<()> {
        let mut space = [0u8; 160];
        let room = cases::room_at(case, 127, 160);
        answer_in(output, case, &mut space[0..room])
    }
}

fn main(rt: HostRuntime) {
    streams::answer_each::<129, Pieces, _, _>(&mut rt.stdin(), &mut rt.stdout());
}

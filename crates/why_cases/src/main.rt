// Answers a stream of recordings on standard input: for each its listing with reasons and an empty line, and the table of how all effects
// stand after the last scan and an empty line. second/README.md lays the stream out. It is a test program over `printing`, `now_table` and
// `streams`: all but the stream may change.
#![tactic(auto)]

ghost use Rattle.std.specs.Prelude.{◌≤◌, length};
ghost use Rattle.printing.specs.Waiting.{Buffer};

use std::io;
use std::io::Write;

// Prints the table of a recording and an empty line.
fn answer_now<W: Write>(output: &mut W, s: &[u8], out: &mut [u8]) -> io::Result<()>
    requires { Buffer (length out.old) }
{
    let shown = now_table::show(out, s);
    output.write_all(&out[..shown.size])?;
    output.write_all(b"\n")
}

// Prints the listing of a recording and its table, with an empty line behind each. The buffer is small, so
// that listings of a few thousand bytes need several buffers: a stream has some that end about the end of one, two and three buffers.
fn answer<W: Write>(output: &mut W, s: &[u8]) -> io::Result<()> {
    let mut out = [0u8; 4096];
    printing::print(output, s, true, &mut out).map_err(|unwritten| unwritten.error)?;
    output.write_all(b"\n")?;
    answer_now(output, s, &mut out)
}

// The bytes of the longest case of a stream.
const MOST_BYTES: usize = 49262;

fn main(rt: HostRuntime) {
    streams::answer_each_sized::<MOST_BYTES, _, _, _>(&mut rt.stdin(), &mut rt.stdout(), answer);
}

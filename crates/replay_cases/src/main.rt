// Answers a stream of recordings on standard input: for each its listing, and an empty line. second/README.md lays the stream
// out. It is a test program over `printing` and `streams`: all but the stream may change.
#![tactic(auto)]

use std::io;
use std::io::Write;

// Prints the listing of a recording and an empty line. The buffer is small, so that listings of a few
// thousand bytes need several buffers: a stream has some that end about the end of one, two and three buffers.
fn answer<W: Write>(output: &mut W, s: &[u8]) -> io::Result<()> {
    let mut out = [0u8; 4096];
    printing::print(output, s, false, &mut out).map_err(|unwritten| unwritten.error)?;
    output.write_all(b"\n")
}

// The bytes of the longest case of a stream.
const MOST_BYTES: usize = 49262;

fn main(rt: HostRuntime) {
    streams::answer_each_sized::<MOST_BYTES, _, _, _>(&mut rt.stdin(), &mut rt.stdout(), answer);
}

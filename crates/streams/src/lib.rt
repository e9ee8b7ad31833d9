// Streams of cases, a case at a time, at the front of a buffer that the program lends, and the loops that answer them. second/README.md lays
// the streams out. It rests on `bits` and on std's readers and writers; no promise rests on it. No contract can say what is read or written.
// All but the streams may change.
#![tactic(auto)]

ghost use Rattle.std.specs.Prelude.{◌≡◌, ◌≤◌, ◌<◌, ◌^◌, length, IfSome};

use bits::BigEndian;
use std::io;
use std::io::{Read, Write};

// ---- the next case

// Reads until the buffer is full, the stream ends or a read fails, and answers how many bytes stand at its front. How many a read gives is
// not known before, so no `for` counts them.
fn read_full<R: Read>(input: &mut R, buf: &mut [u8]) -> usize
    ensures { (result ≤ length buf.new) × (length buf.new ≡ length buf.old) }
{
    let mut done: usize = 0;
    while done < buf.len() {
        match input.read(&mut buf[done..]) {
            Ok(0) => break,
            Ok(n) => done += n,
            Err(_) => break,
        }
    }
    done
}

// Whether a case came whole, by how many bytes came of those that were wanted; if not, says that the stream ends within it.
fn whole<W: Write>(output: &mut W, got: usize, wanted: usize) -> Option<()>
    ensures { IfSome result (λ _. wanted ≤ got) }
{
    if got < wanted {
        let _ = output.write_all(b"truncated\n");
        return None;
    }
    Some(())
}

// Reads a case that fills the buffer; none at the end of the stream, and if the case is cut short.
pub fn next_case<R: Read, W: Write>(input: &mut R, output: &mut W, case: &mut [u8]) -> Option<()>
    ensures { length case.new ≡ length case.old }
{
    let got = read_full(input, case);
    if got == 0 {
        return None;
    }
    whole(output, got, case.len())
}

// Reads bytes until the buffer is full; none if the stream has fewer.
fn read_body<R: Read, W: Write>(input: &mut R, output: &mut W, body: &mut [u8]) -> Option<()>
    ensures { length body.new ≡ length body.old }
{
    let got = read_full(input, body);
    whole(output, got, body.len())
}

// Reads a case that its length, 4 bytes, precedes, and answers the length. One that the buffer can't hold counts as cut short.
pub fn next_sized<R: Read, W: Write>(
    input: &mut R,
    output: &mut W,
    file: &mut [u8],
) -> Option<usize>
    ensures { IfSome result (λ size. size ≤ length file.new) × (length file.new ≡ length file.old) }
{
    let mut head = [0u8; 4];
    next_case(input, output, &mut head)?;
    let n = u32::get(&head, 0) as usize;
    whole(output, file.len(), n)?;
    read_body(input, output, &mut file[..n])?;
    Some(n)
}

// ---- the answers

// How many cases of a stream are answered at most, so that a program ends.
const MOST_CASES: usize = 1000000;

// What answers a case of N bytes. A bound on closures can't name N.
pub trait Answer<const N: usize> {
    fn answer<W: Write>(output: &mut W, case: &[u8; N]) -> io::Result<()>;
}

// Answers the cases of a stream, of N bytes each, until one can't be answered. No buffer has more bytes than half of what 64 bits number.
pub fn answer_each<const N: usize, A: Answer<N>, R: Read, W: Write>(input: &mut R, output: &mut W)
    requires { N < 2 ^ 63 }
{
    let mut case = [0u8; N];
    for _ in 0..MOST_CASES {
        if next_case(input, output, &mut case).is_none() || A::answer(output, &case).is_err() {
            return;
        }
    }
}

// Answers the cases of a stream, of at most N bytes, each behind its length, until one can't be answered.
pub fn answer_each_sized<
    const N: usize,
    R: Read,
    W: Write,
    A: FnMut(&mut W, &[u8]) -> io::Result<()>,
>(input: &mut R, output: &mut W, mut answer: A)
    requires { (N < 2 ^ 63) × A.IsAlwaysCallable answer }
{
    let mut case = [0u8; N];
    for _ in 0..MOST_CASES {
        let Some(size) = next_sized(input, output, &mut case) else {
            return;
        };
        if answer(output, &case[..size]).is_err() {
            return;
        }
    }
}

// Answers a stream of recordings on standard input: for each the reader's answer, its rows, the bytes that the writer gives for
// what a walk finds, and what a whole replay answers. second/README.md lays both streams out. It is a test program over
// `recording`, `walk`, `writing`, `rerun`, `cases` and `streams`: all but the streams may change.
#![tactic(auto)]

ghost use Rattle.std.specs.Prelude.{◌≡◌, ◌+◌, ◌≤◌, length};

use bits::BigEndian;
use recording::{Recording, RowAt};
use rerun::Counts;
use settings::{Refusal, Refused, Row, Settings, Words};
use std::io;
use std::io::Write;

// Writes the hexadecimal digits of some bytes. If they can't be written, what comes after them is tried all the same.
fn print_hex<W: Write>(output: &mut W, s: &[u8])
    requires { length s.now ≤ 160 }
{
    let mut line = [0u8; 320];
    cases::put_hex(s, &mut line, 0);
    let _ = output.write_all(&line[..2 * s.len()]);
}

fn print_end<W: Write>(output: &mut W) -> io::Result<()> {
    output.write_all(b"\n")
}

// ---- the reader's answer: 116 bytes

fn put_effects(out: &mut [u8], st: Settings)
    requires { length out.old ≡ 116 }
    ensures { length out.new ≡ 116 }
{
    for (i, e) in st.effects.iter().enumerate() {
        u16::put(out, 10 + 6 * i, e.association);
        u32::put(out, 12 + 6 * i, e.delay);
    }
}

fn put_settings(out: &mut [u8], st: Settings)
    requires { length out.old ≡ 116 }
    ensures { length out.new ≡ 116 }
{
    u8::put(out, 5, st.causes);
    u8::put(out, 6, st.options);
    u16::put(out, 7, st.period);
    u8::put(out, 9, st.count);
    put_effects(out, st);
}

fn put_numbers(out: &mut [u8], file: Recording)
    requires { length out.old ≡ 116 }
    ensures { length out.new ≡ 116 }
{
    u16::put(out, 106, file.rows);
    u32::put(out, 108, (file.first % 4294967296) as u32);
    u32::put(out, 112, (file.width % 4294967296) as u32);
}

// Prints the reader's answer: a refusal has zeros behind its number and place, and an accepted file has zeros there.
fn print_head<W: Write>(output: &mut W, reading: Result<Recording, Refused>) {
    let mut out = [0u8; 116];
    match reading {
        Ok(file) => {
            put_settings(&mut out, file.settings);
            put_numbers(&mut out, file);
        }
        Err(refused) => cases::put_refusal(&mut out, u8::from(refused.refusal), refused.place),
    }
    print_hex(output, &out);
    let _ = print_end(output);
}

// ---- a row: its place, its hold and its words, 28 bytes

// Puts ten words at `at`.
fn put_words(out: &mut [u8], at: usize, words: [u16; 10])
    requires { (length out.old ≡ 28) × (at + 20 ≤ 28) }
    ensures { length out.new ≡ 28 }
{
    for (i, word) in words.iter().enumerate() {
        u16::put(out, at + 2 * i, *word);
    }
}

fn listed(w: Words) -> [u16; 10] {
    [
        w.values,
        w.bad,
        w.mask,
        w.require_reset,
        w.reset_permit,
        w.start_permit,
        w.reset,
        w.force_permit,
        w.force_trip,
        w.force_normal,
    ]
}

fn put_row(out: &mut [u8], at: usize, row: Row)
    requires { length out.old ≡ 28 }
    ensures { length out.new ≡ 28 }
{
    u32::put(out, 0, (at % 4294967296) as u32);
    u32::put(out, 4, row.hold);
    put_words(out, 8, listed(row.words));
}

// Prints the row at a place, and answers the place after it.
fn print_row<W: Write>(output: &mut W, s: &[u8], at: usize) -> usize {
    let Some(found) = recording::row_step(s, at) else {
        return at;
    };
    let mut out = [0u8; 28];
    put_row(&mut out, at, found.row);
    print_hex(output, &out);
    let _ = print_end(output);
    found.next
}

fn print_rows<W: Write>(output: &mut W, s: &[u8], first: usize, rows: u16) {
    let mut at = first;
    for _ in 0..rows {
        at = print_row(output, s, at);
    }
}

// ---- the bytes written back

fn print_piece<W: Write>(output: &mut W, w: Result<usize, Refusal>, out: &[u8])
    requires { length out.now ≡ 160 }
{
    let Ok(n) = w else {
        return;
    };
    if 160 < n {
        return;
    }
    print_hex(output, &out[0..n]);
}

fn print_opening<W: Write>(output: &mut W, st: Settings, rows: u16) {
    let mut out = [0u8; 160];
    let w = writing::write_opening(st, rows, &mut out);
    print_piece(output, w, &out);
}

fn print_written_row<W: Write>(output: &mut W, st: Settings, row: Row) {
    let mut out = [0u8; 160];
    let w = writing::write_row(st, row, &mut out);
    print_piece(output, w, &out);
}

// How many rows are found by a walk. A walk reads the file at each step, so later rows are found by their place.
const WALKED: u16 = 32;

// Row i, which stands at `at`.
fn row_of(s: &[u8], i: u16, at: usize) -> Option<RowAt> {
    if i < WALKED {
        walk::nth(s, i)
    } else {
        recording::row_step(s, at)
    }
}

// Prints row i as the writer gives it, and answers the place after it; prints nothing where there is no row i.
fn print_row_back<W: Write>(output: &mut W, st: Settings, s: &[u8], i: u16, at: usize) -> usize {
    let Some(found) = row_of(s, i, at) else {
        return at;
    };
    print_written_row(output, st, found.row);
    found.next
}

// Prints all rows as the writer gives them, and asks for one row past the last, which must print nothing.
fn print_rows_back<W: Write>(
    output: &mut W,
    st: Settings,
    s: &[u8],
    first: usize,
    rows: u16,
) -> usize {
    let mut at = first;
    for i in 0..rows {
        at = print_row_back(output, st, s, i, at);
    }
    print_row_back(output, st, s, rows, at)
}

// ---- a whole replay: seven numbers of 4 bytes

fn put_replayed(out: &mut [u8], numbers: [u32; 7])
    requires { length out.old ≡ 28 }
    ensures { length out.new ≡ 28 }
{
    for (i, number) in numbers.iter().enumerate() {
        u32::put(out, 4 * i, *number);
    }
}

// The refusal number, the place and the five counts of a replay; a refusal has zeros for the counts.
fn numbers_of(r: Result<Counts, Refused>) -> [u32; 7] {
    match r {
        Ok(counts) => [
            0,
            0,
            counts.records,
            counts.rows,
            counts.scans,
            counts.live,
            counts.exercised,
        ],
        Err(refused) => {
            let number = u8::from(refused.refusal);
            let place = (refused.place % 4294967296) as u32;
            [number as u32, place, 0, 0, 0, 0, 0]
        }
    }
}

fn print_replay<W: Write>(output: &mut W, s: &[u8]) -> io::Result<()> {
    let mut out = [0u8; 28];
    put_replayed(&mut out, numbers_of(rerun::replay(s)));
    print_hex(output, &out);
    print_end(output)
}

// ---- one recording

// Prints what answers a recording.
fn answer<W: Write>(output: &mut W, s: &[u8]) -> io::Result<()> {
    exactness::each_is_a_byte(s);
    let reading = recording::read(s);
    print_head(output, reading);
    if let Ok(file) = reading {
        let st = file.settings;
        print_rows(output, s, file.first, file.rows);
        print_opening(output, st, file.rows);
        print_rows_back(output, st, s, file.first, file.rows);
        let _ = print_end(output);
    }
    print_replay(output, s)
}

// The bytes of the longest case of a stream.
const MOST_BYTES: usize = 49262;

fn main(rt: HostRuntime) {
    streams::answer_each_sized::<MOST_BYTES, _, _, _>(&mut rt.stdin(), &mut rt.stdout(), answer);
}

// What a replay results in as a line of fields with commas between, at the front of a lent buffer: the name of the recording, quoted where
// it has to be, and seven numbers. Each function answers the length of its line, and all else stays. docs/FORMAT.md, "A line for each
// file". It rests on `rerun` for the numbers, on `text` for a number with the byte behind it and on `reports` for the room that a line
// needs. How a line is put may change without moving a contract; the text is specs/Summaries.
#![tactic(auto)]

ghost use Rattle.std.specs.Prelude.{◌≡◌, ◌+◌, ◌*◌, ◌≤◌, length};
ghost use Rattle.wording.specs.Puts.{Puts, PutsFirst};
ghost use Rattle.reports.specs.Reports.{Roomy, most_report};
ghost use Rattle.summaries.specs.Summaries.{has, is_quoted, twice, doubled, quoted, field, fields, numbers, summary_header, summary_line, most_field, most_numbers};

use rerun::Replayed;

// ---- the field of a name

const QUOTE: u8 = 34;

// Whether a byte stands in a name.
fn has_byte(name: &[u8], byte: u8) -> bool
    ensures { result ≡ has name.now byte }
{
    name.contains(&byte)
}

// Whether a name has to stand in quotes.
fn is_quoted(name: &[u8]) -> bool
    ensures { result ≡ is_quoted name.now }
{
    has_byte(name, b',') | has_byte(name, QUOTE) | has_byte(name, b'\n') | has_byte(name, b'\r')
}

// A byte of a name, a quote twice.
#[tactic(auto, using(crate::proofs::Doubled::twice_quote, crate::proofs::Doubled::twice_other))]
fn put_twice(out: &mut [u8], at: usize, byte: u8) -> usize
    requires { at + 2 ≤ length out.old }
    ensures value { Puts out.old at (twice byte) result out.new }
    ensures upper_bound { result ≤ at + 2 }
{
    if byte == QUOTE {
        bits::put_text(out, at, b"\"\"")
    } else {
        bits::put_text(out, at, &[byte])
    }
}

// A name whose quotes stand twice.
fn put_doubled(out: &mut [u8], at: usize, name: &[u8]) -> usize
    requires { at + 2 * length name.now ≤ length out.old }
    ensures value { Puts out.old at (doubled name.now) result out.new }
    ensures upper_bound { result ≤ at + 2 * length name.now }
{
    let mut next = at;
    for byte in name {
        next = put_twice(out, next, *byte);
    }
    next
}

// A name between quotes.
fn put_quoted(out: &mut [u8], name: &[u8]) -> usize
    requires { Roomy name.now out.old }
    ensures value { PutsFirst out.old (quoted name.now) result out.new }
    ensures upper_bound { result ≤ most_field }
{
    let from = bits::put_text(out, 0, b"\"");
    let last = put_doubled(out, from, name);
    bits::put_text(out, last, b"\"")
}

// A name as the first field of a line.
#[tactic(auto, using(crate::proofs::Fields::field_quoted, crate::proofs::Fields::field_plain))]
fn put_field(out: &mut [u8], name: &[u8]) -> usize
    requires { Roomy name.now out.old }
    ensures value { PutsFirst out.old (field name.now) result out.new }
    ensures upper_bound { result ≤ most_field }
{
    if is_quoted(name) {
        put_quoted(out, name)
    } else {
        bits::put_text(out, 0, name)
    }
}

// ---- the line

// The numbers before the records.
fn fields_of(r: Replayed) -> [u64; 6]
    ensures { result ≡ fields r }
{
    [
        r.number as u64,
        r.place as u64,
        r.rows as u64,
        r.scans as u64,
        r.live as u64,
        r.exercised as u64,
    ]
}

// The fields behind the name: a comma stands behind each but the last.
fn put_numbers(out: &mut [u8], at: usize, r: Replayed) -> usize
    requires { at + most_numbers ≤ length out.old }
    ensures value { Puts out.old at (numbers r) result out.new }
    ensures upper_bound { result ≤ at + most_numbers }
{
    let mut next = at;
    for field in fields_of(r) {
        next = text::put_field(out, next, field, b',');
    }
    text::put_field(out, next, r.records as u64, b'\n')
}

// The first line of summaries, which names the fields.
pub fn put_summary_header(out: &mut [u8]) -> usize
    requires { most_report ≤ length out.old }
    ensures value { PutsFirst out.old summary_header result out.new }
    ensures upper_bound { result ≤ length out.new }
{
    bits::put_text(
        out,
        0,
        b"file,number,place,rows,scans,live,exercised,records\n",
    )
}

// What a replay results in.
pub fn put_summary(out: &mut [u8], name: &[u8], r: Replayed) -> usize
    requires { Roomy name.now out.old }
    ensures value { PutsFirst out.old (summary_line name.now r) result out.new }
    ensures upper_bound { result ≤ length out.new }
{
    let comma = put_field(out, name);
    let at = bits::put_text(out, comma, b",");
    put_numbers(out, at, r)
}

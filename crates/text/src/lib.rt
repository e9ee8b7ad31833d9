// The lines of a listing, written at a place of a lent buffer: each function answers the place after what it wrote, and all
// else stays. Functions for whole lines also say that this place is within the buffer, so that a caller need not show it. Document
// 01, "One session, whole"; document 02, L4 (a column for reasons). It rests on `effects` for the events, on `reasons` and `wording` for
// reasons, and on `bits` for numbers and text. How lines are put may change without moving a contract; the text is specs/Text.
#![tactic(auto)]

ghost use Rattle.std.specs.Prelude.{ℕ, ◌≡◌, List, [], ◌∷◌, ◌++◌, ◌+◌, ◌≤◌, length, IfSome};
ghost use Rattle.bits.specs.Decimal.{ascii, decimal};
ghost use Rattle.rules.specs.Limits.{most_effects};
ghost use Rattle.effects.specs.Records.{most_records, Recorded};
ghost use Rattle.reasons.specs.Given.{Narrow};
ghost use Rattle.settings.specs.Refusals.{number_of};
ghost use Rattle.wording.specs.Puts.{Puts};
ghost use Rattle.wording.specs.Text.{words_of};
ghost use Rattle.text.specs.Pieces.{when, change, column_line, column_lines, header_of, total, LinesPut};
ghost use Rattle.text.specs.Room.{most_piece};
ghost use Rattle.text.specs.Text.{name, last_line, refusal_line};

use effects::Event;
use reasons::{Reason, Sight};
use rules::EffectState;
use settings::Refused;

// ---- fields

// What stands between two spaces of a line: a word, a number, or the name of a state. It is no `Display`, whose `fmt` promises its bytes only
// where it answers Ok, and nothing promises that it does: `put` cannot fail.
pub trait Field {
    // Its bytes.
    ghost text: { Self → List ℕ };

    // Puts it, with nothing behind it.
    fn put(self, out: &mut [u8], at: usize) -> usize
        requires { at + length (text self) ≤ length out.old }
        ensures { Puts out.old at (text self) result out.new };
}

impl Field for &[u8] {
    ghost text = { λ word. word.now };

    fn put(self, out: &mut [u8], at: usize) -> usize {
        bits::put_text(out, at, self)
    }
}

impl Field for u64 {
    ghost text = { λ v. decimal v };

    fn put(self, out: &mut [u8], at: usize) -> usize {
        bits::put_decimal(out, at, self)
    }
}

impl Field for EffectState {
    ghost text = { λ p. name p };

    // A call for each name: as a value of one function the names take a listing beyond its bar of speed.
    #[tactic(auto, unfolding(crate::specs::Text::name))]
    fn put(self, out: &mut [u8], at: usize) -> usize {
        match self {
            EffectState::Tripped => bits::put_text(out, at, b"tripped"),
            EffectState::WaitReset => bits::put_text(out, at, b"wait-reset"),
            EffectState::Ready => bits::put_text(out, at, b"ready"),
            EffectState::WaitStart => bits::put_text(out, at, b"wait-start"),
            EffectState::Normal => bits::put_text(out, at, b"normal"),
            EffectState::Delayed => bits::put_text(out, at, b"delayed"),
        }
    }
}

// Puts a field, and the byte behind it.
pub fn put_field<F: Field>(out: &mut [u8], at: usize, field: F, end: u8) -> usize
    requires { at + length (F.text field ++ (end ∷ [])) ≤ length out.old }
    ensures { Puts out.old at (F.text field ++ (end ∷ [])) result out.new }
{
    let last = field.put(out, at);
    out[last] = end;
    last + 1
}

// Puts a word, a space, a number, and the byte behind it.
#[tactic(auto, unfolding(crate::specs::Pieces::total))]
pub fn put_total(out: &mut [u8], at: usize, word: &[u8], v: u64, end: u8) -> usize
    requires { at + length (total word.now v end) ≤ length out.old }
    ensures { Puts out.old at (total word.now v end) result out.new }
{
    let next = put_field(out, at, word, b' ');
    put_field(out, next, v, end)
}

// ---- the line of a record

// Puts the sequence number of an event, its scan and its effect, with a space behind each.
#[tactic(auto, unfolding(crate::specs::Pieces::when))]
fn put_when(out: &mut [u8], at: usize, e: Event) -> usize
    requires { at + length (when e) ≤ length out.old }
    ensures { Puts out.old at (when e) result out.new }
{
    let scan = put_field(out, at, e.seq as u64, b' ');
    let effect = put_field(out, scan, e.scan as u64, b' ');
    put_field(out, effect, e.effect as u64, b' ')
}

// Puts the states and the first-out of an event, and the byte behind it.
#[tactic(auto, unfolding(crate::specs::Pieces::change))]
fn put_change(out: &mut [u8], at: usize, e: Event, end: u8) -> usize
    requires { at + length (change e end) ≤ length out.old }
    ensures { Puts out.old at (change e end) result out.new }
{
    let to = put_field(out, at, e.from, b' ');
    let first = put_field(out, to, e.to, b' ');
    put_field(out, first, e.first_out as u64, end)
}

// Puts the words of a reason, and LF. A reason always ends its line, so that it would be no plainer as a `Field` with the byte behind it.
pub fn put_end(out: &mut [u8], at: usize, r: Reason) -> usize
    requires { at + length (words_of r ++ ascii "\n") ≤ length out.old }
    ensures { Puts out.old at (words_of r ++ ascii "\n") result out.new }
{
    let last = wording::put_reason(out, at, r);
    out[last] = b'\n';
    last + 1
}

// Puts the line of a record, with its reason where a column tells what reasons read of the row.
#[tactic(auto, unfolding(crate::specs::Pieces::further, crate::specs::Pieces::when, crate::specs::Pieces::change, crate::specs::Text::line_with))]
fn put_line(
    out: &mut [u8],
    at: usize,
    e: Event,
    column: Option<Sight>,
    associations: &[u32; 64],
) -> usize
    requires { (1 ≤ e.effect) × (e.effect ≤ most_effects) × (at + length (column_line column associations.now e) ≤ length out.old) }
    ensures { Puts out.old at (column_line column associations.now e) result out.new }
{
    let from = put_when(out, at, e);
    match column {
        None => put_change(out, from, e, b'\n'),
        Some(sight) => {
            let r = reasons::reason_in(sight, associations, e);
            let last = put_change(out, from, e, b' ');
            put_end(out, last, r)
        }
    }
}

// Puts the lines of the n records at the front of `records`: behind the first-out stands nothing, or each record's reason by what reasons
// read of the row. The association words of the effects stand at the front of `associations`.
pub fn put_lines(
    out: &mut [u8],
    at: usize,
    records: &[u8],
    n: usize,
    column: Option<Sight>,
    associations: &[u32; 64],
) -> usize
    requires { (n ≤ most_records) × Recorded records.now n × (at + most_piece ≤ length out.old) × IfSome column Narrow }
    ensures lines_put { LinesPut (column_lines column associations.now) records.now n at out.old result out.new }
    ensures upper_bound { result ≤ length out.old }
{
    let mut next = at;
    for i in 0..n {
        next = put_line(
            out,
            next,
            effects::event_at(records, effects::RECORD_LENGTH * i),
            column,
            associations,
        );
    }
    next
}

// ---- the other lines

// Puts the header, with a column for reasons or without.
#[tactic(auto, unfolding(crate::specs::Text::header_with))]
pub fn put_header(out: &mut [u8], at: usize, why: bool) -> usize
    requires { at + most_piece ≤ length out.old }
    ensures value { Puts out.old at (header_of why) result out.new }
    ensures upper_bound { result ≤ length out.old }
{
    let last = bits::put_text(out, at, b"seq scan effect from to first");
    if why {
        return bits::put_text(out, last, b" reason\n");
    }
    bits::put_text(out, last, b"\n")
}

// Puts the last line.
pub fn put_last(
    out: &mut [u8],
    at: usize,
    rows: u32,
    scans: u32,
    live: u32,
    exercised: u32,
) -> usize
    requires { at + most_piece ≤ length out.old }
    ensures value { Puts out.old at (last_line rows scans live exercised) result out.new }
    ensures upper_bound { result ≤ length out.old }
{
    let second = put_total(out, at, b"rows", rows as u64, b' ');
    let third = put_total(out, second, b"scans", scans as u64, b' ');
    let fourth = put_total(out, third, b"live", live as u64, b' ');
    put_total(out, fourth, b"exercised", exercised as u64, b'\n')
}

// A refusal as it is told: its number, which may be any, and its place.
#[derive(Clone, Copy)]
pub struct Told {
    pub number: u8,
    pub place: usize,
}

impl From<Refused> for Told {
    ghost from_gives = { λ refused told. told ≡ (record { number = number_of refused.refusal; place = refused.place }) };

    fn from(refused: Refused) -> Told {
        Told {
            number: u8::from(refused.refusal),
            place: refused.place,
        }
    }
}

// Puts the line of a refusal, whatever its number is: what this promises of any number, it promises still.
pub fn put_refusal(out: &mut [u8], at: usize, number: u8, place: usize) -> usize
    requires { at + most_piece ≤ length out.old }
    ensures value { Puts out.old at (refusal_line number place) result out.new }
    ensures upper_bound { result ≤ length out.old }
{
    let second = put_total(out, at, b"refused", number as u64, b' ');
    put_total(out, second, b"at", place as u64, b'\n')
}

// What the programs that answer streams of cases share: settings and a state read from the bytes of a case, the bytes of
// an answer, the filling of a lent buffer, and lines of hexadecimal digits. second/README.md lays the streams out. It rests on
// `block`, `layout` (for effects) and what these rest on, and on std's writers; no promise rests on it. All but the streams may change.
#![tactic(auto)]

ghost use Rattle.std.specs.Prelude.{◌≡◌, ◌+◌, ◌*◌, ◌%◌, ◌<◌, ◌≤◌, min, length, OnOk};
ghost use Rattle.std.specs.Io.KnownBytes.{Appends};
ghost use mathlib.Core.List.{[], ◌∷◌, flat_map};
ghost use Rattle.std.proofs.lemmas.List.Edits.{sets};
ghost use Rattle.bits.specs.Layout.{pack};
ghost use Rattle.bits.specs.Lists.{tabulate};
ghost use Rattle.bits.specs.Numbers.{num_at};
ghost use Rattle.rules.specs.Rules.{most_code};
ghost use Rattle.block.specs.Answer.{as_scanned};
ghost use Rattle.cases.specs.Given.{settings_at, code_at, SlotAt, SlotsAt, StateAt, fill_at};
ghost use Rattle.cases.specs.Answers.{slot_bytes, state_bytes, answer_bytes, hex_digit, hex_byte, pair_bytes, line_bytes};

use bits::BigEndian;
use block::{RunRefused, Scanned, State};
use rules::{EffectState, Slot};
use settings::Settings;
use std::io;
use std::io::Write;

// ---- settings: 101 bytes

// The settings that stand at `at`.
pub fn settings_at(s: &[u8], at: usize) -> Settings
    requires { at + 101 ≤ length s.now }
    ensures { result ≡ settings_at s.now at }
{
    Settings {
        causes: u8::get(s, at),
        options: u8::get(s, at + 1),
        period: u16::get(s, at + 2),
        count: u8::get(s, at + 4),
        effects: layout::effects_at(s, at + 5, 16),
    }
}

// ---- state: 118 bytes

// The highest state code.
const MOST_CODE: u8 = 5;

// The state code that stands at `at`; a byte above the highest code is taken for the highest.
fn code_at(s: &[u8], at: usize) -> u8
    requires { at + 1 ≤ length s.now }
    ensures { (result ≡ code_at s.now at) × (result ≤ most_code) }
{
    u8::get(s, at).min(MOST_CODE)
}

// Slot i of the slots that stand from `at` on.
fn slot_at(s: &[u8], at: usize, i: usize) -> Slot
    requires { (i < 16) × (at + 112 ≤ length s.now) }
    ensures { SlotAt s.now at i result }
{
    Slot {
        state: EffectState::of_code(code_at(s, at + 7 * i)),
        timer: u32::get(s, at + 7 * i + 1),
        first_out: u16::get(s, at + 7 * i + 5),
    }
}

// A loop writes them, since what `array::from_fn` says of each call leaves open what the closure has captured by then.
fn slots_at(s: &[u8], at: usize) -> [Slot; 16]
    requires { at + 112 ≤ length s.now }
    ensures { SlotsAt s.now at 16 result }
{
    let none = Slot {
        state: EffectState::Tripped,
        timer: 0,
        first_out: 0,
    };
    let mut slots = [none; 16];
    for (i, slot) in slots.iter_mut().enumerate() {
        *slot = slot_at(s, at, i);
    }
    slots
}

// The state that stands at `at`.
pub fn state_at(s: &[u8], at: usize) -> State
    requires { at + 118 ≤ length s.now }
    ensures { StateAt s.now at result }
{
    State {
        scans_done: u32::get(s, at),
        next: u16::get(s, at + 4),
        slots: slots_at(s, at + 6),
    }
}

// ---- the lent buffer before the call

// The room that stands at `at`, at most `most`. The bound is in the contract, so that a caller need not show it.
// Each program lends a buffer of this room by itself: one function for all would take a size, a place and a closure for its three lines.
pub fn room_at(s: &[u8], at: usize, most: usize) -> usize
    requires { at + 2 ≤ length s.now }
    ensures { (result ≡ min (num_at 2 s.now at) most) × (result ≤ most) }
{
    (u16::get(s, at) as usize).min(most)
}

fn fill_at(i: usize) -> u8
    ensures { result ≡ fill_at i }
{
    ((i % 256 * 7 + 3) % 256) as u8
}

// Byte i of the buffer becomes (7 i + 3) mod 256.
pub fn fill(buf: &mut [u8])
    ensures { buf.new ≡ tabulate fill_at (length buf.old) }
{
    for (i, byte) in buf.iter_mut().enumerate() {
        *byte = fill_at(i);
    }
}

// ---- the bytes of an answer

fn put_slot(out: &mut [u8], at: usize, x: Slot)
    requires { at + 7 ≤ length out.old }
    ensures { out.new ≡ sets out.old at (slot_bytes x) }
{
    u8::put(out, at, u8::from(x.state));
    u32::put(out, at + 1, x.timer);
    u16::put(out, at + 5, x.first_out);
}

// Puts the slots. The contract also gives the number of their bytes, as that of put_state does, so that a caller need not show it.
fn put_slots(out: &mut [u8], at: usize, xs: [Slot; 16])
    requires { at + 112 ≤ length out.old }
    ensures out_after { out.new ≡ sets out.old at (flat_map slot_bytes xs) }
    ensures xs_len { length (flat_map slot_bytes xs) ≡ 112 }
{
    for (i, x) in xs.iter().enumerate() {
        put_slot(out, at + 7 * i, *x);
    }
}

fn put_state(out: &mut [u8], at: usize, x: State)
    requires { at + 118 ≤ length out.old }
    ensures out_after { out.new ≡ sets out.old at (state_bytes x) }
    ensures x_len { length (state_bytes x) ≡ 118 }
{
    u32::put(out, at, x.scans_done);
    u16::put(out, at + 4, x.next);
    put_slots(out, at + 6, x.slots);
}

// Puts the 5 bytes of a refusal number and its place at the front of `out`.
pub fn put_refusal(out: &mut [u8], number: u8, place: usize)
    requires { 5 ≤ length out.old }
    ensures { out.new ≡ sets out.old 0 (pack (1 ∷ 4 ∷ []) (number ∷ place % 4294967296 ∷ [])) }
{
    u8::put(out, 0, number);
    u32::put(out, 1, (place % 4294967296) as u32);
}

fn put_words(out: &mut [u8], effect: u16, latent: u16, records: usize)
    requires { 129 ≤ length out.old }
    ensures { out.new ≡ sets out.old 123 (pack (2 ∷ 2 ∷ 2 ∷ []) (effect ∷ latent ∷ records % 65536 ∷ [])) }
{
    u16::put(out, 123, effect);
    u16::put(out, 125, latent);
    u16::put(out, 127, (records % 65536) as u16);
}

// Puts the 129 bytes of a refusal number, 0 for none, its place, and what a scan answers, at the front of `out`.
pub fn put_answer(out: &mut [u8], number: u8, place: usize, scanned: Scanned)
    requires { 129 ≤ length out.old }
    ensures { out.new ≡ sets out.old 0 (answer_bytes (record { number = number; place = place; state = scanned.state; effect = scanned.effect; latent = scanned.latent; records = scanned.records })) }
{
    let state = scanned.state;
    put_refusal(out, number, place);
    put_state(out, 5, state);
    put_words(out, scanned.effect, scanned.latent, scanned.records);
}

// Puts the 129 bytes that answer a scan, likewise: a refusal has the given state and zeros, and there is no place outside the reader.
pub fn put_scanned(out: &mut [u8], r: Result<Scanned, RunRefused>)
    requires { 129 ≤ length out.old }
    ensures { out.new ≡ sets out.old 0 (answer_bytes (as_scanned r)) }
{
    match r {
        Ok(scanned) => put_answer(out, 0, 0, scanned),
        Err(refused) => {
            let scanned = Scanned {
                state: refused.state,
                effect: 0,
                latent: 0,
                records: 0,
            };
            put_answer(out, u8::from(refused.refusal), 0, scanned);
        }
    }
}

// ---- hexadecimal digits

// Written by hand: std does not say what stands in a lent slice that `write!` has written to.
fn hex_digit(v: u8) -> u8
    requires { v < 16 }
    ensures { result ≡ hex_digit v }
{
    if v < 10 { b'0' + v } else { b'a' - 10 + v }
}

fn put_hex_byte(out: &mut [u8], at: usize, b: u8)
    requires { at + 2 ≤ length out.old }
    ensures { out.new ≡ sets out.old at (hex_byte b) }
{
    out[at] = hex_digit(b / 16);
    out[at + 1] = hex_digit(b % 16);
}

// Writes the digits of `src` at `at`, two for each byte; all else stays.
pub fn put_hex(src: &[u8], out: &mut [u8], at: usize)
    requires { at + 2 * length src.now ≤ length out.old }
    ensures { out.new ≡ sets out.old at (flat_map hex_byte src.now) }
{
    for (i, b) in src.iter().enumerate() {
        put_hex_byte(out, at + 2 * i, *b);
    }
}

// Writes the digits of a and those of b at `at`, with a space between, and answers the place after them.
fn put_pair(a: &[u8], b: &[u8], out: &mut [u8], at: usize) -> usize
    requires { at + 2 * length a.now + 1 + 2 * length b.now ≤ length out.old }
    ensures value { result ≡ at + 2 * length a.now + 1 + 2 * length b.now }
    ensures out_after { out.new ≡ sets out.old at (pair_bytes a.now b.now) }
{
    let gap = at + 2 * a.len();
    put_hex(a, out, at);
    u8::put(out, gap, b' ');
    put_hex(b, out, gap + 1);
    gap + 1 + 2 * b.len()
}

// Writes a line at the front of `out` (the digits of a, a space, the digits of b and a last byte), and answers its length.
fn put_line(a: &[u8], b: &[u8], last: u8, out: &mut [u8]) -> usize
    requires { 2 * length a.now + 2 * length b.now + 2 ≤ length out.old }
    ensures value { result ≡ 2 * length a.now + 2 * length b.now + 2 }
    ensures out_after { out.new ≡ sets out.old 0 (line_bytes a.now b.now last) }
{
    let n = put_pair(a, b, out, 0);
    u8::put(out, n, last);
    n + 1
}

// Writes a line, as put_line makes it.
fn write_line<W: Write>(output: &mut W, a: &[u8], b: &[u8], last: u8, text: &[u8]) -> io::Result<()>
    requires { text.now ≡ line_bytes a.now b.now last }
    ensures { OnOk result (Appends (W.contents output.old) (W.contents output.new) (line_bytes a.now b.now last)) }
{
    output.write_all(text)
}

// Makes a line at the front of `line`, and writes it.
pub fn print_line<W: Write>(
    output: &mut W,
    a: &[u8],
    b: &[u8],
    last: u8,
    line: &mut [u8],
) -> io::Result<()>
    requires { 2 * length a.now + 2 * length b.now + 2 ≤ length line.old }
    ensures line_after { line.new ≡ sets line.old 0 (line_bytes a.now b.now last) }
    ensures written { OnOk result (Appends (W.contents output.old) (W.contents output.new) (line_bytes a.now b.now last)) }
{
    let n = put_line(a, b, last, line);
    write_line(output, a, b, last, &line[..n])
}

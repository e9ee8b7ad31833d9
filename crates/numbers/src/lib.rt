// The numbers that cross to other languages, 8 bytes each: the answer to a check, and what a replay results in, at the front of lent
// bytes if they fit. It rests on `rerun` for what a replay results in. `pohandira` says which of them cross, and when.
#![tactic(auto)]

ghost use Rattle.std.specs.Prelude.{◌≡◌, [], ◌∷◌, ◌*◌, ◌≤◌, length};
ghost use Rattle.std.proofs.lemmas.List.Edits.{sets};
ghost use Rattle.settings.specs.Refusals.{or_else, room_number};
ghost use Rattle.numbers.specs.Numbers.{number_bytes, check_bytes, totals_bytes, numbers, fitted, crossing};

use bits::BigEndian;
use rerun::Replayed;

// The bytes of a number, of the answer to a check (three numbers), and of totals (seven).
const NUMBER_BYTES: usize = 8;

const CHECK_BYTES: usize = NUMBER_BYTES * 3;

pub const TOTALS_BYTES: usize = NUMBER_BYTES * 7;

// Writes numbers to the front of `out`, one behind the other; all else stays.
pub fn put_numbers(out: &mut [u8], values: &[u64])
    requires { number_bytes * length values.now ≤ length out.old }
    ensures { out.new ≡ sets out.old 0 (numbers values.now) }
{
    for (i, value) in values.iter().enumerate() {
        u64::put(out, NUMBER_BYTES * i, *value);
    }
}

// ---- the answer to a check

// The refusal number, or 10 if it is 0. Here and below it is a number, since it crosses by the C interface.
pub fn or_ten(number: u8) -> u8
    ensures { result ≡ or_else number 10 }
{
    if number != 0 {
        return number;
    }
    10
}

// Writes the answer to a check, if it fits, and answers its refusal number.
pub fn put_check(out: &mut [u8], number: u8, place: usize, rows: u16) -> u8
    ensures value { result ≡ or_else number (room_number check_bytes (length out.old)) }
    ensures out_after { out.new ≡ fitted (numbers (number ∷ place ∷ rows ∷ [])) out.old }
{
    if out.len() < CHECK_BYTES {
        return or_ten(number);
    }
    put_numbers(out, &[number as u64, place as u64, rows as u64]);
    number
}

// ---- what a replay results in

// The seven numbers of what a replay results in.
fn numbers_of(r: Replayed) -> [u64; 7]
    ensures { result ≡ crossing r }
{
    [
        r.records as u64,
        r.rows as u64,
        r.scans as u64,
        r.live as u64,
        r.exercised as u64,
        r.number as u64,
        r.place as u64,
    ]
}

// Writes what a replay results in, if it fits.
fn put_totals(out: &mut [u8], r: Replayed)
    ensures { out.new ≡ fitted (numbers (crossing r)) out.old }
{
    if out.len() < TOTALS_BYTES {
        return;
    }
    put_numbers(out, &numbers_of(r));
}

// Writes what a replay results in, if it fits, and answers its refusal number, or 10 where it does not fit and nothing else refuses.
pub fn put_counted(out: &mut [u8], r: Replayed) -> u8
    ensures value { result ≡ or_else r.number (room_number totals_bytes (length out.old)) }
    ensures out_after { out.new ≡ fitted (numbers (crossing r)) out.old }
{
    if out.len() < TOTALS_BYTES {
        return or_ten(r.number);
    }
    put_totals(out, r);
    r.number
}

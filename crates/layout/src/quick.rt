// A quick test of rows, by three numbers of eight bytes a row and by masks that are made once for all rows. It gives no refusal
// number: where it stops, the reader asks for it.
ghost use Rattle.std.specs.Prelude.{◌≡◌, ◌&&◌, ◌||◌, ◌+◌, ◌/◌, ◌%◌, ◌^◌, ◌≤◌, ◌<◌, eqb, leb, length};
ghost use Rattle.std.specs.Int.Bits.{bit_and, bit_or};
ghost use Rattle.std.specs.Int.Count.{ones};
ghost use Rattle.settings.specs.declared.Known.{Known};
ghost use Rattle.rules.specs.Limits.{most_hold};
ghost use Rattle.settings.specs.Right.{row_number};
ghost use Rattle.layout.specs.declared.Kind.TheVariants.{Rows};
ghost use Rattle.layout.specs.Entries.{row_at};
ghost use Rattle.layout.specs.Sections.{width_of, test_of};
ghost use Rattle.layout.specs.Barred.{absent_of, four_of, bars_of, Skipped};

use super::ROW_BYTES;
use bits::BigEndian;
use settings::{Known, Row};

// The bits that no valid row has, in each of its three numbers of eight bytes, and whether several effects may be forced.
#[derive(Clone, Copy)]
struct Bars {
    first: u64,
    second: u64,
    third: u64,
    several: bool,
}

// The bits of a word at n and above. The bound is in the contract, so that a caller need not show it.
fn absent(n: u8) -> u64
    ensures { (result ≡ absent_of n) × (result < 65536) }
{
    if n < 16 {
        65536 - (1u64 << (n as u64))
    } else {
        0
    }
}

// Four words as one number.
fn four(a: u64, b: u64, c: u64, d: u64) -> u64
    requires { (a < 65536) × (b < 65536) × (c < 65536) × (d < 65536) }
    ensures { result ≡ four_of a b c d }
{
    ((a * 65536 + b) * 65536 + c) * 65536 + d
}

fn bars_of(known: Known) -> Bars
    ensures { result ≡ bars_of known }
{
    let c = absent(known.causes);
    let e = absent(known.count);
    let p = absent(1);
    Bars {
        first: four(0, 0, c, c),
        second: four(c, e, e, e),
        third: four(e, p, e, e),
        several: bits::bit(known.options as u16, 2),
    }
}

// The hold is within its limits.
fn hold_right(first: u64) -> bool
    ensures { result ≡ (leb 1 (first / 2 ^ 32) && leb (first / 2 ^ 32) most_hold) }
{
    let hold = (first / 4294967296) as u32;
    (1 <= hold) & (hold <= Row::MOST_HOLD)
}

// No word has a barred bit.
fn words_right(b: Bars, first: u64, second: u64, third: u64) -> bool
    ensures { result ≡ eqb (bit_or (bit_or (bit_and first b.first) (bit_and second b.second)) (bit_and third b.third)) 0 }
{
    (first & b.first) | (second & b.second) | (third & b.third) == 0
}

// The two force words, which end the row, are apart, and hold at most one bit together unless several may be forced.
fn forces_right(several: bool, third: u64) -> bool
    ensures { result ≡ (eqb (bit_and (third / 65536 % 65536) (third % 65536)) 0 && (several || leb (ones (third % 2 ^ 32)) 1)) }
{
    ((third / 65536 % 65536) & (third % 65536) == 0)
        & (several | (u32::count_ones((third % 4294967296) as u32) <= 1))
}

// The row at `at` is valid.
fn row_right(b: Bars, s: &[u8], at: usize) -> bool
    requires { at + width_of Rows ≤ length s.now }
    ensures { (k : Known) → b ≡ bars_of k → result ≡ eqb (row_number k (row_at (width_of Rows) s.now at)) 0 }
{
    let first = u64::get(s, at);
    let second = u64::get(s, at + 8);
    let third = u64::get(s, at + 16);
    hold_right(first) & words_right(b, first, second, third) & forces_right(b.several, third)
}

// How many of the n rows from `at` are whole and valid before the first that is not. It is not inlined: within the reader its bars stand on the
// stack and not in registers, and a row takes a third longer.
#[inline(never)]
pub fn right_rows(known: Known, s: &[u8], n: u16, at: usize) -> u16
    requires { at ≤ length s.now }
    ensures { Skipped (test_of Rows known s.now) (width_of Rows) (length s.now) n at result }
{
    let bars = bars_of(known);
    let whole = usize::min(n as usize, (s.len() - at) / ROW_BYTES) as u16;
    for i in 0..whole {
        if !row_right(bars, s, at + ROW_BYTES * i as usize) {
            return i;
        }
    }
    whole
}

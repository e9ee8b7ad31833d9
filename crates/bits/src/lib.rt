// What every other crate counts on: bits of a word, big-endian numbers in a slice of bytes, and text. It rests on the kit alone, and calls
// the kit where the kit has a function, as for copying bytes.
// How a function computes its answer may change without moving a contract; what the answer is stands in specs/, and the laws in
// proofs/ are cited by name.
#![tactic(auto)]

ghost use Rattle.std.specs.Prelude.{◌≡◌, ℕ, Bool, cond, ◌+◌, ◌-◌, ◌*◌, ◌/◌, ◌%◌, ◌^◌, ◌≤◌, ◌<◌, ltb, length, take, drop, ◌++◌};
ghost use Rattle.std.specs.Iterator.{at_most};
ghost use Rattle.std.proofs.lemmas.List.Edits.{sets};
ghost use Rattle.bits.specs.Words.{bit_of, word_of, LowestOf};
ghost use Rattle.bits.specs.Numbers.{num_at, digits};
ghost use Rattle.bits.specs.Decimal.{decimal};

// ---- words of bits

// Bit i of a word.
pub fn bit(word: u16, i: usize) -> bool
    requires { i < 16 }
    ensures { result ≡ bit_of word i }
{
    (word >> i) % 2 == 1
}

// A word with bit i put in, where it has no bit at i or above.
pub fn put_bit(word: u16, i: usize, b: bool) -> u16
    requires { (i < 16) × (word < 2 ^ i) }
    ensures { result ≡ word + cond b (2 ^ i) 0 }
{
    if b { word | 1 << i } else { word }
}

// The word has no bit at n or above.
pub fn within(word: u16, n: u8) -> bool
    ensures { result ≡ ltb word (2 ^ n) }
{
    if n < 16 {
        (word as u32) < 1u32 << (n as u32)
    } else {
        true
    }
}

// The word of the indices below `count` at which the test answers yes.
pub fn word_where<F: Fn(usize) -> bool>(count: usize, test: F) -> u16
    requires few { count ≤ 16 }
    requires askable { (i : ℕ) → i < count → F.pre test i }
    ensures { (t : ℕ → Bool) → ((i : ℕ) (b : Bool) → i < count → F.post test i b → b ≡ t i) → result ≡ word_of t count }
{
    let mut word: u16 = 0;
    for i in 0..count {
        word = put_bit(word, i, test(i));
    }
    word
}

// The set bits of a word by their numbers, the lowest first.
#[derive(Drop)]
pub struct Ones(pub u16);

impl Iterator for Ones {
    type Item = usize;

    ghost next_gives = { λ s r t. LowestOf s.0 r t.0 };

    ghost remaining = { λ s. at_most s.0 };

    fn next(&mut self) -> Option<usize> {
        let word = self.0;
        if word == 0 {
            return None;
        }
        self.0 = word & (word - 1);
        Some(word.trailing_zeros() as usize)
    }
}

// ---- big-endian numbers in a slice

// A number of so many bytes, the highest first: `u16::get(s, at)` reads two bytes, and `u16::put(s, at, v)` writes two. The compiler makes one
// load or store of each.
pub trait BigEndian: Sized {
    // How many bytes it has, and which number it is.
    ghost width: { ℕ };

    ghost value: { Self → ℕ };

    // The number at `at`.
    fn get(s: &[u8], at: usize) -> Self
        requires { at + width ≤ length s.now }
        ensures { value result ≡ num_at width s.now at };

    // Writes the bytes of `v` at `at`; all else stays.
    fn put(s: &mut [u8], at: usize, v: Self)
        requires { at + width ≤ length s.old }
        ensures { s.new ≡ sets s.old at (digits width (value v)) };
}

impl BigEndian for u8 {
    ghost width = { 1 };

    ghost value = { λ x. x };

    fn get(s: &[u8], at: usize) -> u8 {
        s[at]
    }

    fn put(s: &mut [u8], at: usize, v: u8) {
        s[at] = v;
    }
}

impl BigEndian for u16 {
    ghost width = { 2 };

    ghost value = { λ x. x };

    fn get(s: &[u8], at: usize) -> u16 {
        u16::from_be_bytes([s[at], s[at + 1]])
    }

    fn put(s: &mut [u8], at: usize, v: u16) {
        s[at..at + 2].copy_from_slice(&v.to_be_bytes());
    }
}

impl BigEndian for u32 {
    ghost width = { 4 };

    ghost value = { λ x. x };

    fn get(s: &[u8], at: usize) -> u32 {
        u32::from_be_bytes([s[at], s[at + 1], s[at + 2], s[at + 3]])
    }

    fn put(s: &mut [u8], at: usize, v: u32) {
        s[at..at + 4].copy_from_slice(&v.to_be_bytes());
    }
}

impl BigEndian for u64 {
    ghost width = { 8 };

    ghost value = { λ x. x };

    fn get(s: &[u8], at: usize) -> u64 {
        u64::from_be_bytes([
            s[at],
            s[at + 1],
            s[at + 2],
            s[at + 3],
            s[at + 4],
            s[at + 5],
            s[at + 6],
            s[at + 7],
        ])
    }

    fn put(s: &mut [u8], at: usize, v: u64) {
        s[at..at + 8].copy_from_slice(&v.to_be_bytes());
    }
}

// Copies the first n bytes of `src` to the front of `out`; what stands past them stays.
pub fn copy_front(src: &[u8], n: usize, out: &mut [u8])
    requires { (n ≤ length src.now) × (n ≤ length out.old) }
    ensures { out.new ≡ take n src.now ++ drop n out.old }
{
    out[..n].copy_from_slice(&src[..n]);
}

// ---- text

// Writes a text at `at`, and answers the place after it; all else stays.
pub fn put_text(s: &mut [u8], at: usize, text: &[u8]) -> usize
    requires { at + length text.now ≤ length s.old }
    ensures { (result ≡ at + length text.now) × (s.new ≡ sets s.old at text.now) }
{
    let end = at + text.len();
    s[at..end].copy_from_slice(text);
    end
}

// Writes a number in decimal at `at`, and answers the place after it; all else stays. It calls itself for the digits
// before the last, as the definition does: at most 19 times. Std does not say what stands in a lent slice that `write!` has written to.
pub fn put_decimal(s: &mut [u8], at: usize, v: u64) -> usize
    requires { at + length (decimal v) ≤ length s.old }
    ensures { (result ≡ at + length (decimal v)) × (s.new ≡ sets s.old at (decimal v)) }
{
    if v < 10 {
        s[at] = 48 + v as u8;
        at + 1
    } else {
        let last = put_decimal(s, at, v / 10);
        s[last] = 48 + (v % 10) as u8;
        last + 1
    }
}

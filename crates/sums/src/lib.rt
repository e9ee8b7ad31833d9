// Sums of 64 bits, many at once: whether all of them fit, and adding. Document 02, L1. It rests on `bits`. How they are added may change
// without moving a contract.
#![tactic(auto)]

ghost use Rattle.std.specs.Prelude.{◌≡◌, true, length, get_or};
ghost use Rattle.sums.specs.Sums.{in_range, summed};

// None of the sums passes 64 bits.
pub fn in_range(a: &[u64], b: &[u64]) -> bool
    requires { length a.now ≡ length b.now }
    ensures { result ≡ in_range (λ k. get_or b.now k 0) a.now }
{
    a.iter().zip(b).all(|(x, y)| x.checked_add(*y).is_some())
}

// Adds to each number.
pub fn add_all(a: &mut [u64], b: &[u64])
    requires { (length a.old ≡ length b.now) × (in_range (λ k. get_or b.now k 0) a.old ≡ true) }
    ensures { a.new ≡ summed (λ k. get_or b.now k 0) (length a.old) a.old }
{
    for (k, x) in a.iter_mut().enumerate() {
        *x += b[k];
    }
}

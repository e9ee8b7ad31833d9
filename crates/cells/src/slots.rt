// What a run needs only at its start and at its end: from slots to words and back, with the timers and first-outs in the lent array.
ghost use Rattle.std.specs.Prelude.{◌≡◌, ℕ, ◌+◌, ◌<◌, ◌≤◌, get_or};
ghost use Rattle.std.proofs.lemmas.List.Edits.{sets};
ghost use Rattle.bits.specs.Lists.{tabulate};
ghost use Rattle.rules.specs.Rules.{no_slot};
ghost use Rattle.planes.specs.Planes.{planes_of};
ghost use Rattle.boards.specs.Table.{Narrow, slots_of};
ghost use Rattle.cells.specs.Array.{array_length, firsts_in};
ghost use Rattle.cells.specs.Loaded.{table_in, loaded_into};

use super::{FIRST_OUTS, TIMERS};
use planes::Planes;
use rules::{EffectState, Slot};

// Puts the numbers of the indices below `count` into the array, from `at` on.
pub fn fill<F: Fn(usize) -> u32>(board: &mut [u32; 64], at: usize, count: usize, number: F)
    requires fits { at + count ≤ array_length }
    requires askable { (i : ℕ) → i < count → F.pre number i }
    ensures { (f : ℕ → ℕ) → ((i v : ℕ) → i < count → F.post number i v → v ≡ f i) → board.new ≡ sets board.old at (tabulate f count) }
{
    for i in 0..count {
        board[at + i] = number(i);
    }
}

// The states of the slots as words; the timers and first-outs go into the array.
pub fn load(board: &mut [u32; 64], count: usize, xs: [Slot; 16]) -> Planes
    requires { count ≤ 16 }
    ensures { (result ≡ planes_of count (λ i. (get_or xs i no_slot).state)) × (board.new ≡ loaded_into count xs board.old) }
{
    fill(board, TIMERS, count, |i| xs[i].timer);
    fill(board, FIRST_OUTS, count, |i| xs[i].first_out as u32);
    planes::planes_of(count, xs)
}

// The slots that the words and the array show; slots past the count are those of no effect.
pub fn slots_of(board: &[u32; 64], count: usize, planes: Planes) -> [Slot; 16]
    requires { (count ≤ 16) × Narrow (firsts_in board.now) }
    ensures { result ≡ slots_of count (table_in planes board.now) }
{
    let none = Slot {
        state: EffectState::Tripped,
        timer: 0,
        first_out: 0,
    };
    let mut xs = [none; 16];
    for i in 0..count {
        let t = board[TIMERS + i];
        let f = (board[FIRST_OUTS + i] % 65536) as u16;
        xs[i] = planes::slot_of(planes, t, f, i);
    }
    xs
}

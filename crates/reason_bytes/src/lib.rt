// The reason of an effect's state, in numbers: 8 bytes for callers in other languages. Document 02, L4. It rests on `reasons` and
// `bits`. How bytes are put may change without moving a contract; which bytes they are is specs/Bytes.
#![tactic(auto)]

ghost use Rattle.std.specs.Prelude.{◌≡◌, ◌+◌, ◌≤◌, length};
ghost use Rattle.std.proofs.lemmas.List.Edits.{sets};
ghost use Rattle.reasons.specs.Reasons.{kind, mask, millis, thing, missing};
ghost use Rattle.reason_bytes.specs.Bytes.{numbers_of};

use bits::BigEndian;
use reasons::{Missing, Reason};

// The numbers of a reason: its kind, in document 02's order; the missing thing that it names, the causes, as a word, and the milliseconds
// left; 0 for what it does not name.
#[derive(Clone, Copy)]
struct Numbers {
    kind: u8,
    missing: u8,
    mask: u16,
    millis: u32,
}

impl Numbers {
    // Those of a kind that names nothing.
    fn of_kind(kind: u8) -> Numbers
        ensures { result ≡ record { kind = kind; missing = 0; mask = 0; millis = 0 } }
    {
        Numbers {
            kind,
            missing: 0,
            mask: 0,
            millis: 0,
        }
    }
}

fn thing_of(m: Missing) -> u8
    ensures { result ≡ thing m }
{
    match m {
        Missing::ResetPermit => 1,
        Missing::Reset => 2,
        Missing::StartPermit => 3,
    }
}

fn numbers_in(r: Reason) -> Numbers
    ensures { result ≡ record { kind = kind r; missing = missing r; mask = mask r; millis = millis r } }
{
    match r {
        Reason::ForcedTripped => Numbers::of_kind(0),
        Reason::ForcedNormal => Numbers::of_kind(1),
        Reason::Bad(mask) => Numbers {
            mask,
            ..Numbers::of_kind(2)
        },
        Reason::Active(mask) => Numbers {
            mask,
            ..Numbers::of_kind(3)
        },
        Reason::DelayRunning(millis) => Numbers {
            millis,
            ..Numbers::of_kind(4)
        },
        Reason::DelayEnded => Numbers::of_kind(5),
        Reason::Waiting(m) => Numbers {
            missing: thing_of(m),
            ..Numbers::of_kind(6)
        },
        Reason::Cleared => Numbers::of_kind(7),
        Reason::AtRest => Numbers::of_kind(8),
    }
}

// ---- its bytes

// The 8 bytes of a reason at `at`; all else stays.
pub fn put_numbers(out: &mut [u8], at: usize, r: Reason)
    requires { at + 8 ≤ length out.old }
    ensures { out.new ≡ sets out.old at (numbers_of r) }
{
    let Numbers {
        kind,
        missing,
        mask,
        millis,
    } = numbers_in(r);
    u8::put(out, at, kind);
    u8::put(out, at + 1, missing);
    u16::put(out, at + 2, mask);
    u32::put(out, at + 4, millis);
}

// All effects in one scan: the event records. Document 01, "The rules of one scan". What the scan does to the slots, and its
// words, stands in specs/ and is computed by words of effects in `planes`. It rests on `rules` and `bits`.
// How a record's bytes are put may change without moving a contract; which bytes they are is `record_of`, and `encode` of an
// event, in specs/Records.
#![tactic(auto)]

ghost use Rattle.std.specs.Prelude.{◌≡◌, [], ◌∷◌, ◌+◌, ◌≤◌, length};
ghost use Rattle.std.proofs.lemmas.List.Edits.{sets};
ghost use Rattle.bits.specs.Layout.{pack};
ghost use Rattle.bits.specs.Numbers.{digits};
ghost use Rattle.effects.specs.Records.{record_length, bytes_of, StandsAt};
ghost use Rattle.effects.specs.declared.Event.{Event};

use bits::BigEndian;
use rules::EffectState;

// An event: what a record holds.
#[derive(Clone, Copy)]
pub struct Event {
    pub seq: u16,
    pub scan: u32,
    pub effect: u8,
    pub from: EffectState,
    pub to: EffectState,
    pub first_out: u16,
}

// What a record holds, as its bytes give it: the states are codes, which three words of effects give in fewer steps than a state
// (`planes::code_at`).
#[derive(Clone, Copy)]
pub struct Record {
    pub seq: u16,
    pub scan: u32,
    pub effect: u8,
    pub from: u8,
    pub to: u8,
    pub first_out: u16,
}

// The length of a record, in bytes.
pub const RECORD_LENGTH: usize = 12;

// The most bytes that a row's records take: two records an effect.
pub const MOST_ROW_BYTES: usize = 384;

// ---- the records

// The first eight bytes of a record as one number: its sequence number, scan, effect and state before.
fn head_of(r: Record) -> u64
    ensures { digits 8 result ≡ pack (2 ∷ 4 ∷ 1 ∷ 1 ∷ []) (r.seq ∷ r.scan ∷ r.effect ∷ r.from ∷ []) }
{
    (r.seq as u64 * 4294967296 + r.scan as u64) * 65536 + (r.effect as u64 * 256 + r.from as u64)
}

// The other four bytes: its state after, a zero and its first-out.
fn tail_of(r: Record) -> u32
    ensures { digits 4 result ≡ pack (1 ∷ 1 ∷ 2 ∷ []) (r.to ∷ 0 ∷ r.first_out ∷ []) }
{
    r.to as u32 * 16777216 + r.first_out as u32
}

// Puts a record at a place, as two numbers: each is one store, where field by field a record takes twelve.
pub fn put_record(buf: &mut [u8], at: usize, r: Record)
    requires { at + record_length ≤ length buf.old }
    ensures { buf.new ≡ sets buf.old at (bytes_of r) }
{
    u64::put(buf, at, head_of(r));
    u32::put(buf, at + 8, tail_of(r));
}

// The event whose record stands at a place.
pub fn event_at(s: &[u8], at: usize) -> Event
    requires { (e : Event) × StandsAt s.now at e }
    ensures { StandsAt s.now at result }
{
    Event {
        seq: u16::get(s, at),
        scan: u32::get(s, at + 2),
        effect: u8::get(s, at + 6),
        from: EffectState::of_code(u8::get(s, at + 7)),
        to: EffectState::of_code(u8::get(s, at + 8)),
        first_out: u16::get(s, at + 10),
    }
}

// Recordings: the reader, and the row at a place. Document 01, "Recordings" and "Refusal numbers".
// It rests on `layout` (what stands at a place), `settings` and `bits`; `writing` has the writer. How the reader goes through the bytes
// may change without moving a contract, as long as it gives the first refusal. A caller takes the first row's place and the width of a
// row from the answer, and assumes neither.
#![tactic(auto)]

ghost use Rattle.std.specs.Prelude.{◌≡◌, ◌+◌, ◌*◌, ◌≤◌, ◌<◌, length};
ghost use Rattle.bits.specs.Numbers.{num_at};
ghost use Rattle.settings.specs.declared.numbers.Refusal.TheVariants.{Ends};
ghost use Rattle.layout.specs.Section.{as_section};
ghost use Rattle.layout.specs.Sections.{section_of};
ghost use Rattle.recording.specs.Answer.{as_reading};
ghost use Rattle.recording.specs.Step.{as_step};
ghost use Rattle.recording.specs.Reader.{nothing_known, known_of_block, settings_at, reading};
ghost use Rattle.recording.specs.Steps.{is_place, step_at};

use bits::BigEndian;
use layout::Kind;
use settings::{Known, Refusal, Refused, Row, Settings};

// A recording that is accepted: its settings, the row count, the first row's place and the width of a row.
#[derive(Clone, Copy)]
pub struct Recording {
    pub settings: Settings,
    pub rows: u16,
    pub first: usize,
    pub width: usize,
}

// A row, and the place after it.
#[derive(Clone, Copy)]
pub struct RowAt {
    pub row: Row,
    pub next: usize,
}

// ---- sections

// The bytes end before a count or an entry does.
fn ended(s: &[u8]) -> Refused
    ensures { result ≡ record { refusal = Ends; place = length s.now } }
{
    Refused {
        refusal: Refusal::Ends,
        place: s.len(),
    }
}

// Reads a section: the bytes of its count, its count, then for each entry its bytes and its fields. The answer is the place after it.
fn read_section(kind: Kind, known: Known, s: &[u8], at: usize) -> Result<usize, Refused>
    requires { at ≤ length s.now }
    ensures { as_section result ≡ section_of kind known s.now at }
{
    if s.len() - at < 2 {
        return Err(ended(s));
    }
    let n = u16::get(s, at);
    if !layout::count_ok(kind, n) {
        return Err(Refused {
            refusal: layout::refusal_of(kind),
            place: at,
        });
    }
    let width = layout::width_of(kind);
    let first = at + 2;
    let passed = layout::passed_quickly(kind, known, s, n, first);
    for i in passed..n {
        let place = first + width * (i as usize);
        if s.len() - place < width {
            return Err(ended(s));
        }
        if let Err(refusal) = layout::check_entry(kind, known, s, place) {
            return Err(Refused {
                refusal,
                place: place,
            });
        }
    }
    Ok(first + width * (n as usize))
}

// ---- the reader

// The settings of a file whose effects section starts at `e`.
fn settings_at(s: &[u8], e: usize) -> Settings
    requires { (6 ≤ e) × (num_at 2 s.now e ≤ 16) × (e + 2 + 6 * num_at 2 s.now e ≤ length s.now) }
    ensures { result ≡ settings_at s.now e }
{
    let b = layout::entries_of(0);
    let count = u16::get(s, e);
    let effects = layout::effects_at(s, e + 2, count as usize);
    Settings {
        causes: u8::get(s, b),
        options: u8::get(s, b + 1),
        period: u16::get(s, b + 2),
        count: count as u8,
        effects: effects,
    }
}

// What is known after the block section.
fn known_of_block(s: &[u8]) -> Known
    requires { 4 ≤ length s.now }
    ensures { result ≡ known_of_block s.now }
{
    let b = layout::entries_of(0);
    Known {
        causes: u8::get(s, b),
        count: 0,
        options: u8::get(s, b + 1),
    }
}

fn nothing_known() -> Known
    ensures { result ≡ nothing_known }
{
    Known {
        causes: 0,
        count: 0,
        options: 0,
    }
}

// Reads a recording, section by section, and stops at the first refusal. Document 01 has each section's answer taken apart by `let .. else`,
// so there is no `?`.
pub fn read(s: &[u8]) -> Result<Recording, Refused>
    ensures { as_reading result ≡ reading s.now }
{
    let block = read_section(Kind::Block, nothing_known(), s, 0);
    let Ok(e) = block else {
        return Err(block.unwrap_err());
    };
    let effects = read_section(Kind::Effects, known_of_block(s), s, e);
    let Ok(r) = effects else {
        return Err(effects.unwrap_err());
    };
    let settings = settings_at(s, e);
    let rows = read_section(Kind::Rows, settings::known_of(settings), s, r);
    let Ok(end) = rows else {
        return Err(rows.unwrap_err());
    };
    if end != s.len() {
        return Err(Refused {
            refusal: Refusal::LeftOver,
            place: end,
        });
    }
    Ok(Recording {
        settings,
        rows: u16::get(s, r),
        first: r + 2,
        width: layout::width_of(Kind::Rows),
    })
}

// ---- the row at a place

// Whether a place is a row's first byte: a whole number of rows past the first row, and before the end.
fn is_place(first: usize, width: usize, end: usize, at: usize) -> bool
    requires { 0 < width }
    ensures { result ≡ is_place first width end at }
{
    if at < first {
        return false;
    }
    (at < end) & ((at - first) % width == 0)
}

// The row at a place. There is none where the reader refuses the bytes, or the place is no row's first byte.
pub fn row_step(s: &[u8], at: usize) -> Option<RowAt>
    ensures { as_step result ≡ step_at s.now at }
{
    let Ok(file) = read(s) else {
        return None;
    };
    if !is_place(file.first, file.width, s.len(), at) {
        return None;
    }
    Some(RowAt {
        row: layout::row_at(s, at, file.width),
        next: at + file.width,
    })
}

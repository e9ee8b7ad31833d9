// The writer: the opening piece and a row, each into a lent buffer. Document 01, "Recordings" and "Refusal numbers". How a piece is put
// may change without moving a contract, as long as nothing is put before it is known to fit. It rests on `pieces` for the stores, on
// `layout`, whose table of sections has the widths, the counts and the refusal numbers, and on `settings`.
#![tactic(auto)]

ghost use Rattle.std.specs.Prelude.{◌≡◌, length};
ghost use Rattle.settings.specs.Refusals.{number_in};
ghost use Rattle.writing.specs.Written.{as_written};
ghost use Rattle.writing.specs.Writer.{opening_number, row_piece_number, opening_written, opening_after, row_written, row_after};

use layout::Kind;
use settings::{Refusal, Row, Settings};

// ---- what is refused before the room is looked at

#[tactic(auto, unfolding(crate::specs::Writer::opening_number))]
fn check_opening(st: Settings, rows: u16) -> Result<(), Refusal>
    ensures { number_in result ≡ opening_number st rows }
{
    settings::check_settings(st)?;
    if layout::count_ok(Kind::Rows, rows) {
        Ok(())
    } else {
        Err(layout::refusal_of(Kind::Rows))
    }
}

#[tactic(auto, unfolding(crate::specs::Writer::row_piece_number))]
fn check_row_piece(st: Settings, row: Row) -> Result<(), Refusal>
    ensures { number_in result ≡ row_piece_number st row }
{
    settings::check_settings(st)?;
    settings::check_row(settings::known_of(st), row)
}

// ---- the two pieces

// Writes the opening piece, through the row count, at the start of `out`. The answer is the number of bytes written.
pub fn write_opening(st: Settings, rows: u16, out: &mut [u8]) -> Result<usize, Refusal>
    ensures value { as_written result ≡ opening_written st rows (length out.old) }
    ensures out_after { out.new ≡ opening_after st rows out.old }
{
    check_opening(st, rows)?;
    let due = layout::entries_of(pieces::rows_section(st.count as usize));
    if out.len() < due {
        return Err(Refusal::Room);
    }
    pieces::put_opening(out, st, rows);
    Ok(due)
}

// Writes a row at the start of `out`. The answer is the number of bytes written.
pub fn write_row(st: Settings, row: Row, out: &mut [u8]) -> Result<usize, Refusal>
    ensures value { as_written result ≡ row_written st row (length out.old) }
    ensures out_after { out.new ≡ row_after st row out.old }
{
    check_row_piece(st, row)?;
    let width = layout::width_of(Kind::Rows);
    if out.len() < width {
        return Err(Refusal::Room);
    }
    pieces::put_row(out, 0, row);
    Ok(width)
}

// Whether what crosses for each record of a replay fits in lent bytes, known before the first byte is written. Document 01, "Refusal numbers"
// (10). It rests on `rerun` for the rows. How the room is found out (a bound, or a pass that counts) may change without moving a contract of
// an entry point.
#![tactic(auto)]

ghost use Rattle.std.specs.Prelude.{◌≡◌, ◌*◌, ◌≤◌, length};
ghost use Rattle.effects.specs.Records.{record_length};
ghost use Rattle.settings.specs.Refusals.{room_number, number_in};
ghost use Rattle.rerun.specs.Replay.{replay};
ghost use Rattle.rerun.specs.Turn.{Going};

use rerun::Run;
use settings::Refusal;

// The most records that an effect has in a row.
const RECORDS_OF_EFFECT: usize = 2;

// Refuses a room in which so many bytes for each record do not fit, by refusal number 10. Where those of the most records that so many rows can
// give do fit, the records are not counted; else a first pass over a copy of the array counts them.
pub fn check_records(
    s: &[u8],
    run: Run,
    board: &[u32; 64],
    each: usize,
    room: usize,
) -> Result<(), Refusal>
    requires { Going s.now run board.now × (run.rows ≡ 0) × (each ≤ record_length) }
    ensures { number_in result ≡ room_number (each * length (replay s.now).replay.events) room }
{
    let most = RECORDS_OF_EFFECT * run.plan.count * (run.row_count as usize);
    if each * most <= room {
        return Ok(());
    }
    let mut counted = *board;
    let mut space = [0u8; effects::MOST_ROW_BYTES];
    let end = rerun::go(s, run, run.row_count, &mut counted, &mut space, false);
    let last = rerun::run_of(end);
    if each * (last.records as usize) <= room {
        return Ok(());
    }
    Err(Refusal::Room)
}

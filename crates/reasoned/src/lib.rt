// The reasons of a replay: what they are by single scans (specs/Reasoned), what a row and its records tell of them (proofs/Theorems), and
// what a reason reads of a run's next row. Document 02, L4. It rests on `rerun` for the run, on `layout` for the row and on `reasons`. The
// definitions cite a held run and a replay by theirs (block/specs/Held, rerun/specs/Replay), and nothing of how they are computed.
#![tactic(auto)]

ghost use Rattle.std.specs.Prelude.{◌≡◌};
ghost use Rattle.reasoned.specs.Told.{NextRow, row_sight};

use reasons::Sight;
use rerun::Run;

// What a reason reads of the row at the run's place.
pub fn sight_at(s: &[u8], run: Run) -> Sight
    requires { NextRow s.now run }
    ensures { result ≡ row_sight s.now run.rows }
{
    let row = layout::row_at(s, run.place, run.width);
    reasons::sight_of(run.plan.options, row.words)
}

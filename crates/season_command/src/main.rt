// Adds recordings by name to one report and prints it as a table on standard output. docs/FORMAT.md, "Season totals"; document 02, L1.
// docs/DECISIONS.md says what happens where input or output fails, and how the program tells how it ended. The first argument is what is
// asked, which is always the table, and the others are names; without an argument it adds standard input and tells nothing. It rests on
// `season` for the report, on `season_table` for the table, on `reports` for the line of a refusal and on `inputs` for names, messages and
// statuses. All but what it prints and says, and the digit that it tells, may change.
#![tactic(auto)]

ghost use Rattle.std.specs.Prelude.{◌≡◌, ◌+◌, ◌-◌, ◌≤◌, length};
ghost use Rattle.recording.specs.Encode.{most_length};
ghost use Rattle.reports.specs.Reports.{most_name, InputRoom};
ghost use Rattle.sums.specs.Sums.{most_sum};
ghost use Rattle.season_table.specs.Files.{Over, files_of};
ghost use Rattle.season_command.specs.Growth.{Begun, Countable, Grown};

use inputs::{Errors, Program, Status, Step};
use season::{Added, NotAdded};
use season_table::Table;
use std::env::Env;
use std::rt::Files;
use text::Told;

// What adds the recordings: the table over the files so far, and the buffer for what is said and printed.
#[derive(Drop)]
struct Adding<'a, R> {
    program: &'a Program<'a, R>,
    table: Table,
    out: [u8; 65536],
}

impl<'a, R> Adding<'a, R> {
    // No file yet.
    fn new(program: &'a Program<'a, R>) -> Adding<'a, R>
        ensures { Begun result.table }
    {
        Adding {
            program,
            table: Table::empty(),
            out: [0u8; 65536],
        }
    }
}

impl<R: Errors> Adding<'_, R> {
    // How adding a recording ended. If it is refused, that is said with its name.
    fn say_refusal(&mut self, name: &[u8], added: Result<Added, NotAdded>) -> Status
        requires { length name.now ≤ most_name }
        ensures { self.new.table ≡ self.old.table }
    {
        match added {
            Ok(_) => Status::Done,
            Err(kept) => {
                let told = Told::from(kept.refused);
                let size = reports::put_check(&mut self.out, name, Err(told));
                inputs::say_refused(self.program.rt, &self.out[..size])
            }
        }
    }

    // Adds a recording.
    fn add(&mut self, name: &[u8], s: &[u8]) -> Status
        requires { (length name.now ≤ most_name) × Countable self.old.table }
        ensures { Grown self.old.table self.new.table }
    {
        let added = self.table.report.add(s);
        let recording = added.ok();
        self.table = self.table.with_file(recording);
        self.say_refusal(name, added)
    }
}

// There is room for as many files as can be counted, and the table is always that over some files.
impl<R: Errors> Step for Adding<'_, R> {
    ghost room = { λ adding. most_sum - files_of adding.table };

    ghost kept = { λ adding. Over adding.table };

    ghost input_room = { most_length + 1 };

    fn take(&mut self, name: &[u8], input: &[u8]) -> Status {
        self.add(name, input)
    }
}

impl<R: Print + Errors> Adding<'_, R> {
    // Prints the table, and answers how the whole run ended, of which the gravest input ended so.
    fn print(&mut self, gravest: Status) -> Status
        requires { Over self.old.table }
    {
        let size = season_table::put_table(&mut self.out, self.table);
        let status = self.program.write(&self.out[..size]);
        status.graver(gravest)
    }
}

// Adds all named recordings, or standard input if none is named, prints the table, and tells the status.
fn run<R: Files + Env + Input + Print + Errors>(rt: &R, name: &mut [u8], file: &mut [u8])
    requires { InputRoom name.old file.old }
{
    let program = Program::new(rt, b"season: ");
    let mut adding = Adding::new(&program);
    let gravest = program.take_each_whole(&mut adding, name, file);
    let status = adding.print(gravest);
    program.tell_asked(status);
}

fn main(rt: HostRuntime) {
    let mut name = [0u8; 4096];
    let mut file = [0u8; 49259];
    run(&rt, &mut name, &mut file);
}

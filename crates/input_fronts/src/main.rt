// A test program: it takes every named input by way of a buffer of three bytes, prints a line of the name and what the buffer holds of the
// input, and behind these how the gravest ended. No command has so short a buffer, since it would take an input for a shorter one; `inputs`
// allows it, and this is the program that calls it so. What it must print was written by hand. It rests on `inputs` and `bits`.
#![tactic(auto)]

ghost use Rattle.std.specs.Prelude.{◌+◌, ◌≤◌, ◌^◌, length};
ghost use Rattle.inputs.specs.Lengths.{most_name};

use inputs::{Errors, Program, Status, Step};
use std::env::Env;
use std::rt::Files;

// The bytes of the buffer for an input, and the most of a line: a name, a colon and a space, the input, and an end of line.
const FRONT_BYTES: usize = 3;

const LINE_BYTES: usize = 4102;

// What prints the fronts.
#[derive(Drop)]
struct Fronts<'a, R> {
    program: &'a Program<'a, R>,
}

// Puts the line of an input at the front of a lent buffer, and answers its length.
fn put_line(line: &mut [u8], name: &[u8], input: &[u8]) -> usize
    requires { length name.now + length input.now + 3 ≤ length line.old }
    ensures { result ≤ length line.new }
{
    let colon = bits::put_text(line, 0, name);
    let from = bits::put_text(line, colon, b": ");
    let end = bits::put_text(line, from, input);
    bits::put_text(line, end, b"\n")
}

impl<R: Print + Errors> Step for Fronts<'_, R> {
    ghost room = { λ _. 2 ^ 64 };

    ghost kept = { λ _. Unit {0} };

    // No contract of a step says how long its input is, so a line has no more of it than the buffer can hold.
    fn take(&mut self, name: &[u8], input: &[u8]) -> Status {
        let mut line = [0u8; LINE_BYTES];
        let front = &input[..input.len().min(FRONT_BYTES)];
        let size = put_line(&mut line, name, front);
        self.program.write(&line[..size])
    }
}

// A status as a line.
fn word_of(status: Status) -> &'static [u8] {
    match status {
        Status::Done => b"done\n",
        Status::Refused => b"refused\n",
        Status::Unread => b"unread\n",
        Status::Unwritten => b"unwritten\n",
    }
}

// Takes every named input, prints what is taken of each, and behind these how the gravest ended.
fn run<R: Files + Env + Input + Print + Errors>(rt: &R, name: &mut [u8], file: &mut [u8])
    requires { length name.old ≤ most_name }
{
    let program = Program::new(rt, b"input_fronts: ");
    let mut fronts = Fronts { program: &program };
    let gravest = program.take_each(&mut fronts, name, file);
    let _ = program.write(word_of(gravest));
}

fn main(rt: HostRuntime) {
    let mut name = [0u8; 4096];
    let mut file = [0u8; FRONT_BYTES];
    run(&rt, &mut name, &mut file);
}

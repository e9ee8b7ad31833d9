// Named inputs of a program: each argument but the first names a file, or standard input by `-`, which is read to the front of a lent buffer.
// If an input cannot be opened or read, standard error says so with its name; it is not taken for an empty one. Every command that takes
// names stands on this crate, and says by a `Step` what it does with an input. It rests on `bits` and on std's files, arguments and standard
// streams; no contract can say what is read or written. All but the messages and the statuses may change.
#![tactic(auto)]

ghost use Rattle.std.specs.Prelude.{◌≡◌, ℕ, None, Some, ◌⊎◌, ◌+◌, ◌≤◌, ◌<◌, ◌^◌, max, min, length, IfOk, IfSome, MatchResult};
ghost use Rattle.inputs.specs.Lengths.{most_program, most_name};
ghost use Rattle.inputs.specs.Statuses.{done, refused, unread, unwritten, status_number};

use std::env::{Env, FillError};
use std::fs::{File, OpenOptions};
use std::io;
use std::io::{Error, Read, Write};
use std::marker::{Brand, PhantomData};
use std::rt::Files;

// ---- statuses

// How a command ended; the later is the graver end: all was done; an input was refused; an input could not be read; the output took no
// more, which ends the run.
#[derive(Clone, Copy, PartialEq, Eq, PartialOrd, Ord)]
pub enum Status {
    Done,
    Refused,
    Unread,
    Unwritten,
}

impl Status {
    // The graver of two statuses.
    pub fn graver(self, other: Status) -> Status
        ensures { status_number result ≡ max (status_number self) (status_number other) }
    {
        self.max(other)
    }
}

// What a status is written to: descriptor 3, which std has no other name for.
const STATUS_PATH: &str = "/proc/self/fd/3";

fn write_status<R: Files>(rt: &R, digit: u8) -> io::Result<()> {
    let mut file = OpenOptions::new().append(true).open(rt, STATUS_PATH)?;
    write!(file, "{digit}")
}

// A program writes the number of its status to descriptor 3 as a digit, and the command that started it ends with that. The answer is the
// digit. For a user not read and not written are one, so what is graver than not read is told as that. If there is no such descriptor, nobody
// asks for the status. An exit status of its own, as `main` could return one, would not tell a run that has ended from one that broke off.
pub fn tell<R: Files>(rt: &R, status: u8) -> u8
    ensures { result ≡ min status unread }
{
    let digit = status.min(Status::Unread as u8);
    let _ = write_status(rt, digit);
    digit
}

// ---- messages

// Standard error, which takes any bytes: a name need not be text.
pub trait Errors {
    fn write_error(&self, bytes: &[u8]) -> io::Result<()>;
}

impl Errors for HostRuntime {
    fn write_error(&self, bytes: &[u8]) -> io::Result<()> {
        Print::write_all(&self.stderr(), bytes)
    }
}

// Says the line of a refused input, and answers the status of that. If standard error takes no more, nobody can be told.
pub fn say_refused<R: Errors>(rt: &R, line: &[u8]) -> Status
    ensures { status_number result ≡ refused }
{
    let _ = rt.write_error(line);
    Status::Refused
}

// The errors of the system that are found here: an argument that is not there, one that is longer than its buffer, and a name that is no
// UTF-8 and has no link.
const EINVAL: i32 = 22;

const ENAMETOOLONG: i32 = 36;

const EILSEQ: i32 = 84;

// The most bytes of the system's words for an error.
const REASON_BYTES: usize = 128;

// How many bytes of std's text for an error are the system's words: the number of the error stands behind them.
fn words_len(text: &[u8]) -> usize
    ensures { result ≤ length text.now }
{
    let Ok(whole) = str::from_utf8(text) else {
        return text.len();
    };
    whole
        .rsplit_once(" (os error ")
        .map_or(text.len(), |(words, _)| words.len().min(text.len()))
}

// Writes std's text for an error to the front of a lent buffer, and answers how many bytes of that are free.
fn put_error(mut text: &mut [u8], error: Error) -> usize {
    let _ = write!(text, "{error}");
    text.len()
}

// Says the system's words for an error, and ends the line.
fn say_reason<R: Errors>(rt: &R, error: Error) {
    let mut text = [0u8; REASON_BYTES];
    let free = put_error(&mut text, error);
    let size = words_len(&text[..REASON_BYTES.saturating_sub(free)]);
    let _ = rt.write_error(&text[..size]);
    let _ = rt.write_error(b"\n");
}

// The most bytes of a message before the reason: `most_message`.
const MESSAGE_BYTES: usize = 4160;

// Two texts, one behind the other, at the front of a lent buffer; the answer is their length.
fn put_both(text: &mut [u8], program: &[u8], what: &[u8]) -> usize
    requires { length program.now + length what.now ≤ length text.old }
    ensures { result ≤ length text.new }
{
    let at = bits::put_text(text, 0, program);
    bits::put_text(text, at, what)
}

// ---- a program

// A running program: its runtime, and its name with a colon and a space, which its messages begin with.
#[derive(Drop)]
pub struct Program<'a, R> {
    pub rt: &'a R,
    name: &'a [u8],
    ghost short: { length name.now ≤ most_program },
}

impl<'a, R> Program<'a, R> {
    // A program that runs by this runtime and under this name.
    pub fn new(rt: &'a R, name: &'a [u8]) -> Program<'a, R>
        requires { length name.now ≤ most_program }
        ensures { (result.rt ≡ rt.entry) × (result.name ≡ name.entry) }
    {
        Program { rt, name }
    }
}

impl<R: Errors> Program<'_, R> {
    // The message by way of a lent buffer.
    fn fail_through(&self, text: &mut [u8], what: &[u8], error: Error)
        requires { length self.now.name.now + length what.now ≤ length text.old }
    {
        let end = put_both(text, self.name, what);
        let _ = self.rt.write_error(&text[0..end]);
        let _ = self.rt.write_error(b": ");
        say_reason(self.rt, error);
    }

    // Says on standard error that something failed, and why: the program's name, what failed, and the system's words for the error.
    fn fail(&self, what: &[u8], error: Error)
        requires { length what.now ≤ most_name }
    {
        let mut text = [0u8; MESSAGE_BYTES];
        self.fail_through(&mut text, what, error);
    }

    // Says that standard output takes no more, and answers the status of that.
    pub fn say_unwritten(&self, error: Error) -> Status
        ensures { status_number result ≡ unwritten }
    {
        self.fail(b"standard output", error);
        Status::Unwritten
    }
}

impl<R: Print + Errors> Program<'_, R> {
    // Writes a text to standard output, and answers the status: done, or unwritten, which is said.
    pub fn write(&self, text: &[u8]) -> Status
        ensures { (status_number result ≡ done) ⊎ (status_number result ≡ unwritten) }
    {
        match self.rt.write_all(text) {
            Ok(()) => Status::Done,
            Err(error) => self.say_unwritten(error),
        }
    }
}

// ---- reading

// Reads to the front of `file` until that is full or the input ends, and answers how many bytes there are. A read that fails is not the
// end. How many bytes a read gives is not known before, so no `for` counts them.
fn read<I: Read>(input: &mut I, file: &mut [u8]) -> io::Result<usize>
    ensures { IfOk result (λ n. n ≤ length file.new) × (length file.new ≡ length file.old) }
{
    let mut size: usize = 0;
    while size < file.len() {
        let more = input.read(&mut file[size..])?;
        if more == 0 {
            break;
        }
        size += more;
    }
    Ok(size)
}

// Whether a name stands for standard input.
fn is_standard(name: &[u8]) -> bool {
    matches!(name, b"-")
}

// The variable of the environment that names a folder of links. std opens a file by a name that is UTF-8 alone; a file of another name is
// opened by the link that is named as its argument is numbered. The command that starts the program makes the links.
const LINKS: &str = "POHANDIRA_LINKS";

// The most bytes of a link's name: those of its folder, a slash, and a number.
const LINK_BYTES: usize = 4117;

const FOLDER_BYTES: usize = 4096;

// Puts the name of the link for argument i at the front of a lent buffer, and answers its length, if there are links.
fn put_link<R: Env>(rt: &R, i: usize, path: &mut [u8; LINK_BYTES]) -> Option<usize>
    ensures { IfSome result (λ size. size ≤ length path.new) }
{
    match rt.var(LINKS, &mut path[..FOLDER_BYTES]) {
        Ok(0) => None,
        Ok(size) => {
            let end = bits::put_text(path, size, b"/");
            Some(bits::put_decimal(path, end, i as u64))
        }
        Err(_) => None,
    }
}

// The system's error for a name that is no text, and has no link.
fn no_text() -> Error {
    Error::from_raw_os_error(EILSEQ)
}

// Opens the file of argument i by its link.
fn open_link<R: Files + Env>(rt: &R, i: usize) -> io::Result<R::File> {
    let mut path = [0u8; LINK_BYTES];
    let Some(size) = put_link(rt, i, &mut path) else {
        return Err(no_text());
    };
    match str::from_utf8(&path[..size]) {
        Ok(text) => File::open(rt, text),
        Err(_) => Err(no_text()),
    }
}

// Opens the file that argument i names.
fn open<R: Files + Env>(rt: &R, i: usize, name: &[u8]) -> io::Result<R::File> {
    match str::from_utf8(name) {
        Ok(text) => File::open(rt, text),
        Err(_) => open_link(rt, i),
    }
}

// Opens a file, reads it and closes it.
fn open_and_read<R: Files + Env>(
    rt: &R,
    i: usize,
    name: &[u8],
    file: &mut [u8],
) -> io::Result<usize>
    ensures { IfOk result (λ n. n ≤ length file.new) × (length file.new ≡ length file.old) }
{
    let mut opened = open(rt, i, name)?;
    read(&mut opened, file)
}

impl<R: Errors> Program<'_, R> {
    // What a read of `what` gave. If it failed, standard error says so.
    fn input_of(&self, what: &[u8], got: io::Result<usize>) -> Option<usize>
        requires { length what.now ≤ most_name }
        ensures { MatchResult got (λ n. result ≡ Some n) (λ _. result ≡ None) }
    {
        match got {
            Ok(size) => Some(size),
            Err(error) => {
                self.fail(what, error);
                None
            }
        }
    }
}

impl<R: Files + Env + io::Input + Errors> Program<'_, R> {
    // Reads standard input.
    fn read_standard(&self, file: &mut [u8]) -> Option<usize>
        ensures { IfSome result (λ size. size ≤ length file.new) × (length file.new ≡ length file.old) }
    {
        let got = read(&mut self.rt.reader(), file);
        self.input_of(b"standard input", got)
    }

    // Reads a file.
    fn read_file(&self, i: usize, name: &[u8], file: &mut [u8]) -> Option<usize>
        requires { length name.now ≤ most_name }
        ensures { IfSome result (λ size. size ≤ length file.new) × (length file.new ≡ length file.old) }
    {
        let got = open_and_read(self.rt, i, name, file);
        self.input_of(name, got)
    }

    // Reads the input that a name stands for, which is argument i or stands for none, and answers how many bytes it has, up to the room for
    // them. If it cannot be read, standard error says so.
    pub fn read_named(&self, i: usize, name: &[u8], file: &mut [u8]) -> Option<usize>
        requires { length name.now ≤ most_name }
        ensures { IfSome result (λ size. size ≤ length file.new) × (length file.new ≡ length file.old) }
    {
        if is_standard(name) {
            self.read_standard(file)
        } else {
            self.read_file(i, name, file)
        }
    }
}

// ---- arguments

// The argument that says what is asked of the inputs, and the first that names one.
pub const ASKED: usize = 1;

pub const FIRST_NAME: usize = 2;

// How many arguments there are where one name is given.
const ONE_NAME: usize = 3;

// Whether there is an argument i: one that is longer than no room at all is there, too.
fn is_given<R: Env>(rt: &R, i: usize) -> bool {
    match rt.arg(i, &mut []) {
        Ok(_) => true,
        Err(FillError::TooLong) => true,
        Err(FillError::NotPresent) => false,
    }
}

// How many arguments there are, with the program's own name, which is the first.
pub fn argument_count<R: Env>(rt: &R) -> usize {
    for i in 0..usize::MAX {
        if !is_given(rt, i) {
            return i;
        }
    }
    usize::MAX
}

// Puts argument i at the front of `name`, and answers its length, or 0 if there is none or it is longer than the buffer.
pub fn short_argument<R: Env>(rt: &R, i: usize, name: &mut [u8]) -> usize
    ensures { (result ≤ length name.new) × (length name.new ≡ length name.old) }
{
    rt.arg(i, name).unwrap_or(0)
}

// The system's error for an argument that is not given whole.
fn argument_error(error: FillError) -> Error {
    Error::from_raw_os_error(match error {
        FillError::NotPresent => EINVAL,
        FillError::TooLong => ENAMETOOLONG,
    })
}

impl<R: Env + Errors> Program<'_, R> {
    // Puts argument i at the front of `name`, and answers its length. If it is longer than a name can be, standard error says so with its
    // first bytes.
    pub fn argument(&self, i: usize, name: &mut [u8]) -> Option<usize>
        requires { length name.old ≤ most_name }
        ensures { IfSome result (λ size. size ≤ length name.new) × (length name.new ≡ length name.old) }
    {
        match self.rt.arg(i, name) {
            Ok(size) => Some(size),
            Err(error) => {
                self.fail(name, argument_error(error));
                None
            }
        }
    }
}

impl<R: Env> Program<'_, R> {
    // Whether several names are given.
    pub fn has_several_names(&self) -> bool {
        ONE_NAME < argument_count(self.rt)
    }
}

impl<R: Files + Env> Program<'_, R> {
    // Tells the status. Without an argument nobody reads it, so it is not told.
    pub fn tell_asked(&self, status: Status) {
        if ASKED < argument_count(self.rt) {
            tell(self.rt, status as u8);
        }
    }
}

// ---- all inputs

// What a program does with its inputs, one after the other. A bound on closures could not say how many more it takes.
pub trait Step {
    // how many more inputs it can take
    ghost room: { Self → ℕ };

    // what each input leaves true
    ghost kept: { Self → Type 0 };

    // how many bytes the buffer for an input has that `take_each_whole` is lent: with fewer an input that is too long would pass for a shorter one
    ghost input_room: { ℕ } = { 0 };

    // Takes an input under its name, and answers how that ended.
    fn take(&mut self, name: &[u8], input: &[u8]) -> Status
        requires { (length name.now ≤ most_name) × (0 < room self.old) × kept self.old }
        ensures { (room self.old ≤ room self.new + 1) × kept self.new };
}

// How long the buffer for an input is. A type says it, which goes down to where the input is read, so that no part of the buffer can be lent in
// its place on the way.
trait InputBuffer {
    ghost length_is: { ℕ };
}

// A buffer of any length, which the call picks. No buffer is as long as what stands here, so that no call goes without a pick.
impl InputBuffer for Brand {
    ghost length_is = { 2 ^ 64 };
}

// A buffer that is as long as a step says.
struct Whole<S>(PhantomData<S>);

impl<S: Step> InputBuffer for Whole<S> {
    ghost length_is = { S.input_room };
}

// The place of standard input among the arguments where none names it.
const NO_NAME: usize = 0;

impl<R: Files + Env + io::Input + Errors> Program<'_, R> {
    // Takes the input of a name, which is argument i. One that cannot be read is not taken.
    fn take_named<S: Step, B: InputBuffer>(
        &self,
        step: &mut S,
        i: usize,
        name: &[u8],
        file: &mut [u8],
    ) -> Status
        requires { (length name.now ≤ most_name) × (length file.old ≡ B.length_is) × (0 < S.room step.old) × S.kept step.old }
        ensures { (S.room step.old ≤ S.room step.new + 1) × S.kept step.new × (length file.new ≡ length file.old) }
    {
        let Some(size) = self.read_named(i, name, file) else {
            return Status::Unread;
        };
        step.take(name, &file[..size])
    }

    // Takes the input that argument i names.
    fn take_argument<S: Step, B: InputBuffer>(
        &self,
        step: &mut S,
        i: usize,
        name: &mut [u8],
        file: &mut [u8],
    ) -> Status
        requires { (length name.old ≤ most_name) × (length file.old ≡ B.length_is) × (0 < S.room step.old) × S.kept step.old }
        ensures { (S.room step.old ≤ S.room step.new + 1) × S.kept step.new × (length name.new ≡ length name.old) × (length file.new ≡ length file.old) }
    {
        let Some(size) = self.argument(i, name) else {
            return Status::Unread;
        };
        self.take_named::<S, B>(step, i, &name[..size], file)
    }

    // Takes all inputs that are named by arguments; a failed output ends the run.
    fn take_all<S: Step, B: InputBuffer>(
        &self,
        step: &mut S,
        name: &mut [u8],
        file: &mut [u8],
    ) -> Status
        requires { (length name.old ≤ most_name) × (length file.old ≡ B.length_is) × (2 ^ 64 ≤ S.room step.old + 1) × S.kept step.old }
        ensures { S.kept step.new }
    {
        let count = argument_count(self.rt);
        let mut gravest = Status::Done;
        for i in FIRST_NAME..count {
            let status = self.take_argument::<S, B>(step, i, name, file);
            if status == Status::Unwritten {
                return status;
            }
            gravest = gravest.graver(status);
        }
        gravest
    }

    // Takes all named inputs, or standard input if none is named.
    fn take_inputs<S: Step, B: InputBuffer>(
        &self,
        step: &mut S,
        name: &mut [u8],
        file: &mut [u8],
    ) -> Status
        requires { (length name.old ≤ most_name) × (length file.old ≡ B.length_is) × (2 ^ 64 ≤ S.room step.old + 1) × S.kept step.old }
        ensures { S.kept step.new }
    {
        if argument_count(self.rt) <= FIRST_NAME {
            return self.take_named::<S, B>(step, NO_NAME, b"-", file);
        }
        self.take_all::<S, B>(step, name, file)
    }

    // Takes all named inputs, or standard input if none is named, and answers how the gravest ended. The buffer for an input has any length: of
    // an input that is longer the front is taken. The buffers are no struct here: each program lends its own.
    pub fn take_each<S: Step>(&self, step: &mut S, name: &mut [u8], file: &mut [u8]) -> Status
        requires { (length name.old ≤ most_name) × (2 ^ 64 ≤ S.room step.old + 1) × S.kept step.old }
        ensures { S.kept step.new }
    {
        self.take_inputs::<S, Brand>(step, name, file)
    }

    // The same, by way of a buffer for an input that is as long as the step says. Of a longer input it takes the front, too, so a step that refuses
    // all inputs of that length refuses every longer one.
    pub fn take_each_whole<S: Step>(&self, step: &mut S, name: &mut [u8], file: &mut [u8]) -> Status
        requires { (length name.old ≤ most_name) × (length file.old ≡ S.input_room) × (2 ^ 64 ≤ S.room step.old + 1) × S.kept step.old }
        ensures { S.kept step.new }
    {
        self.take_inputs::<S, Whole<S>>(step, name, file)
    }
}

// The schedule file: opening one, the event at a position, and writing one. Each function takes any
// bytes of any length, and answers what `specs/File.antt` of `file` says.

#![tactic(auto)]

ghost use Rattle.std.specs.Prelude.{◌≡◌, ◌≤◌, length};
ghost use Rattle.counting.specs.Counting.{any_below};
ghost use Rattle.file.specs.File.{file_length, code_bad, opening, reading, writing, written_of};
ghost use Rattle.schedule.specs.Next.{next_of};
ghost use Rattle.schedule.specs.Asked.{reader_at, Asked};

use headers::{MOST_EVENTS, header, settings, word};
use machine::{Event, Kind, Opened, Refusal, Settings, TaskId};
use writer::{bad_number, put_events, put_header};

// What a reader answers, with its position afterwards.
#[derive(Clone, Copy)]
pub struct Next {
    pub answer: Result<Event, Refusal>,
    pub at: usize,
}

// Whether one of the first n events has a code above 2.
fn bad_code(file: &[u8], n: usize) -> bool
    requires { file_length n ≤ length file.now }
    ensures { result ≡ any_below (code_bad file.now) n }
{
    (0..n).any(|i| file[11 + 3 * i] > 2)
}

// Opens a schedule file: its settings and its count of events, or why it is refused.
pub fn open(file: &[u8]) -> Result<Opened, Refusal>
    ensures { result ≡ opening file.now }
{
    header(file)?;
    let count = word(file, 9);
    if bad_code(file, usize::from(count)) {
        return Err(Refusal::EventCode);
    }
    Ok(Opened {
        settings: settings(file),
        count,
    })
}

// The event at a position of the file, or why there is none.
fn event(file: &[u8], at: usize) -> Result<Event, Refusal>
    ensures { result ≡ (reading file.now at).answer }
{
    header(file)?;
    if at >= usize::from(word(file, 9)) {
        return Err(Refusal::NoEvent);
    }
    let kind = Kind::try_from(file[11 + 3 * at])?;
    let task = TaskId(word(file, 11 + 3 * at + 1));
    Ok(Event { kind, task })
}

// The event at a position of the file, and the position after it: one more where an event is given,
// the same where it is refused.
pub fn event_at(file: &[u8], at: usize) -> Next
    ensures { result ≡ next_of (reading file.now at) }
{
    let answer = event(file, at);
    let moved = if answer.is_ok() { at + 1 } else { at };
    Next { answer, at: moved }
}

// A reader stays with the lent file and keeps the position of its next event.
#[derive(Clone, Copy)]
pub struct Reader<'a> {
    file: &'a [u8],
    at: usize,
}

impl<'a> Reader<'a> {
    // A reader at the first event of a file.
    pub fn new(file: &'a [u8]) -> Reader<'a>
        ensures { result ≡ reader_at file.entry 0 }
    {
        Reader { file, at: 0 }
    }

    // The next event, or why there is none. An event given moves the reader on by one, a refusal
    // does not.
    pub fn next(&mut self) -> Result<Event, Refusal>
        ensures { Asked self.old result self.new }
    {
        let next = event_at(self.file, self.at);
        self.at = next.at;
        next.answer
    }
}

// Asks a reader at a position of the file for its next event: the answer, and where the reader then
// stands. The same as `event_at`, by way of a reader: docs/CONTRACTS.md names both.
pub fn read(file: &[u8], at: usize) -> Next
    ensures answered { result ≡ next_of (reading file.now at) }
{
    let mut reader = Reader { file, at };
    let answer = reader.next();
    Next {
        answer,
        at: reader.at,
    }
}

// Writes the schedule of those settings and event numbers from the start of the room, and answers
// how many bytes; or why it is refused, with the room as it was. Numbers, and no `Event`s, since a code
// above 2 is refused.
pub fn write(s: Settings, events: &[u32], room: &mut [u8]) -> Result<usize, Refusal>
    ensures { written_of result room.new ≡ writing s events.now room.old }
{
    if !places::permitted(s) {
        return Err(Refusal::Limits);
    }
    let count = events.len();
    if count > MOST_EVENTS {
        return Err(Refusal::TooManyEvents);
    }
    if bad_number(events) {
        return Err(Refusal::EventCode);
    }
    let length = 11 + 3 * count;
    if room.len() < length {
        return Err(Refusal::ShortRoom);
    }
    put_header(room, s, count as u16);
    put_events(room, events);
    Ok(length)
}

// Both sides of the schedule file's edges, as the library answers them: opening, reading and writing.
// An answer is printed by its number, 0 where it is accepted, and the values beside it.

#![tactic(auto)]

ghost use Rattle.std.specs.Prelude.{◌<◌};

use machine::{Event, Opened, Refusal, Settings};
use std::fmt::{self, Write};

// The number of standard output.
const STDOUT_FILENO: i32 = 1;

// Standard output by `io`, which asks no C function why a write failed: one that fails is passed over, and
// the next is tried. `memories` and `schedule_edges` have it each: a crate for it would be longer.
#[derive(Drop)]
struct Output;

impl Write for Output {
    fn write_str(&mut self, text: &str) -> fmt::Result {
        io::write_all(STDOUT_FILENO, text.as_bytes());
        Ok(())
    }
}

impl Output {
    // A number in so many hexadecimal digits, in one piece: `write!` makes pieces of leading zeros.
    fn hex(&mut self, n: u64, digits: usize) {
        io::print_hex(STDOUT_FILENO, n, digits);
    }
}

// The number of an answer: its refusal's, or 0.
fn number<T: Drop>(answer: Result<T, Refusal>) -> u16 {
    answer.err().map_or(0, |why| why.number())
}

// The number of an event, as 01 writes it: its kind's code, 0 to 2, times 65,536 plus its identifier.
fn numbered(event: Event) -> u32 {
    65536 * (event.kind as u32) + u32::from(event.task.0)
}

// Numbers, each behind a space.
fn numbers(out: &mut Output, numbers: &[u64]) -> fmt::Result {
    for number in numbers {
        write!(out, " {number}")?;
    }
    Ok(())
}

// open ANSWER, with mode, N, k, version and count where the file is accepted.
fn open(out: &mut Output, file: &[u8]) -> fmt::Result {
    write!(out, "open")?;
    match schedule::open(file) {
        Ok(Opened { settings, count }) => numbers(
            out,
            &[
                0,
                u64::from(settings.mode),
                u64::from(settings.n),
                u64::from(settings.k),
                u64::from(settings.version),
                u64::from(count),
            ],
        )?,
        Err(why) => numbers(out, &[u64::from(why.number())])?,
    }
    writeln!(out)
}

// read POSITION ANSWER, with code and identifier where an event is given, and the position after it.
fn read(out: &mut Output, file: &[u8], at: usize) -> fmt::Result {
    let next = schedule::read(file, at);
    write!(out, "read")?;
    numbers(out, &[at as u64])?;
    match next.answer {
        Ok(event) => numbers(out, &[0, event.kind as u64, u64::from(event.task.0)])?,
        Err(why) => numbers(out, &[u64::from(why.number())])?,
    }
    numbers(out, &[next.at as u64])?;
    writeln!(out)
}

// The number that a reader at a position answers, as it is printed.
fn given(file: &[u8], at: usize) -> u16 {
    number(schedule::read(file, at).answer)
}

// The numbers of the answers to a file of three events with one byte changed: opening's, and a
// reader's at 0, 1, 2 and 3.
fn answers(mut file: [u8; 20], place: usize, byte: u8) -> [u16; 5]
    requires { place < 20 }
{
    file[place] = byte;
    let file = &file[..];
    [
        number(schedule::open(file)),
        given(file, 0),
        given(file, 1),
        given(file, 2),
        given(file, 3),
    ]
}

// byte PLACE FROM TO ANSWERS, with one hexadecimal digit for each answer
fn run(out: &mut Output, place: usize, from: u8, to: u8, answers: [u16; 5]) -> fmt::Result {
    write!(out, "byte")?;
    numbers(out, &[place as u64, u64::from(from), u64::from(to)])?;
    write!(out, " ")?;
    out.hex(
        answers
            .iter()
            .fold(0, |all, answer| all << 4 | u64::from(*answer)),
        5,
    );
    writeln!(out)
}

// A place of the file changed to every byte, in runs of equal answers.
fn changed(out: &mut Output, file: [u8; 20], place: usize) -> fmt::Result
    requires { place < 20 }
{
    let mut from = 0u8;
    let mut was = answers(file, place, 0);
    for byte in 1..=255u8 {
        let now = answers(file, place, byte);
        if now != was {
            run(out, place, from, byte - 1, was)?;
            from = byte;
            was = now;
        }
    }
    run(out, place, from, 255, was)
}

// The file cut at every length.
fn cuts(out: &mut Output, file: &[u8]) -> fmt::Result {
    for cut in 0..=file.len() {
        write!(out, "cut")?;
        numbers(
            out,
            &[cut as u64, u64::from(number(schedule::open(&file[..cut])))],
        )?;
        writeln!(out)?;
    }
    Ok(())
}

// write ANSWER, with how many bytes where it is accepted, and the room afterwards.
fn write(out: &mut Output, s: Settings, events: &[u32], room: &mut [u8]) -> fmt::Result {
    write!(out, "write")?;
    match schedule::write(s, events, room) {
        Ok(count) => numbers(out, &[0, count as u64])?,
        Err(why) => numbers(out, &[u64::from(why.number())])?,
    }
    write!(out, " ")?;
    for byte in room.iter() {
        out.hex(u64::from(*byte), 2);
    }
    writeln!(out)
}

// The number of the event at a position of a file, 0 where none is given.
fn event(file: &[u8], at: usize) -> u32 {
    schedule::read(file, at).answer.map_or(0, numbered)
}

// A file of three events with another version: opening, and what it gives read and written back.
fn version(out: &mut Output, mut file: [u8; 20], version: u16) -> fmt::Result {
    let [low, high] = version.to_le_bytes();
    file[3] = low;
    file[4] = high;
    open(out, &file)?;
    if let Ok(Opened { settings, .. }) = schedule::open(&file) {
        let events = [event(&file, 0), event(&file, 1), event(&file, 2)];
        write(out, settings, &events, &mut [170; 22])?;
    }
    Ok(())
}

// The largest file, one event more, and one byte more or less than its length.
fn largest(out: &mut Output) -> fmt::Result {
    let mut file = [0u8; 49166];
    open(out, &file[..0])?;
    file[..11].copy_from_slice(&[b'G', b'R', b'S', 1, 0, 1, 0, 1, 16, 0, 64]);
    open(out, &file[..49163])?;
    open(out, &file[..49162])?;
    open(out, &file[..49164])?;
    read(out, &file[..49163], 16383)?;
    read(out, &file[..49163], 16384)?;
    read(out, &file[..49163], usize::MAX)?;
    file[49160] = 3;
    open(out, &file[..49163])?;
    read(out, &file[..49163], 16382)?;
    read(out, &file[..49163], 16383)?;
    read(out, &file[..49163], 16384)?;
    file[9] = 1;
    open(out, &file[..49166])?;
    open(out, &file[..11])
}

// A file of three events, read, cut, changed at every place, and with versions 0 to 3 and two whose
// high byte is not 0.
fn small(out: &mut Output) -> fmt::Result {
    let file = [
        71, 82, 83, 1, 0, 1, 2, 0, 2, 3, 0, 0, 0, 0, 1, 1, 0, 2, 255, 255,
    ];
    open(out, &file)?;
    for at in 0..4 {
        read(out, &file, at)?;
    }
    cuts(out, &file)?;
    for place in 0..20 {
        changed(out, file, place)?;
    }
    for number in [0, 1, 2, 3, 257, 512] {
        version(out, file, number)?;
    }
    Ok(())
}

// The writer: what is refused, the first reason first, and with settings of each version.
fn writes(out: &mut Output) -> fmt::Result {
    let good = Settings {
        mode: 1,
        n: 2,
        k: 2,
        version: 1,
    };
    let bad = Settings {
        mode: 0,
        k: 3,
        ..good
    };
    let events = [0, 65537, 196607];
    let coded = [0, 196608, 0];
    let many = [0; 16385];
    write(out, bad, &many, &mut [170; 19])?;
    write(out, good, &many, &mut [170; 19])?;
    write(out, good, &coded, &mut [170; 19])?;
    write(out, good, &events, &mut [170; 19])?;
    write(out, good, &coded, &mut [170; 22])?;
    write(out, good, &events, &mut [170; 22])?;
    for version in [0, 1, 2, 3, 257] {
        let s = Settings { version, ..good };
        write(out, s, &events, &mut [170; 22])?;
    }
    Ok(())
}

fn edges(out: &mut Output) -> fmt::Result {
    largest(out)?;
    small(out)?;
    writes(out)
}

fn main() {
    let _ = edges(&mut Output);
}

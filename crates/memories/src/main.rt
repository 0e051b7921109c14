// Calls on memories of any contents. The input is a row of cases: what is called, the settings, the
// task, and the rows to lend: up to 256 records, 128 X numbers and 30,740 marks, of any contents. Each
// call is made on just these rows, and the answer and every lent element afterwards are printed.

#![tactic(auto)]

use calls::Call;
use machine::{
    Answer, Direction, Event, Kind, Letter, Place, Point, Record, Refusal, Register, Row, Settings,
    Shown, Stand, State, TaskId, Told,
};
use std::fmt::{self, Display, Write};

// The numbers of standard input and output.
const STDIN_FILENO: i32 = 0;

const STDOUT_FILENO: i32 = 1;

// Standard output by `io`, which asks no C function why a write failed: one that fails is passed over, and
// the next is tried. `memories` and `schedule_edges` have it each: a crate for it would be longer.
#[derive(Drop)]
struct Output;

impl Write for Output {
    fn write_str(&mut self, text: &str) -> fmt::Result {
        io::write_all(STDOUT_FILENO, text.as_bytes());
        Ok(())
    }
}

// A case but for its rows: what is called, whether the access is printed with the answer, which an ask
// does without, the settings, and how many elements of each row are lent.
#[derive(Clone, Copy)]
struct Case {
    call: Call,
    shows_access: bool,
    settings: Settings,
    records: u16,
    xs: u16,
    marks: u16,
}

// ---- the bytes of a case, low byte first

// Bytes that are read from the first on. Past the last there are zeros.
#[derive(Drop)]
struct Bytes<'a>(&'a [u8]);

impl<'a> Bytes<'a> {
    fn byte(&mut self) -> u8 {
        let Some((first, rest)) = self.0.split_first() else {
            return 0;
        };
        self.0 = rest;
        *first
    }

    fn word(&mut self) -> u16 {
        u16::from_le_bytes([self.byte(), self.byte()])
    }

    fn number(&mut self) -> u32 {
        u32::from_le_bytes([self.byte(), self.byte(), self.byte(), self.byte()])
    }

    // The next n bytes, or all where there are fewer.
    fn part(&mut self, n: usize) -> Bytes<'a> {
        let (part, rest) = self.0.split_at(n.min(self.0.len()));
        self.0 = rest;
        Bytes(part)
    }

    // What is called, by its number: 0 ask, 1 turn, 2 release, 3 setup. Any other number is setup where
    // fewer than 256 records are lent, and else ask.
    fn case(&mut self) -> Case {
        let number = self.byte();
        let settings = Settings {
            mode: self.byte(),
            n: self.word(),
            k: self.byte(),
            version: self.word(),
        };
        let task = TaskId(self.word());
        let records = self.word();
        let of = |kind| Call::Of(Event { kind, task });
        Case {
            call: match number {
                0 => of(Kind::Ask),
                1 => of(Kind::Turn),
                2 => of(Kind::Release),
                4.. if records >= 256 => of(Kind::Ask),
                _ => Call::Setup,
            },
            shows_access: number != 0,
            settings,
            records,
            xs: self.word(),
            marks: self.word(),
        }
    }

    // Ten bytes: the state, r, c, the point, the place of a scan, and the turns used.
    fn record(&mut self) -> Record {
        let state = self.byte();
        let r = self.byte();
        let c = self.byte();
        let point = self.point();
        Record {
            state: match state {
                0 => State::Idle,
                2 => State::Holding(Place { r, c }),
                _ => State::Seeking(Stand { r, c, point }),
            },
            turns: self.number(),
        }
    }

    fn point(&mut self) -> Point {
        let point = self.byte();
        let place = self.word();
        match point {
            0 => Point::WriteX,
            1 => Point::Scan(place),
            2 => Point::WriteMark,
            3 => Point::ReadX,
            4 => Point::Clear(Direction::Right),
            _ => Point::Clear(Direction::Down),
        }
    }
}

// ---- the call

// All 256 records are lent by `calls::make`, which takes them by value, fewer by the calls on lent rows.
fn answer_of(
    case: &Case,
    records: &mut [Record; 256],
    xs: &mut [u32],
    marks: &mut [u8],
) -> Result<Answer, Refusal> {
    let s = case.settings;
    if case.records >= 256 {
        let made = calls::make(s, case.call, *records, xs, marks);
        let after = made.records;
        *records = after;
        return made.answer;
    }
    let lent = &mut records[..usize::from(case.records)];
    match case.call {
        Call::Setup => calls::setup(s, lent, xs, marks),
        Call::Of(Event { kind, task }) => match kind {
            Kind::Ask => calls::ask(s, lent, xs, marks, task),
            Kind::Turn => calls::turn(s, lent, xs, marks, task),
            Kind::Release => calls::release(s, lent, xs, marks, task),
        },
    }
}

// ---- what is printed: by functions and no `impl Display`, since the types are of another crate

fn write_refusal(out: &mut impl Write, why: Refusal) -> fmt::Result {
    write!(out, "refused {}", why.number())?;
    if let Refusal::OutOfRange { row, index } = why {
        match row {
            Row::Records => write!(out, " records {index}")?,
            Row::Xs => write!(out, " x {index}")?,
            Row::Marks => write!(out, " marks {index}")?,
        }
    }
    Ok(())
}

// The five fields of an access, or none.
fn write_access(out: &mut impl Write, shown: Option<Shown>) -> fmt::Result {
    let Some(
        Shown {
            letter,
            register,
            value,
        },
    ) = shown
    else {
        return write!(out, " none");
    };
    match letter {
        Letter::R => write!(out, " R ")?,
        Letter::W => write!(out, " W ")?,
    }
    match register {
        Register::X { block } => write!(out, "X {block} 0")?,
        Register::Mark { block, place } => write!(out, "M {block} {place}")?,
    }
    write!(out, " {value}")
}

fn write_answer(out: &mut impl Write, answer: Answer, shows_access: bool) -> fmt::Result {
    match answer.told {
        Told::Done => return write!(out, "done"),
        Told::Seeks => write!(out, "seeks")?,
        Told::Holds(name) => write!(out, "holds {}", name.0)?,
        Told::Freed(name) => write!(out, "freed {}", name.0)?,
    }
    if shows_access {
        write_access(out, answer.shown)?;
    }
    Ok(())
}

fn write_point(out: &mut impl Write, point: Point) -> fmt::Result {
    match point {
        Point::WriteX => write!(out, "x"),
        Point::Scan(h) => write!(out, "scan/{h}"),
        Point::WriteMark => write!(out, "mark"),
        Point::ReadX => write!(out, "read"),
        Point::Clear(Direction::Right) => write!(out, "right"),
        Point::Clear(Direction::Down) => write!(out, "down"),
    }
}

// An idle record has no turns in range; where it has some they are told.
fn write_record(out: &mut impl Write, record: Record) -> fmt::Result {
    match record.state {
        State::Idle => {
            write!(out, " idle")?;
            if record.turns == 0 {
                return Ok(());
            }
        }
        State::Seeking(stand) => {
            write!(out, " seek/{}/{}/", stand.r, stand.c)?;
            write_point(out, stand.point)?;
        }
        State::Holding(place) => write!(out, " hold/{}/{}", place.r, place.c)?,
    }
    write!(out, "/{}", record.turns)
}

// A row of numbers on a line.
fn write_row<T: Display>(out: &mut impl Write, name: &str, row: &[T]) -> fmt::Result {
    write!(out, "{name}")?;
    for element in row {
        write!(out, " {element}")?;
    }
    writeln!(out)
}

// ---- the cases

// Serves the next case, and prints its answer and all that it leaves.
fn serve(bytes: &mut Bytes, out: &mut impl Write) -> fmt::Result {
    let case = bytes.case();
    let record_count = usize::from(case.records);
    let x_count = usize::from(case.xs);
    let mark_count = usize::from(case.marks);
    let mut record_bytes = bytes.part(10 * record_count);
    let mut x_bytes = bytes.part(4 * x_count);
    let mut mark_bytes = bytes.part(mark_count);
    let mut records = calls::idle_records();
    for record in &mut records {
        *record = record_bytes.record();
    }
    let mut xs = [0u32; 128];
    let mut marks = [0u8; 30740];
    let (Some(xs), Some(marks)) = (xs.get_mut(..x_count), marks.get_mut(..mark_count)) else {
        return Ok(());
    };
    for x in &mut *xs {
        *x = x_bytes.number();
    }
    for mark in &mut *marks {
        *mark = mark_bytes.byte();
    }
    write!(out, "answer ")?;
    match answer_of(&case, &mut records, xs, marks) {
        Ok(answer) => write_answer(out, answer, case.shows_access)?,
        Err(why) => write_refusal(out, why)?,
    }
    writeln!(out)?;
    write!(out, "records")?;
    for record in records.iter().take(record_count) {
        write_record(out, *record)?;
    }
    writeln!(out)?;
    write_row(out, "x", xs)?;
    write_row(out, "marks", marks)
}

// Serves all cases of an input, which has no more of them than bytes: a `for`, which ends by itself.
fn serve_all(input: &[u8], out: &mut impl Write) -> fmt::Result {
    let mut bytes = Bytes(input);
    for _ in 0..input.len() {
        if bytes.0.is_empty() {
            break;
        }
        serve(&mut bytes, out)?;
    }
    Ok(())
}

// Up to 65,536 bytes are served. A read that fails ends the input.
fn main() {
    let mut input = io::large_buffer();
    let count = io::read_full(STDIN_FILENO, &mut input);
    let _ = serve_all(&input[..count], &mut Output);
}

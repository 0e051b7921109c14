// What a supervisor holds and is answered: the types of the grid, the numbers of the refusals, and the
// one step of a task's record. Every definition that a contract cites is in `specs/`.

#![tactic(auto)]

ghost use Rattle.std.specs.Prelude.{◌≡◌, ◌+◌, ◌≤◌, ◌<◌, T};
ghost use Rattle.machine.specs.{RefusalNumbers.number_of, Codes.kind_coded};
ghost use Rattle.machine.specs.{Settings.{width, bound}, Places.block};
ghost use Rattle.machine.specs.Records.{point_in_range, stand_in_range, record_in_range};
ghost use Rattle.machine.specs.{Grid.{arrive, move, leave, point_turned}, Turn.{stand_turned, next_record}};

// Mode 0 is one-time, mode 1 long-lived. There are n tasks, of which at most k are out at once. Names
// are numbered by rows in version 1 and by diagonals in version 2. Mode and version are numbers, and no
// enums: a call takes any, and refuses what is outside the limits.
#[derive(Clone, Copy)]
pub struct Settings {
    pub mode: u8,
    pub n: u16,
    pub k: u8,
    pub version: u16,
}

// A task's identifier, 0 to N-1. It is no name.
#[derive(Clone, Copy)]
pub struct TaskId(pub u16);

// A name, 0 to k(k+1)/2-1. It is no identifier.
#[derive(Clone, Copy)]
pub struct Name(pub u16);

// Which way a clearing task goes.
#[derive(Clone, Copy)]
pub enum Direction {
    Right,
    Down,
}

// Where in its block a seeking task stands: the access that its next turn makes.
#[derive(Clone, Copy)]
pub enum Point {
    WriteX,
    Scan(u16),
    WriteMark,
    ReadX,
    Clear(Direction),
}

// Where a seeking task stands: at a point of the block in row r and column c.
#[derive(Clone, Copy)]
pub struct Stand {
    pub r: u8,
    pub c: u8,
    pub point: Point,
}

// What a holding task holds: the cell in row r and column c.
#[derive(Clone, Copy)]
pub struct Place {
    pub r: u8,
    pub c: u8,
}

// A task is idle, seeks where it stands, or holds a place.
#[derive(Clone, Copy)]
pub enum State {
    Idle,
    Seeking(Stand),
    Holding(Place),
}

// A task's record, as it stands in the lent row: where the task is, and the accepted turns that it has
// used since its ask; 0 while it is idle, and beside the state since a row may say otherwise, which 3
// refuses.
#[derive(Clone, Copy)]
pub struct Record {
    pub state: State,
    pub turns: u32,
}

// A register: the X number of a block, or a mark, by its block and its place among the block's marks.
#[derive(Clone, Copy)]
pub enum Register {
    X { block: u16 },
    Mark { block: u16, place: u16 },
}

// What an access does with its register. No `Option`: a read is an access too.
#[derive(Clone, Copy)]
pub enum Op {
    Read,
    Write(u32),
}

// The one register that a call touches, where it touches one, and what it does with it.
#[derive(Clone, Copy)]
pub struct Access {
    pub register: Register,
    pub op: Op,
}

// How the probe on the register bus names an access: read or written.
#[derive(Clone, Copy)]
pub enum Letter {
    R,
    W,
}

// What an answer shows of the call's access, where a register was touched: the register, with the
// value read from it or written to it.
#[derive(Clone, Copy)]
pub struct Shown {
    pub letter: Letter,
    pub register: Register,
    pub value: u32,
}

// What a task is called with.
#[derive(Clone, Copy)]
pub enum Kind {
    Ask,
    Turn,
    Release,
}

// By its code in a schedule file: 0 ask, 1 turn, 2 release.
impl TryFrom<u8> for Kind {
    type Error = Refusal;

    ghost try_from_gives = { λ code kind. kind ≡ kind_coded code };

    fn try_from(code: u8) -> Result<Kind, Refusal> {
        match code {
            0 => Ok(Kind::Ask),
            1 => Ok(Kind::Turn),
            2 => Ok(Kind::Release),
            _ => Err(Refusal::EventCode),
        }
    }
}

// A call of one task: an event of a schedule.
#[derive(Clone, Copy)]
pub struct Event {
    pub kind: Kind,
    pub task: TaskId,
}

// A lent row.
#[derive(Clone, Copy)]
pub enum Row {
    Records,
    Xs,
    Marks,
}

// Why a call is refused, in the order of the tests. Their numbers are 1 to 18 without 6, which is
// retired: 15 to 17 stand at its place, and tell what the task was at when the moment was wrong. 18
// is setup's alone, after 2.
#[derive(Clone, Copy)]
pub enum Refusal {
    Limits,
    ShortRow,
    BusyRow,
    OutOfRange { row: Row, index: usize },
    NoSuchTask,
    OneTime,
    TaskIdle,
    TaskSeeks,
    TaskHolds,
    TooManyOut,
    FileLength,
    Letters,
    Version,
    TooManyEvents,
    EventCode,
    NoEvent,
    ShortRoom,
}

// What a call sees of the row of records: its length, the index of the first of the N records that
// is out of range (N and no `None` where none is, as `view_of` says), how many of them are out, and the
// task's own.
#[derive(Clone, Copy)]
pub struct View {
    pub length: usize,
    pub bad: usize,
    pub out: usize,
    pub own: Record,
}

// What setup, ask, turn and release tell where they are accepted.
#[derive(Clone, Copy)]
pub enum Told {
    Done,
    Seeks,
    Holds(Name),
    Freed(Name),
}

// What they answer then: what they tell and, of a turn or release, the access that it made.
#[derive(Clone, Copy)]
pub struct Answer {
    pub told: Told,
    pub shown: Option<Shown>,
}

// What opening a schedule file answers where it is accepted: its settings and its count of events.
#[derive(Clone, Copy)]
pub struct Opened {
    pub settings: Settings,
    pub count: u16,
}

impl Refusal {
    // The number that an operator knows a refusal by: a method and no `From`, since docs/USING.md names it.
    pub fn number(self) -> u16
        ensures { result ≡ number_of self }
    {
        match self {
            Refusal::Limits => 1,
            Refusal::ShortRow => 2,
            Refusal::BusyRow => 18,
            Refusal::OutOfRange { .. } => 3,
            Refusal::NoSuchTask => 4,
            Refusal::OneTime => 5,
            Refusal::TaskIdle => 15,
            Refusal::TaskSeeks => 16,
            Refusal::TaskHolds => 17,
            Refusal::TooManyOut => 7,
            Refusal::FileLength => 8,
            Refusal::Letters => 9,
            Refusal::Version => 10,
            Refusal::TooManyEvents => 11,
            Refusal::EventCode => 12,
            Refusal::NoEvent => 13,
            Refusal::ShortRoom => 14,
        }
    }
}

impl Stand {
    // A task seeks at another point of the same block.
    fn at(self, point: Point) -> State
        ensures { result ≡ State.Seeking (block self.r self.c point) }
    {
        State::Seeking(Stand { point, ..self })
    }
}

impl Settings {
    // The most own turns that an acquisition takes, for any settings: (N+4)(k-1) long-lived, 4(k-1)
    // one-time.
    pub fn bound(self) -> u32
        ensures { result ≡ bound self }
    {
        let blocks = u32::from(self.k).saturating_sub(1);
        if self.mode == 0 {
            4 * blocks
        } else {
            (u32::from(self.n) + 4) * blocks
        }
    }

    // How many marks a block has: one one-time, one for each task long-lived.
    pub fn width(self) -> u16
        ensures { result ≡ width self }
    {
        if self.mode == 0 { 1 } else { self.n }
    }

    // Where a task comes to (r, c): it holds the edge, and stands at write X on a block. Two numbers and
    // no `Place`, which a caller would build of a stand.
    pub fn arrive(self, r: u8, c: u8) -> State
        requires { r + c + 1 ≤ self.k }
        ensures { result ≡ arrive self r c }
    {
        if r + c + 1 == self.k {
            State::Holding(Place { r, c })
        } else {
            State::Seeking(Stand {
                r,
                c,
                point: Point::WriteX,
            })
        }
    }

    // One place to the right or down.
    fn moved(self, from: Stand, direction: Direction) -> State
        requires { from.r + from.c + 2 ≤ self.k }
        ensures { result ≡ move self from.r from.c direction }
    {
        match direction {
            Direction::Right => self.arrive(from.r, from.c + 1),
            Direction::Down => self.arrive(from.r + 1, from.c),
        }
    }

    // Out of a block: at once one-time, by way of the clear long-lived.
    fn leave(self, from: Stand, direction: Direction) -> State
        requires { from.r + from.c + 2 ≤ self.k }
        ensures { result ≡ leave self from.r from.c direction }
    {
        if self.mode == 0 {
            self.moved(from, direction)
        } else {
            from.at(Point::Clear(direction))
        }
    }

    // The turn of a seeking task, from where it stands, where v is the value that it read.
    fn stand_turned(self, task: TaskId, stand: Stand, v: u32) -> State
        requires { T (stand_in_range self stand) }
        ensures { result ≡ stand_turned self task.0 stand v }
    {
        match stand.point {
            Point::WriteX => stand.at(Point::Scan(0)),
            Point::Scan(_) if v == 1 => self.leave(stand, Direction::Right),
            Point::Scan(h) if h + 1 == self.width() => stand.at(Point::WriteMark),
            Point::Scan(h) => stand.at(Point::Scan(h + 1)),
            Point::WriteMark => stand.at(Point::ReadX),
            Point::ReadX if v == u32::from(task.0) + 1 => State::Holding(Place {
                r: stand.r,
                c: stand.c,
            }),
            Point::ReadX => self.leave(stand, Direction::Down),
            Point::Clear(direction) => self.moved(stand, direction),
        }
    }
}

impl Record {
    // A task's record goes into the turn with the value that the turn's access read, and the next
    // record comes out. A task that does not seek has no turn, and its record stays.
    pub fn turned(self, s: Settings, task: TaskId, v: u32) -> Record
        requires { T (record_in_range s self) }
        ensures { result ≡ next_record s Kind.Turn task.0 self v }
    {
        match self.state {
            State::Seeking(stand) => Record {
                state: s.stand_turned(task, stand, v),
                turns: self.turns + 1,
            },
            State::Idle | State::Holding(_) => self,
        }
    }
}

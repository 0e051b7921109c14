// A supervisor of four channels on a board of k = 2. It serves interrupts in the order in which they
// come, here from a list, keeps for each channel the row of the table that it holds, and tells each
// call on a line. Every desk is `Kept`; that no two channels have one row follows from it and is in the
// contract of `run`, and that an interrupt changes no other channel's row in that of `interrupt`.

#![tactic(auto)]

ghost use Rattle.std.specs.Prelude.{◌≡◌, ◌-◌, ◌<◌, ◌≤◌, ◌↔◌, IfSome, IsSome};
ghost use Rattle.demands.specs.{Answers.told_in, Lent.lent, promises.Notes.noted};
ghost use Rattle.supervisor.specs.Kept.{board, note_of, Kept};

use machine::{Answer, Event, Kind, Name, Record, Refusal, Settings, TaskId, Told};

// The number of standard output.
const STDOUT_FILENO: i32 = 1;

// One of the four channels.
#[derive(Clone, Copy)]
struct Channel {
    id: u16,
    ghost known: { id < 4 },
}

// What the supervisor keeps: the memory that it lends to the calls, for each channel the row that it
// has, by its name, and the table, a total for each name.
#[derive(Drop)]
struct Desk {
    records: [Record; 256],
    xs: [u32; 1],
    marks: [u8; 4],
    rows: [Option<Name>; 4],
    totals: [u32; 3],
    ghost kept: { ∥ Kept (lent records xs marks) rows totals ∥₁ },
}

// Long-lived, four channels, two of them out at once, names by diagonal.
fn board() -> Settings
    ensures { result ≡ board }
{
    Settings {
        mode: 1,
        n: 4,
        k: 2,
        version: 2,
    }
}

// ---- what is told: by `io`, and not by `write!`, which would give each line a result to pass up or drop

fn say(text: &[u8]) {
    io::write_all(STDOUT_FILENO, text);
}

fn number(n: u16) {
    io::print_decimal(STDOUT_FILENO, n as u64);
}

// What a refusal means for the channel. No other one comes: tests 1 to 3 pass in a reached memory, a
// channel is below 4, and the board is long-lived.
fn tell_refused(why: Refusal) {
    match why {
        Refusal::BusyRow => say(b"declines, a channel is out"),
        Refusal::TooManyOut => say(b"waits for a release"),
        Refusal::TaskIdle => say(b"has not asked"),
        Refusal::TaskSeeks => say(b"seeks already"),
        Refusal::TaskHolds => say(b"holds already"),
        _ => say(b"stops"),
    }
}

// What a call that was accepted told.
fn tell_told(told: Told) {
    match told {
        Told::Done => say(b"done"),
        Told::Seeks => say(b"seeks"),
        Told::Holds(name) => {
            say(b"holds ");
            number(name.0);
        }
        Told::Freed(name) => {
            say(b"freed ");
            number(name.0);
        }
    }
}

// What a call answered.
fn tell(answer: Result<Answer, Refusal>) {
    match answer {
        Ok(answer) => tell_told(answer.told),
        Err(why) => tell_refused(why),
    }
    say(b"\n");
}

// What is called, of which channel.
fn tell_call(kind: Kind, channel: Channel) {
    match kind {
        Kind::Ask => say(b"ask "),
        Kind::Turn => say(b"turn "),
        Kind::Release => say(b"free "),
    }
    number(channel.id);
    say(b" ");
}

// What becomes of a channel's energy.
fn tell_energy(channel: Channel, row: Option<Name>) {
    say(b"energy ");
    number(channel.id);
    match row {
        None => say(b" has no row\n"),
        Some(name) => {
            say(b" to row ");
            number(name.0);
            say(b"\n");
        }
    }
}

// ---- what is kept

// What a channel has, from what it is answered and from what it had.
fn row_after(answer: Result<Answer, Refusal>, had: Option<Name>) -> Option<Name>
    ensures { note_of result ≡ noted (told_in answer) (note_of had) }
{
    let Ok(Answer { told, .. }) = answer else {
        return had;
    };
    match told {
        Told::Holds(name) => Some(name),
        Told::Freed(_) => None,
        Told::Done | Told::Seeks => had,
    }
}

impl Channel {
    // The channel of a digit.
    fn from_digit(digit: u8) -> Option<Channel>
        ensures known { IsSome result ↔ ((48 ≤ digit) × (digit ≤ 51)) }
        ensures id { IfSome result (λ channel. channel.id ≡ digit - 48) }
    {
        match digit {
            b'0'..=b'3' => Some(Channel {
                id: u16::from(digit - b'0'),
            }),
            _ => None,
        }
    }
}

impl Desk {
    ghost use Rattle.supervisor.specs.Desk.{RowsApart, OthersKeep, Served};

    // A new supervisor, and what its setup answered: idle records, and setup.
    fn begin() -> (Desk, Result<Answer, Refusal>) {
        let mut records = calls::idle_records();
        let mut xs = [0; 1];
        let mut marks = [0; 4];
        let answer = calls::setup(board(), &mut records, &mut xs, &mut marks);
        let desk = Desk {
            records,
            xs,
            marks,
            rows: [None; 4],
            totals: [0; 3],
        };
        (desk, answer)
    }

    // Setup started again: it declines while a channel is out, and changes nothing then.
    fn set_up(&mut self) -> Result<Answer, Refusal>
        ensures rows { self.new.rows ≡ self.old.rows }
        ensures totals { self.new.totals ≡ self.old.totals }
    {
        calls::setup(board(), &mut self.records, &mut self.xs, &mut self.marks)
    }

    // One call of a channel. Its row follows the answer.
    fn serve(&mut self, kind: Kind, channel: Channel) -> Result<Answer, Refusal>
        ensures others { OthersKeep channel.id self.old self.new }
        ensures served { Served kind channel.id self.old self.new result }
    {
        let event = Event {
            kind,
            task: TaskId(channel.id),
        };
        let answer = calls::step(
            board(),
            &mut self.records,
            &mut self.xs,
            &mut self.marks,
            event,
        );
        let row = &mut self.rows[channel.id as usize];
        *row = row_after(answer, *row);
        answer
    }

    // The channel's row of the table, if it has one, is changed, and no other channel's. That the row
    // is in the table is proved: nothing tests it here.
    fn change_row<F: FnOnce(u32) -> u32 + Drop>(&mut self, channel: Channel, how: F)
        requires { F.IsAlwaysCallable how }
        ensures { OthersKeep channel.id self.old self.new }
    {
        if let Some(name) = self.rows[channel.id as usize] {
            let total = &mut self.totals[name.0 as usize];
            *total = how(*total);
        }
    }

    // ---- the interrupts

    // A call, and its line. A row that it gives to the channel is cleared.
    fn told_serve(&mut self, kind: Kind, channel: Channel)
        ensures { OthersKeep channel.id self.old self.new }
    {
        tell_call(kind, channel);
        let answer = self.serve(kind, channel);
        tell(answer);
        if let Ok(
            Answer {
                told: Told::Holds(_),
                ..
            },
        ) = answer
        {
            self.change_row(channel, |_| 0);
        }
    }

    // The channel's energy, and its line.
    fn told_add(&mut self, channel: Channel)
        ensures { OthersKeep channel.id self.old self.new }
    {
        tell_energy(channel, self.rows[channel.id as usize]);
        self.change_row(channel, |total| total.saturating_add(7));
    }

    // A setup started again, and its line.
    fn told_set_up(&mut self)
        ensures rows { self.new.rows ≡ self.old.rows }
        ensures totals { self.new.totals ≡ self.old.totals }
    {
        say(b"setup ");
        tell(self.set_up());
    }

    // One interrupt: a letter, ask, turn, free, energy or setup, and the channel's digit. Anything else
    // is passed over.
    fn interrupt(&mut self, letter: u8, digit: u8)
        ensures { OthersKeep (digit - 48) self.old self.new }
    {
        let Some(channel) = Channel::from_digit(digit) else {
            return;
        };
        match letter {
            b'a' => self.told_serve(Kind::Ask, channel),
            b't' => self.told_serve(Kind::Turn, channel),
            b'f' => self.told_serve(Kind::Release, channel),
            b'e' => self.told_add(channel),
            b's' => self.told_set_up(),
            _ => {}
        }
    }

    // The interrupts in the order in which they come, two bytes each. Whatever they are, afterwards no
    // two channels have one row of the table, and every row that a channel has is in the table.
    fn run(&mut self, script: &[u8])
        ensures { RowsApart self.new }
    {
        for pair in script.chunks_exact(2) {
            self.interrupt(pair[0], pair[1]);
        }
    }
}

fn main() {
    let (mut desk, answer) = Desk::begin();
    say(b"setup ");
    tell(answer);
    // 0 and 1 seek, 2 waits; 1 writes X last, so 0 goes down to the edge and 1 holds the block; a setup
    // started again declines; both leave, and 2 and 3 do the same
    desk.run(
        b"a0a1a2t0t1t0t0t0t0t0t0t0t1t1t1t1t1t1e0e1e2s0f0a2f1t1a3t2t3t2t2t2t2t2t2t2t3t3t3t3t3t3e2e3e2f2f3",
    );
}

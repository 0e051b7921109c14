// What a call decides: given the settings, what it sees of the row of records, and the rows of X
// numbers and marks, the refusal, or the one access, the answer and the task's next record. Clauses ask
// `permitted s`, as those of `places` do and for the reason that stands there.

#![tactic(auto)]

ghost use Rattle.std.specs.Prelude.{◌≡◌, false, [], T};
ghost use Rattle.machine.specs.Settings.{permitted};
ghost use Rattle.demands.specs.Refusals.{first, row_short, setup_verdict, lent_cases, range_cases, task_cases};
ghost use Rattle.demands.specs.Refusals.{one_time_release, wrong_moment, moment, too_many_out, row_busy, verdict};
ghost use Rattle.demands.specs.{Lent.leaves};
ghost use Rattle.registers.specs.Touching.{rows};
ghost use Rattle.rules.specs.Decision.{Sees, decided, decision, preparation};

use machine::{Answer, Event, Kind, Record, Refusal, Row, Settings, State, TaskId, Told, View};

// The answer of an accepted call, and the task's record to put back.
#[derive(Clone, Copy)]
pub struct Decided {
    pub answer: Answer,
    pub own: Record,
}

// X numbers and marks stay two parameters, as in `calls`; kind and task too, since the definitions take
// them apart.

// Whether a lent row is shorter than needed.
fn row_short(s: Settings, records: usize, xs: &[u32], marks: &[u8]) -> bool
    requires { T (permitted s) }
    ensures { result ≡ row_short s records (rows xs.now marks.now) }
{
    records < usize::from(s.n)
        || xs.len() < places::blocks(s)
        || marks.len() < places::marks_needed(s)
}

// Release in mode 0.
fn one_time_release(s: Settings, kind: Kind) -> bool
    ensures { result ≡ one_time_release s kind }
{
    matches!(kind, Kind::Release) && s.mode == 0
}

// Ask when not idle; turn when not seeking; release when not holding.
fn wrong_moment(kind: Kind, own: Record) -> bool
    ensures { result ≡ wrong_moment kind own.state }
{
    match kind {
        Kind::Ask => !records::is_idle(own),
        Kind::Turn => !records::is_seeking(own),
        Kind::Release => !records::is_holding(own),
    }
}

// Why the moment is wrong, by what the task is at.
fn moment(own: Record) -> Refusal
    ensures { result ≡ moment own.state }
{
    match own.state {
        State::Idle => Refusal::TaskIdle,
        State::Seeking(_) => Refusal::TaskSeeks,
        State::Holding(_) => Refusal::TaskHolds,
    }
}

// Ask when k or more tasks are out.
fn too_many_out(s: Settings, kind: Kind, out: usize) -> bool
    ensures { result ≡ too_many_out s kind out }
{
    matches!(kind, Kind::Ask) && usize::from(s.k) <= out
}

// What the tests of what is lent say: 1, then 2.
fn lent_verdict(s: Settings, seen: View, xs: &[u32], marks: &[u8]) -> Result<(), Refusal>
    ensures { result ≡ first (lent_cases s seen (rows xs.now marks.now) []) }
{
    if !places::permitted(s) {
        return Err(Refusal::Limits);
    }
    if row_short(s, seen.length, xs, marks) {
        return Err(Refusal::ShortRow);
    }
    Ok(())
}

// What 3 says: records first, then X, then marks.
fn range_verdict(s: Settings, seen: View, xs: &[u32], marks: &[u8]) -> Result<(), Refusal>
    requires { T (permitted s) × (row_short s seen.length (rows xs.now marks.now) ≡ false) }
    ensures { result ≡ first (range_cases s seen (rows xs.now marks.now) []) }
{
    let index = seen.bad;
    if index < usize::from(s.n) {
        let row = Row::Records;
        return Err(Refusal::OutOfRange { row, index });
    }
    let index = registers::bad_x(s, xs);
    if index < places::blocks(s) {
        let row = Row::Xs;
        return Err(Refusal::OutOfRange { row, index });
    }
    let index = registers::bad_mark(s, marks);
    if index < places::marks_needed(s) {
        let row = Row::Marks;
        return Err(Refusal::OutOfRange { row, index });
    }
    Ok(())
}

// What 4, 5, 15 to 17 and 7 say.
fn task_verdict(s: Settings, kind: Kind, seen: View, task: TaskId) -> Result<(), Refusal>
    ensures { result ≡ first (task_cases s kind task.0 seen) }
{
    if s.n <= task.0 {
        return Err(Refusal::NoSuchTask);
    }
    if one_time_release(s, kind) {
        return Err(Refusal::OneTime);
    }
    if wrong_moment(kind, seen.own) {
        return Err(moment(seen.own));
    }
    if too_many_out(s, kind, seen.out) {
        return Err(Refusal::TooManyOut);
    }
    Ok(())
}

// What the tests of ask, turn and release say: 1 to 5, 15 to 17, 7.
fn verdict(
    s: Settings,
    kind: Kind,
    seen: View,
    xs: &[u32],
    marks: &[u8],
    task: TaskId,
) -> Result<(), Refusal>
    ensures { result ≡ verdict s kind task.0 seen (rows xs.now marks.now) }
{
    lent_verdict(s, seen, xs, marks)?;
    range_verdict(s, seen, xs, marks)?;
    task_verdict(s, kind, seen, task)
}

// A record of the N is other than idle: its task is out, or it is out of range.
fn row_busy(s: Settings, seen: View) -> bool
    ensures { result ≡ row_busy s seen }
{
    0 < seen.out || seen.bad < usize::from(s.n)
}

// What the tests of setup say: 1, 2, 18.
fn setup_verdict(s: Settings, seen: View, xs: &[u32], marks: &[u8]) -> Result<(), Refusal>
    ensures { result ≡ setup_verdict s seen (rows xs.now marks.now) }
{
    lent_verdict(s, seen, xs, marks)?;
    if row_busy(s, seen) {
        return Err(Refusal::BusyRow);
    }
    Ok(())
}

// Setup: the needed X numbers and marks become 0; a refusal changes nothing.
pub fn setup(s: Settings, seen: View, xs: &mut [u32], marks: &mut [u8]) -> Result<Answer, Refusal>
    ensures { leaves result (rows xs.new marks.new) ≡ preparation s seen (rows xs.old marks.old) }
{
    setup_verdict(s, seen, xs, marks)?;
    registers::clear(xs, places::blocks(s));
    registers::clear(marks, places::marks_needed(s));
    Ok(Answer {
        told: Told::Done,
        shown: None,
    })
}

// Ask, turn or release, by the event's kind: the one access, and the next record from the value read;
// a refusal changes nothing.
pub fn decide(
    s: Settings,
    seen: View,
    xs: &mut [u32],
    marks: &mut [u8],
    event: Event,
) -> Result<Decided, Refusal>
    requires { Sees s event.task.0 seen }
    ensures { decided result (rows xs.new marks.new) ≡ decision s event.kind event.task.0 seen (rows xs.old marks.old) }
{
    let Event { kind, task } = event;
    let before = seen.own;
    verdict(s, kind, seen, xs, marks, task)?;
    let access = records::access(s, kind, task, before);
    let v = registers::touch(s, access, xs, marks);
    let own = records::next(s, kind, task, before, v);
    let answer = Answer {
        told: records::told(s, kind, before, own),
        shown: accesses::shown(access, v),
    };
    Ok(Decided { answer, own })
}

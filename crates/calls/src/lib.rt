// The four calls of the grid on lent rows: setup, ask, turn and release, the last three also by an
// event. A call looks at the records, decides by `rules`, and puts back what was decided. It takes
// any settings, any identifier, and rows of any length and contents.

#![tactic(auto)]

ghost use Rattle.demands.specs.{Calls.{call, setup, ask, turn, release}, Lent.{lent, leaves}};
ghost use Rattle.std.specs.Prelude.{◌≡◌, replicate};
ghost use Rattle.machine.specs.Records.{idle};
ghost use Rattle.calls.specs.Made.{outcome_of};

use machine::{Answer, Event, Kind, Record, Refusal, Settings, State, TaskId};
use rules::Decided;

// What is called: setup, or ask, turn or release of one task. No `Option`: setup is a call too.
#[derive(Clone, Copy)]
pub enum Call {
    Setup,
    Of(Event),
}

// The records after a call that took them by value, and its answer or refusal.
#[derive(Clone, Copy)]
pub struct Made {
    pub records: [Record; 256],
    pub answer: Result<Answer, Refusal>,
}

// The rows stay three parameters: a struct of lent rows would need clauses that it lends the same rows
// afterwards, as `Page` of `report` has them. Ask, turn and release, calls of their own in 01, are `step`.

// Setup makes all X 0 and all marks 0, where the N records are idle; it declines over a busy row.
pub fn setup(
    s: Settings,
    records: &mut [Record],
    xs: &mut [u32],
    marks: &mut [u8],
) -> Result<Answer, Refusal>
    ensures { leaves result (lent records.new xs.new marks.new) ≡ setup s (lent records.old xs.old marks.old) }
{
    let seen = rows::look(s, records, TaskId(0));
    rules::setup(s, seen, xs, marks)
}

// A call of one task, by its event: ask, turn or release.
pub fn step(
    s: Settings,
    records: &mut [Record],
    xs: &mut [u32],
    marks: &mut [u8],
    event: Event,
) -> Result<Answer, Refusal>
    ensures { leaves result (lent records.new xs.new marks.new) ≡ call s event (lent records.old xs.old marks.old) }
{
    let seen = rows::look(s, records, event.task);
    let Decided { answer, own } = rules::decide(s, seen, xs, marks, event)?;
    rows::put(records, usize::from(event.task.0), own);
    Ok(answer)
}

// Ask, for an idle task: it seeks at (0, 0), or holds it where k is 1.
pub fn ask(
    s: Settings,
    records: &mut [Record],
    xs: &mut [u32],
    marks: &mut [u8],
    task: TaskId,
) -> Result<Answer, Refusal>
    ensures { leaves result (lent records.new xs.new marks.new) ≡ call s (ask task.0) (lent records.old xs.old marks.old) }
{
    let kind = Kind::Ask;
    step(s, records, xs, marks, Event { kind, task })
}

// Turn, for a seeking task: exactly one access.
pub fn turn(
    s: Settings,
    records: &mut [Record],
    xs: &mut [u32],
    marks: &mut [u8],
    task: TaskId,
) -> Result<Answer, Refusal>
    ensures { leaves result (lent records.new xs.new marks.new) ≡ call s (turn task.0) (lent records.old xs.old marks.old) }
{
    let kind = Kind::Turn;
    step(s, records, xs, marks, Event { kind, task })
}

// Release, for a holding task of a long-lived grid: its name is free again.
pub fn release(
    s: Settings,
    records: &mut [Record],
    xs: &mut [u32],
    marks: &mut [u8],
    task: TaskId,
) -> Result<Answer, Refusal>
    ensures { leaves result (lent records.new xs.new marks.new) ≡ call s (release task.0) (lent records.old xs.old marks.old) }
{
    let kind = Kind::Release;
    step(s, records, xs, marks, Event { kind, task })
}

// ---- the same for callers that keep 256 records by value: lent to the calls above, and given back.
// They stay since docs/USING.md names each, and each has edits of its own

// Records for a board of any size, all idle: what a new supervisor begins with.
pub fn idle_records() -> [Record; 256]
    ensures { result ≡ replicate 256 idle }
{
    [Record {
        state: State::Idle,
        turns: 0,
    }; 256]
}

// Setup.
pub fn setup_of(s: Settings, mut records: [Record; 256], xs: &mut [u32], marks: &mut [u8]) -> Made
    ensures { leaves result.answer (lent result.records xs.new marks.new) ≡ setup s (lent records xs.old marks.old) }
{
    let answer = setup(s, &mut records, xs, marks);
    Made { records, answer }
}

// A call of one task, by its event.
pub fn step_of(
    s: Settings,
    mut records: [Record; 256],
    xs: &mut [u32],
    marks: &mut [u8],
    event: Event,
) -> Made
    ensures { leaves result.answer (lent result.records xs.new marks.new) ≡ call s event (lent records xs.old marks.old) }
{
    let answer = step(s, &mut records, xs, marks, event);
    Made { records, answer }
}

// Ask.
pub fn ask_of(
    s: Settings,
    records: [Record; 256],
    xs: &mut [u32],
    marks: &mut [u8],
    task: TaskId,
) -> Made
    ensures { leaves result.answer (lent result.records xs.new marks.new) ≡ call s (ask task.0) (lent records xs.old marks.old) }
{
    let kind = Kind::Ask;
    step_of(s, records, xs, marks, Event { kind, task })
}

// Turn.
pub fn turn_of(
    s: Settings,
    records: [Record; 256],
    xs: &mut [u32],
    marks: &mut [u8],
    task: TaskId,
) -> Made
    ensures { leaves result.answer (lent result.records xs.new marks.new) ≡ call s (turn task.0) (lent records xs.old marks.old) }
{
    let kind = Kind::Turn;
    step_of(s, records, xs, marks, Event { kind, task })
}

// Release.
pub fn release_of(
    s: Settings,
    records: [Record; 256],
    xs: &mut [u32],
    marks: &mut [u8],
    task: TaskId,
) -> Made
    ensures { leaves result.answer (lent result.records xs.new marks.new) ≡ call s (release task.0) (lent records xs.old marks.old) }
{
    let kind = Kind::Release;
    step_of(s, records, xs, marks, Event { kind, task })
}

// Setup, or a call of one task, by what is called.
pub fn make(
    s: Settings,
    call: Call,
    records: [Record; 256],
    xs: &mut [u32],
    marks: &mut [u8],
) -> Made
    ensures { leaves result.answer (lent result.records xs.new marks.new) ≡ outcome_of s call (lent records xs.old marks.old) }
{
    match call {
        Call::Setup => setup_of(s, records, xs, marks),
        Call::Of(event) => step_of(s, records, xs, marks, event),
    }
}

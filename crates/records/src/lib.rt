// One task's record, by value: where the task stands, which register its next call touches, the
// record after the call, and what the call tells. Clauses ask `permitted s`, as those of `places` do and
// for the reason that stands there.

#![tactic(auto)]

ghost use Rattle.std.specs.Prelude.{◌≡◌, T};
ghost use Rattle.machine.specs.Settings.{permitted};
ghost use Rattle.machine.specs.Records.{state_in_range, record_in_range, is_idle, is_seeking, is_holding};
ghost use Rattle.machine.specs.Turn.{access, next_record};
ghost use Rattle.demands.specs.Calls.{told_of};
ghost use Rattle.records.specs.Held.{held_name};

use accesses::{release_access, turn_access};
use machine::{Access, Kind, Name, Record, Settings, State, TaskId, Told};
use places::name_at;

// Three tests of a line each, and no one with the state as a parameter: docs/CONTRACTS.md names each.

// Whether the task is idle.
pub fn is_idle(this: Record) -> bool
    ensures { result ≡ is_idle this.state }
{
    matches!(this.state, State::Idle)
}

// Whether the task seeks.
pub fn is_seeking(this: Record) -> bool
    ensures { result ≡ is_seeking this.state }
{
    matches!(this.state, State::Seeking(_))
}

// Whether the task holds a name.
pub fn is_holding(this: Record) -> bool
    ensures { result ≡ is_holding this.state }
{
    matches!(this.state, State::Holding(_))
}

// The register that a call touches: none for an ask. Kind and task are two parameters, as the
// definitions have them.
pub fn access(s: Settings, kind: Kind, task: TaskId, this: Record) -> Option<Access>
    requires { T (permitted s) × T (state_in_range s this.state) }
    ensures { result ≡ access s kind task.0 this.state }
{
    match kind {
        Kind::Ask => None,
        Kind::Turn => turn_access(s, task, this),
        Kind::Release => release_access(s, task, this),
    }
}

// The record after an accepted call, where v is the value that its access read.
pub fn next(s: Settings, kind: Kind, task: TaskId, this: Record, v: u32) -> Record
    requires { T (permitted s) × T (record_in_range s this) }
    ensures { result ≡ next_record s kind task.0 this v }
{
    match kind {
        Kind::Ask => Record {
            state: s.arrive(0, 0),
            turns: 0,
        },
        Kind::Turn => this.turned(s, task, v),
        Kind::Release => Record {
            state: State::Idle,
            turns: 0,
        },
    }
}

// The name of the place that the task holds.
fn held(s: Settings, this: Record) -> Option<Name>
    requires { T (permitted s) × T (state_in_range s this.state) }
    ensures { result ≡ held_name s this.state }
{
    match this.state {
        State::Holding(place) => Some(name_at(s, place)),
        State::Idle | State::Seeking(_) => None,
    }
}

// What an accepted call tells, from the record before it and the record after it: "seeks", or "holds"
// with the name; of a release the freed name.
pub fn told(s: Settings, kind: Kind, before: Record, after: Record) -> Told
    requires { T (permitted s) × T (state_in_range s before.state) × T (state_in_range s after.state) }
    ensures { result ≡ told_of s kind before.state after.state }
{
    match kind {
        Kind::Ask | Kind::Turn => held(s, after).map_or(Told::Seeks, Told::Holds),
        Kind::Release => held(s, before).map_or(Told::Seeks, Told::Freed),
    }
}

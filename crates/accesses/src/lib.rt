// The one register that a call of one task's record touches, and what an answer shows of it. Of
// what is above this crate only the test program `memories` matches on points. Clauses ask `permitted
// s`, as those of `places` do and for the reason that stands there.

#![tactic(auto)]

ghost use Rattle.std.specs.Prelude.{◌≡◌, Some, T};
ghost use Rattle.machine.specs.Settings.{permitted, own};
ghost use Rattle.machine.specs.Records.{stand_in_range, place_in_range, state_in_range};
ghost use Rattle.machine.specs.Grid.{touch};
ghost use Rattle.machine.specs.Turn.{stand_access, place_access, turn_access, release_access, shown_by};

use machine::{
    Access, Letter, Op, Place, Point, Record, Register, Settings, Shown, Stand, State, TaskId,
};
use places::{block_number, own};

// The task's own mark in a block becomes `value`.
fn own_mark(s: Settings, task: TaskId, block: u16, value: u32) -> Access
    ensures { Some result ≡ touch (Register.Mark block (own s task.0)) (Op.Write value) }
{
    Access {
        register: Register::Mark {
            block,
            place: own(s, task),
        },
        op: Op::Write(value),
    }
}

// The register that a turn touches, from where the task stands.
fn stand_access(s: Settings, task: TaskId, stand: Stand) -> Access
    requires { T (permitted s) × T (stand_in_range s stand) }
    ensures { Some result ≡ stand_access s task.0 stand }
{
    let block = block_number(s, stand.r, stand.c);
    match stand.point {
        Point::WriteX => Access {
            register: Register::X { block },
            op: Op::Write(u32::from(task.0) + 1),
        },
        Point::Scan(place) => Access {
            register: Register::Mark { block, place },
            op: Op::Read,
        },
        Point::WriteMark => own_mark(s, task, block, 1),
        Point::ReadX => Access {
            register: Register::X { block },
            op: Op::Read,
        },
        Point::Clear(_) => own_mark(s, task, block, 0),
    }
}

// The register that is touched where a place is given up: the own mark of a block, none on the edge.
fn place_access(s: Settings, task: TaskId, place: Place) -> Option<Access>
    requires { T (permitted s) × T (place_in_range s place) }
    ensures { result ≡ place_access s task.0 place }
{
    if place.r + place.c + 2 <= s.k {
        Some(own_mark(s, task, block_number(s, place.r, place.c), 0))
    } else {
        None
    }
}

// The register that a turn touches: none where the task does not seek.
pub fn turn_access(s: Settings, task: TaskId, this: Record) -> Option<Access>
    requires { T (permitted s) × T (state_in_range s this.state) }
    ensures { result ≡ turn_access s task.0 this.state }
{
    match this.state {
        State::Seeking(stand) => Some(stand_access(s, task, stand)),
        State::Idle | State::Holding(_) => None,
    }
}

// The register that a release touches: none where the task does not hold.
pub fn release_access(s: Settings, task: TaskId, this: Record) -> Option<Access>
    requires { T (permitted s) × T (state_in_range s this.state) }
    ensures { result ≡ release_access s task.0 this.state }
{
    match this.state {
        State::Holding(place) => place_access(s, task, place),
        State::Idle | State::Seeking(_) => None,
    }
}

// What an answer shows of the access, where v is the value read: that value, or the value written.
pub fn shown(access: Option<Access>, v: u32) -> Option<Shown>
    ensures { result ≡ shown_by access v }
{
    let Access { register, op } = access?;
    let (letter, value) = match op {
        Op::Read => (Letter::R, v),
        Op::Write(value) => (Letter::W, value),
    };
    Some(Shown {
        letter,
        register,
        value,
    })
}

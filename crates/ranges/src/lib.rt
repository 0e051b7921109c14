// What every call tests of each record in the row: whether it is in range, and whether its task is
// out.

#![tactic(auto)]

ghost use Rattle.std.specs.Prelude.{◌≡◌};
ghost use Rattle.machine.specs.Records.{point_in_range, stand_in_range, place_in_range, record_in_range, is_out};

use machine::{Place, Point, Record, Settings, Stand, State};

// Whether a seeking task may stand at the point: a scan at one of the block's marks, a clear
// long-lived only.
fn point_in_range(s: Settings, point: Point) -> bool
    ensures { result ≡ point_in_range s point }
{
    match point {
        Point::WriteX | Point::WriteMark | Point::ReadX => true,
        Point::Scan(h) => h < s.width(),
        Point::Clear(_) => s.mode == 1,
    }
}

// Whether a task may seek there: on a block.
fn stand_in_range(s: Settings, stand: Stand) -> bool
    ensures { result ≡ stand_in_range s stand }
{
    stand.r as usize + stand.c as usize + 2 <= s.k as usize && point_in_range(s, stand.point)
}

// Whether a task may hold it: within the triangle.
fn place_in_range(s: Settings, place: Place) -> bool
    ensures { result ≡ place_in_range s place }
{
    place.r as usize + place.c as usize + 1 <= s.k as usize
}

// Whether the record is in range: where the task may be, with fewer turns than the bound if it seeks,
// at most so many if it holds, none if it is idle.
pub fn in_range(s: Settings, this: Record) -> bool
    ensures { result ≡ record_in_range s this }
{
    match this.state {
        State::Idle => this.turns == 0,
        State::Seeking(stand) => stand_in_range(s, stand) && this.turns < s.bound(),
        State::Holding(place) => place_in_range(s, place) && this.turns <= s.bound(),
    }
}

// Whether the task is out: it seeks or holds.
pub fn is_out(this: Record) -> bool
    ensures { result ≡ is_out this.state }
{
    matches!(this.state, State::Seeking(_) | State::Holding(_))
}

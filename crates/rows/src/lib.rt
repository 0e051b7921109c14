// The lent row of records, reached by few thin functions: the length, one record out, one back, and
// what a call sees. What is decided of a record is decided by value.

#![tactic(auto)]

ghost use Rattle.std.specs.Prelude.{◌≡◌, length, get_or, set};
ghost use Rattle.demands.specs.Memory.{view_of};

use machine::{Record, Settings, State, TaskId, View};
use ranges::{in_range, is_out};

// The record of a task that is not out.
const IDLE: Record = Record {
    state: State::Idle,
    turns: 0,
};

// How many records there are.
pub fn count(row: &[Record]) -> usize
    ensures { result ≡ length row.now }
{
    row.len()
}

// The record at i, and `otherwise` past the end.
pub fn take(row: &[Record], i: usize, otherwise: Record) -> Record
    ensures { result ≡ get_or row.now i otherwise }
{
    row.get(i).copied().unwrap_or(otherwise)
}

// The record at i becomes r; past the end nothing changes.
pub fn put(row: &mut [Record], i: usize, r: Record)
    ensures { row.new ≡ set row.old i r }
{
    // tried: `if let Some(place) = row.get_mut(i)`, from which a proof learns the row's length alone
    if i < row.len() {
        row[i] = r;
    }
}

// What a call of the task sees of the row, in one pass over the N records and not by two chains, by
// number: past the end of a row that is too short there are idle ones.
#[tactic(auto, using(crate::proofs::Passed::passed), unfolding(counting::specs::Counting::first_bad, counting::specs::Counting::count))]
pub fn look(s: Settings, row: &[Record], task: TaskId) -> View
    ensures { result ≡ view_of s row.now task.0 }
{
    let mut bad = 0;
    let mut out = 0;
    for i in 0..s.n as usize {
        let this = take(row, i, IDLE);
        if bad == i && in_range(s, this) {
            bad += 1;
        }
        if is_out(this) {
            out += 1;
        }
    }
    View {
        length: count(row),
        bad,
        out,
        own: take(row, task.0 as usize, IDLE),
    }
}

// Numbers of the grid: the limits of the settings, the counts of blocks, names and marks, and the
// numbers of places. The formula of the triangle by rows is said once, in `place_number`.

#![tactic(auto)]

ghost use Rattle.std.specs.Prelude.{◌≡◌, ◌+◌, ◌-◌, ◌≤◌, ◌<◌, T};
ghost use Rattle.machine.specs.Settings.{known_version, permitted, width, own};
ghost use Rattle.grid.specs.Triangle.{half, place_number, diagonal_number};
ghost use Rattle.machine.specs.Places.{blocks, block_number, names};
ghost use Rattle.demands.specs.{Memory.{marks_needed, mark_index}, Calls.name_at};
ghost use Rattle.machine.specs.Records.{place_in_range};

use machine::{Name, Place, Settings, TaskId};

// Whether there is such a version.
pub fn known_version(version: u16) -> bool
    ensures { result ≡ known_version version }
{
    matches!(version, 1 | 2)
}

// Whether the settings are within the limits. Clauses ask for it, and no function takes a type of such
// settings: docs/CONTRACTS.md names each of them, and that type would be narrower.
pub fn permitted(s: Settings) -> bool
    ensures { result ≡ permitted s }
{
    matches!(s.mode, 0 | 1)
        && matches!(s.n, 1..=256)
        && matches!(s.k, 1..=16)
        && s.k as u16 <= s.n
        && known_version(s.version)
}

// The half products r(r-1)/2 of r from 0 to 16.
const HALVES: [u8; 17] = [
    0, 0, 1, 3, 6, 10, 15, 21, 28, 36, 45, 55, 66, 78, 91, 105, 120,
];

// The half product r(r-1)/2, from the table.
pub fn half(r: usize) -> usize
    requires { r ≤ 16 }
    ensures { result ≡ half r }
{
    HALVES[r] as usize
}

// How many blocks the grid has.
pub fn blocks(s: Settings) -> usize
    requires { T (permitted s) }
    ensures { result ≡ blocks s }
{
    half(s.k as usize)
}

// How many names the grid has: one for each block, and one for each of the k places on the edge.
#[tactic(auto, using(crate::proofs::Counts::blocks_most, machine::proofs::bridge::Numbering::names_half))]
pub fn names(s: Settings) -> usize
    requires { T (permitted s) }
    ensures { result ≡ names s }
{
    blocks(s) + s.k as usize
}

// How many marks the grid needs, all blocks together.
#[tactic(auto, using(crate::proofs::Counts::counts))]
pub fn marks_needed(s: Settings) -> usize
    requires { T (permitted s) }
    ensures { result ≡ marks_needed s }
{
    blocks(s) * s.width() as usize
}

// The number of a place in the triangle of a side, counted row after row.
#[tactic(auto, using(grid::proofs::Triangle::half_below), unfolding(grid::specs::Triangle::place_number))]
fn place_number(side: u8, place: Place) -> u16
    requires { (side ≤ 16) × (place.r + place.c ≤ side) }
    ensures { result ≡ place_number side place.r place.c }
{
    let r = place.r as usize;
    (r * side as usize - half(r) + place.c as usize) as u16
}

// The number of the block at (r, c), which a stand has as a place has: the blocks are the triangle of
// side k - 1.
pub fn block_number(s: Settings, r: u8, c: u8) -> u16
    requires { T (permitted s) × (r + c + 2 ≤ s.k) }
    ensures { result ≡ block_number s r c }
{
    place_number(s.k - 1, Place { r, c })
}

// The number of a place, counted diagonal after diagonal.
#[tactic(auto, using(grid::proofs::Triangle::half_most), unfolding(grid::specs::Triangle::diagonal_number))]
fn diagonal_number(place: Place) -> u16
    requires { place.r + place.c + 1 ≤ 16 }
    ensures { result ≡ diagonal_number place.r place.c }
{
    let r = place.r as usize;
    (half(r + place.c as usize + 1) + r) as u16
}

// The name of a place: the places that can be held are the triangle of side k, numbered by rows in
// version 1 and by diagonals in version 2.
pub fn name_at(s: Settings, place: Place) -> Name
    requires { T (permitted s) × T (place_in_range s place) }
    ensures { result ≡ name_at s place }
{
    if s.version == 1 {
        Name(place_number(s.k, place))
    } else {
        Name(diagonal_number(place))
    }
}

// Where a mark of a block stands in the row of marks, block after block.
pub fn mark_index(s: Settings, block: u16, place: u16) -> usize
    requires { T (permitted s) × ((block < blocks s) × (place < width s)) }
    ensures { result ≡ mark_index s block place }
{
    block as usize * s.width() as usize + place as usize
}

// Which of its block's marks is the task's own: the one mark one-time, its own long-lived.
pub fn own(s: Settings, task: TaskId) -> u16
    ensures { result ≡ own s task.0 }
{
    if s.mode == 0 { 0 } else { task.0 }
}

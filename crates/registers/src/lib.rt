// The rows of registers: X numbers and marks. The first value out of range of each, the one access of
// a call, and the clearing of a setup. Clauses ask `permitted s`, as those of `places` do and for the
// reason that stands there.

#![tactic(auto)]

ghost use Rattle.std.specs.Prelude.{◌≡◌, ℕ, ◌≤◌, ◌<◌, ◌^◌, T, length, slice_index, EachIndex, refl};
ghost use Rattle.machine.specs.Settings.{permitted};
ghost use Rattle.machine.specs.Places.{blocks};
ghost use Rattle.demands.specs.Memory.{marks_needed, bad_x, bad_mark, fill};
ghost use Rattle.demands.specs.promises.OneAccess.{RegisterNeeded, Writable};
ghost use Rattle.registers.specs.Touching.{rows, OnRegister, Below, touched, touching};

use machine::{Access, Op, Register, Settings};

// ---- what is out of range

// The index of the first needed X number that is out of range; their count where none is, and no
// `None`, as the definition has it with which `range_cases` compares.
pub fn bad_x(s: Settings, xs: &[u32]) -> usize
    requires { T (permitted s) × (blocks s ≤ length xs.now) }
    ensures { result ≡ bad_x s xs.now }
{
    let blocks = places::blocks(s);
    let most = s.n as u32;
    xs[..blocks]
        .iter()
        .position(|x| *x > most)
        .unwrap_or(blocks)
}

// The largest mark; 0 where there is none. It looks at all of them, with no way out, and so at full
// speed.
fn largest_mark(marks: &[u8]) -> u8
    ensures { EachIndex marks.now (λ i. slice_index marks.now i ≤ result) }
{
    marks.iter().copied().max().unwrap_or(0)
}

// The index of the first mark that is out of range, searched block by block and place by place, in the
// loops and with the label that 01 names; the count of marks where none is.
fn search_marks(s: Settings, marks: &[u8]) -> usize
    requires { T (permitted s) × (marks_needed s ≤ length marks.now) }
    ensures { result ≡ bad_mark s marks.now }
{
    let blocks = places::blocks(s);
    let width = s.width() as usize;
    'search: {
        for block in 0..blocks {
            for place in 0..width {
                let i = block * width + place;
                if marks[i] > 1 {
                    break 'search i;
                }
            }
        }
        blocks * width
    }
}

// The index of the first needed mark that is out of range; their count where none is, as above. The
// search is skipped where no mark is above 1.
#[tactic(auto, using(crate::proofs::Finding::bad_mark_in))]
pub fn bad_mark(s: Settings, marks: &[u8]) -> usize
    requires { T (permitted s) × (marks_needed s ≤ length marks.now) }
    ensures { result ≡ bad_mark s marks.now }
{
    let needed = places::marks_needed(s);
    if largest_mark(&marks[..needed]) <= 1 {
        needed
    } else {
        search_marks(s, marks)
    }
}

// ---- one access

// What a register has: an X number in 32 bits, or a mark in 8.
pub trait Content: Copy {
    // Its number.
    ghost number: { Self → ℕ };

    // The limit that a number stays below, to be written; and what then has that number.
    ghost limit: { ℕ };

    ghost having: { ℕ → Self };

    // What a setup leaves.
    ghost CLEAR: { Self };

    const CLEAR: Self;

    fn number(self) -> u32
        ensures { result ≡ number self };

    fn of(value: u32) -> Self
        requires { value < limit }
        ensures { result ≡ having value };

    // What is written is what is read.
    ghost reads_back: { (n : ℕ) → n < limit → number (having n) ≡ n };

    // What a setup leaves is 0.
    ghost is_zero: { number CLEAR ≡ 0 };
}

impl Content for u32 {
    ghost number = { λ x. x };

    ghost limit = { 2 ^ 32 };

    ghost having = { λ n. n };

    ghost reads_back = { λ n l. refl };

    ghost CLEAR = { 0 }; // names no task

    ghost is_zero = { refl };

    const CLEAR: u32 = 0;

    fn number(self) -> u32 {
        self
    }

    fn of(value: u32) -> u32 {
        value
    }
}

impl Content for u8 {
    ghost number = { λ mark. mark };

    ghost limit = { 2 ^ 8 };

    ghost having = { λ n. n };

    ghost reads_back = { λ n l. refl };

    ghost CLEAR = { 0 }; // not set

    ghost is_zero = { refl };

    const CLEAR: u8 = 0;

    fn number(self) -> u32 {
        u32::from(self)
    }

    fn of(value: u32) -> u8 {
        value as u8
    }
}

// An operation on one register: what it sees.
fn operate<C: Content>(register: &mut C, op: Op) -> u32
    requires { Below C.limit op }
    ensures { OnRegister op (C.number register.old) result (C.number register.new) }
{
    match op {
        Op::Read => register.number(),
        Op::Write(value) => {
            *register = C::of(value);
            0
        }
    }
}

// Makes the one access, and returns the value read; 0 and no `None` where nothing is read, as the
// definition `value` has it.
pub fn touch(s: Settings, access: Option<Access>, xs: &mut [u32], marks: &mut [u8]) -> u32
    requires { T (permitted s) × RegisterNeeded s access × Writable s access × (blocks s ≤ length xs.old) × (marks_needed s ≤ length marks.old) }
    ensures { touched result (rows xs.new marks.new) ≡ touching s access (rows xs.old marks.old) }
{
    let Some(Access { register, op }) = access else {
        return 0;
    };
    match register {
        Register::X { block } => operate(&mut xs[block as usize], op),
        Register::Mark { block, place } => {
            operate(&mut marks[places::mark_index(s, block, place)], op)
        }
    }
}

// ---- setup

// The first n registers of a row become clear: 0.
#[tactic(auto, using(crate::proofs::Filling::fill_more))]
pub fn clear<C: Content>(row: &mut [C], n: usize)
    requires { n ≤ length row.old }
    ensures { row.new ≡ fill n C.CLEAR row.old }
{
    for register in &mut row[..n] {
        *register = C::CLEAR;
    }
}

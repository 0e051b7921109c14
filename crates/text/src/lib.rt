// Bytes of text into lent room: a fixed text, and a number in decimal. Room and index are two
// parameters, of both of which `Puts` speaks; `Page` of `report` holds them together.

#![tactic(auto)]

ghost use Rattle.std.specs.Prelude.{◌≡◌, ◌+◌, ◌≤◌, length};
ghost use Rattle.text.specs.Decimal.{decimal};
ghost use Rattle.text.specs.Put.{Puts};

// Copies `text` into `out` from index `at` on, and returns the index past it.
#[tactic(auto, using(crate::proofs::Putting::put_part))]
pub fn copy(out: &mut [u8], at: usize, text: &[u8]) -> usize
    requires { at + length text.now ≤ length out.old }
    ensures { Puts out.old at text.now result out.new }
{
    let past = at + text.len();
    out[at..past].copy_from_slice(text);
    past
}

// Writes `n` in decimal into `out` from index `at` on, and returns the index past it. By hand, since
// what `write!` gives may be an `Err` by its clauses; see `Page` of `report`.
pub fn number(out: &mut [u8], at: usize, n: u32) -> usize
    requires { at + length (decimal n) ≤ length out.old }
    ensures { Puts out.old at (decimal n) result out.new }
{
    if n < 10 {
        out[at] = b'0' + n as u8;
        return at + 1;
    }
    let next = number(out, at, n / 10);
    out[next] = b'0' + (n % 10) as u8;
    next + 1
}

// The program `gridlist`: prints the listing of the schedule file on standard input.

#![tactic(auto)]

ghost use Rattle.std.specs.Prelude.{◌≡◌, List, ℕ, ◌≤◌, ◌<◌, length, take};
ghost use Rattle.file.specs.File.{most_events, file_length};
ghost use Rattle.printed.specs.Listing.{listing};

use std::io::{self, Read, Write};

// The length of the longest listing: 50 bytes, and 56 for each of 16,384 events.
const LONGEST: usize = 917554;

// Reads `from`, which is standard input, to its end, or as far as the buffer holds. Each read asks for all
// that is left of the buffer, and `io::copy`, which asks for 8,192 bytes, would cut a longer packet.
fn read_input(mut from: impl Read + Drop, input: &mut [u8]) -> io::Result<usize> {
    let mut n = 0;
    while n < input.len() {
        let more = from.read(&mut input[n..])?;
        if more == 0 {
            break;
        }
        n += more;
    }
    Ok(n)
}

// Room for the longest listing.
fn longest() -> [u8; LONGEST]
    ensures { LONGEST ≡ length result }
{
    [0; LONGEST]
}

// The listing of the first n bytes of the buffer, as the part of the room that its text fills. Where
// these are as much of an input as the buffer holds, it is the listing of all of that input, since
// the buffer is longer than any file.
// A buffer and a count beside it, and no slice of what was read: the edit `buffer_listed` is refused here.
fn listing_of<'a>(input: &[u8], n: usize, room: &'a mut [u8]) -> &'a mut [u8]
    requires most_events_in_bounds { file_length most_events < length input.now }
    requires in_bounds { LONGEST ≤ length room.old }
    ensures text { result.now ≡ listing (take n input.now) }
    ensures all { (all : List ℕ) → take n input.now ≡ take (length input.now) all → result.now ≡ listing all }
{
    let length = listing::list(&input[..n.min(input.len())], room).unwrap_or(0);
    &mut room[..length]
}

fn main(rt: HostRuntime) {
    let mut input = [0u8; 65536];
    let Ok(n) = read_input(rt.stdin(), &mut input) else {
        let _ = eprintln!(rt; "gridlist: standard input cannot be read");
        return;
    };
    let mut room = longest();
    let text = listing_of(&input, n, &mut room);
    if rt.stdout().write_all(text).is_err() {
        let _ = eprintln!(rt; "gridlist: standard output cannot be written");
    }
}

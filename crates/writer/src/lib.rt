// The bytes of a schedule, put into lent room: the header, and the events after it.

#![tactic(auto)]

ghost use Rattle.std.specs.Prelude.{◌≡◌, false, ◌+◌, ◌≤◌, length};
ghost use Rattle.counting.specs.Counting.{any_below};
ghost use Rattle.file.specs.File.{file_length, header_bytes, code_in, event_bytes, events_bytes, number_bad};
ghost use Rattle.text.specs.Put.{put};

use machine::Settings;

// Whether some event number has a code above 2.
pub fn bad_number(events: &[u32]) -> bool
    ensures { result ≡ any_below (number_bad events.now) (length events.now) }
{
    events.iter().any(|number| *number / 65536 > 2)
}

// Writes the header at the start of the room.
#[tactic(auto, using(crate::proofs::Bytes::put_start))]
pub fn put_header(room: &mut [u8], s: Settings, count: u16)
    requires { 11 ≤ length room.old }
    ensures { room.new ≡ put room.old 0 (header_bytes s count) }
{
    let version = s.version.to_le_bytes();
    let n = s.n.to_le_bytes();
    let count = count.to_le_bytes();
    room[..11].copy_from_slice(&[
        b'G', b'R', b'S', version[0], version[1], s.mode, n[0], n[1], s.k, count[0], count[1],
    ]);
}

// Writes one event at a place of the whole room, as `put` has it.
#[tactic(auto, using(text::proofs::Putting::put_part))]
fn put_event(room: &mut [u8], at: usize, number: u32)
    requires { (at + 3 ≤ length room.old) × (code_in number ≤ 2) }
    ensures { room.new ≡ put room.old at (event_bytes number) }
{
    let [low, high, code, _] = number.to_le_bytes();
    room[at..at + 3].copy_from_slice(&[code, low, high]);
}

// Writes the events after the header.
pub fn put_events(room: &mut [u8], events: &[u32])
    requires events_in_bounds { file_length (length events.now) ≤ length room.old }
    requires events_value { any_below (number_bad events.now) (length events.now) ≡ false }
    ensures { room.new ≡ put room.old 11 (events_bytes events.now) }
{
    for (i, number) in events.iter().enumerate() {
        put_event(room, 11 + 3 * i, *number);
    }
}

// The header of a schedule file: its words, its settings, and the tests that it passes.

#![tactic(auto)]

ghost use Rattle.std.specs.Prelude.{◌≡◌, [], ◌+◌, ◌≤◌, length};
ghost use Rattle.demands.specs.Refusals.{first};
ghost use Rattle.file.specs.File.{word_at, letters_right, settings_of, header_cases};

use machine::{Refusal, Settings};

// The most events that a schedule has.
pub const MOST_EVENTS: usize = 16384;

// The 16 bits at a place of the file, low byte first.
pub fn word(file: &[u8], i: usize) -> u16
    requires { i + 2 ≤ length file.now }
    ensures { result ≡ word_at file.now i }
{
    u16::from_le_bytes([file[i], file[i + 1]])
}

// Whether the file begins with the letters G, R, S.
fn letters(file: &[u8]) -> bool
    requires { 11 ≤ length file.now }
    ensures { result ≡ letters_right file.now }
{
    file.starts_with(b"GRS")
}

// The settings in the header.
pub fn settings(file: &[u8]) -> Settings
    requires { 11 ≤ length file.now }
    ensures { result ≡ settings_of file.now }
{
    Settings {
        mode: file[5],
        n: word(file, 6),
        k: file[8],
        version: word(file, 3),
    }
}

// Opening's tests but the last: 8, 9, 10, 1, 11, 8.
pub fn header(file: &[u8]) -> Result<(), Refusal>
    ensures { result ≡ first (header_cases file.now []) }
{
    if file.len() < 11 {
        return Err(Refusal::FileLength);
    }
    if !letters(file) {
        return Err(Refusal::Letters);
    }
    if !places::known_version(word(file, 3)) {
        return Err(Refusal::Version);
    }
    if !places::permitted(settings(file)) {
        return Err(Refusal::Limits);
    }
    let count = usize::from(word(file, 9));
    let whole = 11 + 3 * count;
    if MOST_EVENTS < count {
        return Err(Refusal::TooManyEvents);
    }
    if file.len() != whole {
        return Err(Refusal::FileLength);
    }
    Ok(())
}

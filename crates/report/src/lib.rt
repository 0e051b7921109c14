// The lines of a listing, each written on a page of lent room: the first, one of an event, the last,
// and the one of a file that does not open.

#![tactic(auto)]

ghost use Rattle.std.specs.Prelude.{◌≡◌, Some, ◌++◌, ◌+◌, ◌≤◌, length};
ghost use Rattle.machine.specs.RefusalNumbers.{number_of};
ghost use Rattle.text.specs.Decimal.{decimal, line_feed};
ghost use Rattle.printed.specs.Listing.{kind_text, letter_text, register_text, block_of, place_of, shown_text, fields_text, told_text, answer_text};
ghost use Rattle.printed.specs.Listing.{grid_line, event_line, end_line, refused_line};
ghost use Rattle.report.specs.Pages.{Adds, Fits};

use machine::{Answer, Event, Kind, Letter, Name, Refusal, Register, Settings, Shown, Told};

// A page: lent room, and the index past what is written in it. Its lines are methods, and no `impl
// Display`: what `write!` gives may be an `Err` by its clauses, and a line that fits is always written.
#[derive(Drop)]
pub struct Page<'a> {
    pub room: &'a mut [u8],
    pub at: usize,
}

// ---- words

// KIND: ask, turn or free.
fn kind_text(kind: Kind) -> &'static [u8]
    ensures { (result.now ≡ kind_text kind) × (length result.now ≤ 5) }
{
    match kind {
        Kind::Ask => b"ask ",
        Kind::Turn => b"turn ",
        Kind::Release => b"free ",
    }
}

// LETTER: how the register is touched.
fn letter_text(letter: Letter) -> &'static [u8]
    ensures { (result.now ≡ letter_text letter) × (length result.now ≤ 2) }
{
    match letter {
        Letter::R => b"R ",
        Letter::W => b"W ",
    }
}

// REGISTER: X, or M for a mark.
fn register_text(register: Register) -> &'static [u8]
    ensures { (result.now ≡ register_text register) × (length result.now ≤ 2) }
{
    match register {
        Register::X { .. } => b"X ",
        Register::Mark { .. } => b"M ",
    }
}

// BLOCK: the register's block.
fn block_of(register: Register) -> u16
    ensures { result ≡ block_of register }
{
    match register {
        Register::X { block } | Register::Mark { block, .. } => block,
    }
}

// PLACE: the register's place among the block's marks; 0 for X.
fn place_of(register: Register) -> u16
    ensures { result ≡ place_of register }
{
    match register {
        Register::X { .. } => 0,
        Register::Mark { place, .. } => place,
    }
}

impl Page<'_> {
    // ---- pieces of a line

    // A text.
    fn text(&mut self, text: &[u8])
        requires { Fits (length text.now) self.old }
        ensures { Adds (length text.now) self.old text.now self.new }
    {
        self.at = text::copy(self.room, self.at, text);
    }

    // A number in decimal.
    fn number(&mut self, n: u32)
        requires { Fits (length (decimal n)) self.old }
        ensures { Adds (length (decimal n)) self.old (decimal n) self.new }
    {
        self.at = text::number(self.room, self.at, n);
    }

    // A text and a number after it.
    #[tactic(auto, using(crate::proofs::Writing::five_digits))]
    fn labelled(&mut self, label: &[u8], n: u16)
        requires { Fits (length label.now + 5) self.old }
        ensures { Adds (length label.now + 5) self.old (label.now ++ decimal n) self.new }
    {
        self.text(label);
        self.number(u32::from(n));
    }

    // The end of a line.
    fn line_feed(&mut self)
        requires { Fits 1 self.old }
        ensures { Adds 1 self.old line_feed self.new }
    {
        self.text(b"\n");
    }

    // LETTER REGISTER BLOCK PLACE VALUE.
    #[tactic(auto, using(crate::proofs::Writing::five_digits, crate::proofs::Writing::ten_digits))]
    fn touched(&mut self, shown: Shown)
        requires { Fits 26 self.old }
        ensures { Adds 26 self.old (shown_text (Some shown)) self.new }
    {
        let block = block_of(shown.register);
        let place = place_of(shown.register);
        self.text(letter_text(shown.letter));
        self.labelled(register_text(shown.register), block);
        self.labelled(b" ", place);
        self.text(b" ");
        self.number(shown.value);
    }

    // The fields of an access, or none where nothing is touched.
    fn shown(&mut self, shown: Option<Shown>)
        requires { Fits 26 self.old }
        ensures { Adds 26 self.old (shown_text shown) self.new }
    {
        match shown {
            None => self.text(b"none"),
            Some(shown) => self.touched(shown),
        }
    }

    // A space and the fields, behind the answer to a turn or a release; behind that to an ask nothing, which
    // is a text too.
    fn fields(&mut self, kind: Kind, shown: Option<Shown>)
        requires { Fits 27 self.old }
        ensures { Adds 27 self.old (fields_text kind shown) self.new }
    {
        match kind {
            Kind::Ask => self.text(b""),
            Kind::Turn | Kind::Release => {
                self.text(b" ");
                self.shown(shown);
            }
        }
    }

    // A text, a name after it, and the fields.
    fn named(&mut self, label: &[u8], name: Name, kind: Kind, shown: Option<Shown>)
        requires { Fits (length label.now + 32) self.old }
        ensures { Adds (length label.now + 32) self.old (label.now ++ (decimal name.0 ++ fields_text kind shown)) self.new }
    {
        self.labelled(label, name.0);
        self.fields(kind, shown);
    }

    // What an accepted call answers: seeks, holds NAME, freed NAME, each with its fields.
    fn told(&mut self, kind: Kind, told: Told, shown: Option<Shown>)
        requires { Fits 38 self.old }
        ensures { Adds 38 self.old (told_text kind told shown) self.new }
    {
        match told {
            Told::Done => self.text(b"done"),
            Told::Seeks => {
                self.text(b"seeks");
                self.fields(kind, shown);
            }
            Told::Holds(name) => self.named(b"holds ", name, kind, shown),
            Told::Freed(name) => self.named(b"freed ", name, kind, shown),
        }
    }

    // ANSWER: what an accepted call answers, or refused NUMBER.
    fn answer(&mut self, kind: Kind, answer: Result<Answer, Refusal>)
        requires { Fits 38 self.old }
        ensures { Adds 38 self.old (answer_text kind answer) self.new }
    {
        match answer {
            Ok(answer) => self.told(kind, answer.told, answer.shown),
            Err(why) => self.labelled(b"refused ", why.number()),
        }
    }

    // ---- lines

    // The line `grid MODE N K`.
    pub fn put_grid(&mut self, s: Settings)
        requires { Fits 23 self.old }
        ensures { Adds 23 self.old (grid_line s) self.new }
    {
        self.labelled(b"grid ", u16::from(s.mode));
        self.labelled(b" ", s.n);
        self.labelled(b" ", u16::from(s.k));
        self.line_feed();
    }

    // The line `POSITION KIND ID ANSWER`, with the fields of the access behind the answer.
    #[tactic(auto, using(crate::proofs::Writing::five_digits))]
    pub fn put_event(&mut self, position: u16, event: Event, answer: Result<Answer, Refusal>)
        requires { Fits 56 self.old }
        ensures { Adds 56 self.old (event_line position event answer) self.new }
    {
        self.number(u32::from(position));
        self.text(b" ");
        self.labelled(kind_text(event.kind), event.task.0);
        self.text(b" ");
        self.answer(event.kind, answer);
        self.line_feed();
    }

    // The line `end HOLDERS PEAK MOST`.
    #[tactic(auto, using(crate::proofs::Writing::ten_digits))]
    pub fn put_end(&mut self, holders: u16, peak: u16, most: u32)
        requires { Fits 27 self.old }
        ensures { Adds 27 self.old (end_line holders peak most) self.new }
    {
        self.labelled(b"end ", holders);
        self.labelled(b" ", peak);
        self.text(b" ");
        self.number(most);
        self.line_feed();
    }

    // The line of a file that does not open.
    pub fn put_refused(&mut self, why: Refusal)
        requires { Fits 14 self.old }
        ensures { Adds 14 self.old (refused_line (number_of why)) self.new }
    {
        self.labelled(b"refused ", why.number());
        self.line_feed();
    }
}

// The listing of a schedule file: from the file's bytes to the bytes that `gridlist` prints of it,
// in lent room.

#![tactic(auto)]

ghost use Rattle.std.specs.Prelude.{◌≡◌, Ok, ℕ, ◌+◌, ◌*◌, ◌≤◌, length, get_or, take};
ghost use Rattle.machine.specs.Records.{idle};
ghost use Rattle.demands.specs.{Memory.out_of, Answers.told_in};
ghost use Rattle.file.specs.File.{opening, written_of};
ghost use Rattle.printed.specs.Listing.{completed, holders_of, listing_by};
ghost use Rattle.report.specs.Pages.{Adds, Fits};
ghost use Rattle.printed.specs.Listed.{room_by, listed};

use machine::{Answer, Event, Opened, Record, Refusal, Settings, TaskId, Told};
use ranges::is_out;
use records::is_holding;
use report::Page;
use schedule::Reader;

// A run of a schedule: its settings, memory for the largest settings, and PEAK and MOST so far.
#[derive(Drop)]
struct Run {
    settings: Settings,
    records: [Record; 256],
    xs: [u32; 120],
    marks: [u8; 30720],
    peak: u16,
    most: u32,
    ghost few: { settings.n ≤ 256 },
}

// The turns that a completed acquisition used; 0 and no `None` where the call completes none, since MOST
// is a `max` from 0 on.
fn completed(answer: Result<Answer, Refusal>, turns: u32) -> u32
    ensures { result ≡ completed (told_in answer) turns }
{
    match answer {
        Ok(
            Answer {
                told: Told::Holds(_),
                ..
            },
        ) => turns,
        _ => 0,
    }
}

impl Run {
    ghost use Rattle.listing.specs.Runs.{Fresh, Begun, Advanced};

    // A run before its beginning, on memory that nobody has used.
    fn fresh(settings: Settings) -> Run
        requires { settings.n ≤ 256 }
        ensures { Fresh settings result }
    {
        Run {
            settings,
            records: calls::idle_records(),
            xs: [0; 120],
            marks: [0; 30720],
            peak: 0,
            most: 0,
        }
    }

    // Its beginning: setup, where the run stays. One that was set up and then returned would be copied, and
    // the stack would have it twice.
    fn begin(&mut self)
        requires { Fresh self.old.settings self.old }
        ensures { Begun self.old.settings self.new }
    {
        let _ = calls::setup(
            self.settings,
            &mut self.records,
            &mut self.xs,
            &mut self.marks,
        );
    }

    // The records of the N tasks.
    fn tasks(&self) -> &[Record]
        ensures { result.now ≡ take self.now.settings.n self.now.records }
    {
        &self.records[..usize::from(self.settings.n)]
    }

    // How many of them are out. Two chains of a line: one with the test as a parameter would have its
    // `post` in the contract.
    fn tasks_out(&self) -> u16
        ensures { (result ≡ out_of self.now.settings self.now.records) × (result ≤ 256) }
    {
        self.tasks().iter().filter(|own| is_out(**own)).count() as u16
    }

    // How many of them hold.
    fn holders(&self) -> u16
        ensures { (result ≡ holders_of self.now.settings self.now.records) × (result ≤ 256) }
    {
        self.tasks().iter().filter(|own| is_holding(**own)).count() as u16
    }

    // The turns in the record of a task; 0 where there is none.
    fn turns_of(&self, task: TaskId) -> u32
        ensures { result ≡ (get_or self.now.records task.0 idle).turns }
    {
        self.records
            .get(usize::from(task.0))
            .map_or(0, |own| own.turns)
    }

    // One event more: the call, and the counts after it.
    fn advance(&mut self, event: Event) -> Result<Answer, Refusal>
        ensures { Advanced event self.old result self.new }
    {
        let answer = calls::step(
            self.settings,
            &mut self.records,
            &mut self.xs,
            &mut self.marks,
            event,
        );
        let used = completed(answer, self.turns_of(event.task));
        self.peak = self.peak.max(self.tasks_out());
        self.most = self.most.max(used);
        answer
    }
}

// The lines of an opened file.
fn put_lines(file: &[u8], opened: Opened, page: &mut Page)
    requires { (opening file.now ≡ Ok opened) × Fits (50 + 56 * opened.count) page.old }
    ensures { Adds (50 + 56 * opened.count) page.old (listing_by (Ok opened) file.now) page.new }
{
    let Opened { settings, count } = opened;
    let mut run = Run::fresh(settings);
    run.begin();
    let mut reader = Reader::new(file);
    page.put_grid(settings);
    for position in 0..count {
        let event = reader.next().unwrap();
        let answer = run.advance(event);
        page.put_event(position, event, answer);
    }
    page.put_end(run.holders(), run.peak, run.most);
}

// Room that is always enough: 50 bytes and 56 for each event, or one line where the file does not open.
fn room_by(opened: Result<Opened, Refusal>) -> usize
    ensures { result ≡ room_by opened }
{
    match opened {
        Ok(opened) => 50 + 56 * usize::from(opened.count),
        Err(_) => 14,
    }
}

// The lines of a file, by how it opens.
fn put_listing(file: &[u8], opened: Result<Opened, Refusal>, page: &mut Page)
    requires { (opening file.now ≡ opened) × Fits (room_by opened) page.old }
    ensures { Adds (room_by opened) page.old (listing_by opened file.now) page.new }
{
    match opened {
        Ok(opened) => put_lines(file, opened, page),
        Err(why) => page.put_refused(why),
    }
}

// Lists a schedule file: the text from the start of the room, and how long it is. A room that is
// shorter than what is always enough is refused, and stays as it was.
pub fn list(file: &[u8], room: &mut [u8]) -> Result<usize, Refusal>
    ensures { written_of result room.new ≡ listed file.now room.old }
{
    let opened = schedule::open(file);
    if room.len() < room_by(opened) {
        return Err(Refusal::ShortRoom);
    }
    let mut page = Page { room, at: 0 };
    put_listing(file, opened, &mut page);
    Ok(page.at)
}

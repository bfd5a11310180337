// The writer on marked buffers of many lengths.
use lines::line::Reading;
use rules::Job;
use texts::forms::Unwritten;
use texts::job::read_job;
use texts::writer::write_job;

// Longer than every text.
pub const ROOM: usize = 4_096;

// Both counts stop here.
const MOST_COUNTED: u64 = 1_000_000_000;

// How many calls of the writer were tried, and how many did otherwise than they should.
#[derive(Clone, Copy, Default)]
pub struct Count {
    pub tried: u64,
    pub different: u64,
}

impl Count {
    // One call more, and whether it did as it should.
    pub fn note(&mut self, good: bool) {
        self.tried = self.tried.saturating_add(1).min(MOST_COUNTED);
        if !good {
            self.different = self.different.saturating_add(1).min(MOST_COUNTED);
        }
    }
}

// No byte of a text, and another one from place to place.
fn mark(place: usize) -> u8 {
    (128 + place % 127) as u8
}

fn marked() -> [u8; ROOM] {
    std::array::from_fn(mark)
}

// Whether a buffer has its marks from a place on. By a loop: an iterator's `all` is compiled to one byte after the other, and took three times as long.
fn is_kept(buffer: &[u8], from: usize) -> bool {
    for place in from..buffer.len() {
        if buffer[place] != mark(place) {
            return false;
        }
    }
    true
}

// Whether a buffer holds the text, and then its marks.
fn holds(buffer: &[u8], text: &[u8]) -> bool {
    buffer.starts_with(text) && is_kept(buffer, text.len())
}

// Whether the writer, on the first so many bytes of a marked buffer, writes the text and leaves the marks after it, or refuses so and leaves all marks.
pub fn writes(job: &Job, room: usize, expected: Result<&[u8], Unwritten>) -> bool {
    let mut buffer = marked();
    let Some(lent) = buffer.get_mut(..room) else {
        return false;
    };
    let written = write_job(job, lent);
    match expected {
        Ok(text) => written == Ok(text.len()) && holds(&buffer, text),
        Err(unwritten) => written == Err(unwritten) && holds(&buffer, b""),
    }
}

// Whether a job that was written reads back as it is, with nothing past its text read.
pub fn reads_back(job: &Job) -> bool {
    let mut buffer = marked();
    let Ok(next) = write_job(job, &mut buffer) else {
        return false;
    };
    read_job(&buffer) == Ok(Reading { value: *job, next })
}

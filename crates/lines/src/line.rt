// One line of a text: a key with its equals sign, digits, and a line feed.
ghost use Rattle.std.specs.Prelude.{◌≡◌, ◌≤◌, length, IsTrue};
ghost use Rattle.lines.specs.Lines.{ranged as ranged_line, any_figure_line, begins, line, unfit};
ghost use Rattle.lines.specs.DueLines.{key_bytes, due_of};
ghost use Rattle.lines.specs.Readings.{fault_number, ReadingIs};
ghost use Rattle.lines.specs.Parts.{most_scanned, ScanIs, NumberIs, AskLine};

use crate::keys::Key;

// Why a line is refused, by its number.
#[derive(Clone, Copy, PartialEq, Eq)]
pub enum Fault {
    // It does not begin with the due key and an equals sign.
    NoKey,
    // Its digits, or the line feed after them, are missing or ill-written.
    IllWritten,
    // Its figure is outside its range.
    OutOfRange,
    // Its figure is outside its range, and the line that is due names the number.
    Unfit(u64),
}

impl Fault {
    pub fn number(self) -> u64
        ensures { result ≡ fault_number self }
    {
        match self {
            Fault::NoKey => 14,
            Fault::IllWritten => 15,
            Fault::OutOfRange => 16,
            Fault::Unfit(number) => number,
        }
    }
}

// What was read of a text: its value, and the place after it.
#[derive(Clone, Copy, PartialEq, Eq)]
pub struct Reading<T> {
    pub value: T,
    pub next: usize,
}

impl<T> Reading<T> {
    // The same place, with what is made of the value.
    pub fn map<U, F: FnOnce(T) -> U>(self, f: F) -> Reading<U>
        requires { F.pre f self.value }
        ensures value { F.post f self.value result.value }
        ensures next { result.next ≡ self.next }
    {
        Reading {
            value: f(self.value),
            next: self.next,
        }
    }
}

// A line that is refused, by the place of its first byte. Nothing after it is read.
#[derive(Clone, Copy, PartialEq, Eq)]
pub struct Unread {
    pub fault: Fault,
    pub at: usize,
}

// A line that is due: its key, the most digits of its figure, the figure's range, a figure excepted from it, if there is one, and what a figure is refused as.
// No line of document 01 varies the digits, the exception or the refusal.
// Document 02's stored texts do: a cost of 13 digits, a machine other than the first, refusal 22.
#[derive(Clone, Copy, PartialEq, Eq)]
pub struct DueLine {
    pub key: Key,
    pub digits: usize,
    pub least: u64,
    pub most: u64,
    pub except: Option<u64>,
    pub refuses: Fault,
}

// The most digits of a figure, and the largest figure that they say.
pub const DIGITS: usize = 10;

const LARGEST: u64 = 9_999_999_999;

impl DueLine {
    // A line whose range is judged here.
    pub fn ranged(key: Key, least: u64, most: u64) -> Self
        ensures { due_of result ≡ ranged_line (key_bytes key) least most }
    {
        DueLine {
            key,
            digits: DIGITS,
            least,
            most,
            except: None,
            refuses: Fault::OutOfRange,
        }
    }

    // A line whose range is left to submission.
    pub fn any_figure(key: Key) -> Self
        ensures { due_of result ≡ any_figure_line (key_bytes key) }
    {
        Self::ranged(key, 0, LARGEST)
    }

    // The figure is outside the line's range, or is the one excepted.
    pub fn is_unfit(self, figure: u64) -> bool
        ensures { result ≡ unfit (due_of self) figure }
    {
        figure < self.least || self.most < figure || self.except == Some(figure)
    }
}

// Digits: how many, and what they say.
#[derive(Clone, Copy, PartialEq, Eq)]
pub struct Digits {
    pub count: usize,
    pub value: u64,
}

// Whether the text begins with the key, byte for byte. By index: where the key is known this is compiled to a test for each of its bytes, and neither the
// library's test nor an iterator over both is.
pub fn begins_with(text: &[u8], key: &[u8]) -> bool
    ensures value { result ≡ begins key.now text.now }
    ensures fits { IsTrue result → length key.now ≤ length text.now }
{
    if text.len() < key.len() {
        return false;
    }
    for i in 0..key.len() {
        if text[i] != key[i] {
            return false;
        }
    }
    true
}

// The digits up to the first other byte. More than one past the most are not looked at.
fn scan(text: &[u8], most: usize) -> Digits
    requires { most ≤ most_scanned }
    ensures { ScanIs text.now most result }
{
    let mut value = 0;
    let looked_at = text.len().min(most + 1);
    for (count, byte) in text[..looked_at].iter().enumerate() {
        if !byte.is_ascii_digit() {
            return Digits { count, value };
        }
        value = value * 10 + u64::from(*byte - b'0');
    }
    Digits {
        count: looked_at,
        value,
    }
}

// The number that a text begins with, its line feed after it; none where it is ill-written.
pub fn number(text: &[u8], most: usize) -> Option<Digits>
    requires { most ≤ most_scanned }
    ensures { NumberIs text.now most result }
{
    let digits = scan(text, most);
    let count = digits.count;
    if count == 0 || most < count {
        return None;
    }
    if text.get(count) != Some(&b'\n') {
        return None;
    }
    if count != 1 && text[0] == b'0' {
        return None;
    }
    Some(digits)
}

// The line at a place. Inlined into the loop that reads a form: as a call of its own it takes more time.
#[inline(always)]
pub fn read_line(text: &[u8], at: usize, due: DueLine) -> Result<Reading<u64>, Unread>
    requires { AskLine text.now at due }
    ensures { ReadingIs (line (due_of due) text.now at) result }
{
    let rest = &text[at..];
    let key = due.key.text();
    if !rest.starts_with(key) {
        return Err(Unread {
            fault: Fault::NoKey,
            at,
        });
    }
    let Some(digits) = number(&rest[key.len()..], due.digits) else {
        return Err(Unread {
            fault: Fault::IllWritten,
            at,
        });
    };
    if due.is_unfit(digits.value) {
        return Err(Unread {
            fault: due.refuses,
            at,
        });
    }
    Ok(Reading {
        value: digits.value,
        next: at + key.len() + digits.count + 1,
    })
}

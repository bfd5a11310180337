// The engine that reads, judges, measures and writes every text.
// A text is a form, and a place in a form says what line is due and, by the figure there, what place comes next.
ghost use Rattle.std.specs.Prelude.{◌≡◌, false, cond, [], ◌≤◌, ℕ, length};
ghost use Rattle.lines.specs.Put.{Puts};
ghost use Rattle.texts.specs.Forms.{Form, fills, written};
ghost use Rattle.texts.specs.Writer.{Writes, unwritten_number};
ghost use Rattle.texts.specs.Parts.{DueIs, AskNext, NextIs, form_left, AskRead, FormRead, AskWrite, MeasuredIs, AskPut};

use lines::figures::width;
use lines::keys::put_line;
use lines::line::{DueLine, Reading, Unread, read_line};

// A place in a form.
pub trait FormLine: Copy {
    // The form that is left there, for a table of so many machines.
    ghost form: { (machines : ℕ) → Self → Form };

    // The line that is due.
    fn due(self) -> DueLine
        ensures { (machines : ℕ) → DueIs (form machines self) result };

    // The place after it, by its figure, if a line is left.
    fn after(self, machines: u64, figure: u64) -> Option<Self>
        requires { AskNext (form machines self) machines figure }
        ensures { NextIs (form machines self) figure (form_left (form machines) result) };

    // At each place a line is due.
    ghost due_there: { (machines : ℕ) (place : Self) → fills (form machines place) [] ≡ false };
}

// Reads a form from the text's start on into a lent row, and answers how many figures it has. They are counted by hand, since a place of a form is known from the
// figure before it, and no iterator walks that.
pub fn read_form<L: FormLine>(
    text: &[u8],
    first: L,
    machines: u64,
    row: &mut [u64],
) -> Result<Reading<u64>, Unread>
    requires { AskRead (L.form machines first) machines row.old }
    ensures { FormRead (L.form machines first) text.now row.old row.new result }
{
    let mut place = Some(first);
    let mut at = 0;
    let mut count = 0;
    while let Some(here) = place {
        let line = read_line(text, at, here.due());
        // Document 01 names this form.
        let Ok(Reading { value, next }) = line else {
            return line;
        };
        row[count] = value;
        count += 1;
        at = next;
        place = here.after(machines, value);
    }
    Ok(Reading {
        value: count as u64,
        next: at,
    })
}

// How many bytes the lines of such figures have, where they fill a form. This walk judges and measures and `put_form` writes, since a refusal writes no byte.
pub fn measured<L: FormLine>(figures: &[u64], first: L, machines: u64) -> Option<usize>
    requires { 1 ≤ machines }
    ensures { MeasuredIs (L.form machines first) figures.now result }
{
    let mut place = Some(first);
    let mut length: usize = 0;
    for figure in figures {
        let here = place?;
        let due = here.due();
        let digits = width(*figure);
        if due.is_unfit(*figure) || due.digits < digits {
            return None;
        }
        length = length.saturating_add(due.key.text().len() + digits + 1);
        place = here.after(machines, *figure);
    }
    place.is_none().then_some(length)
}

// Writes the lines of figures that fill a form, from the output's start on.
fn put_form<L: FormLine>(figures: &[u64], first: L, machines: u64, output: &mut [u8]) -> usize
    requires figures { AskPut (L.form machines first) machines figures.now }
    requires room { length (written (L.form machines first) figures.now) ≤ length output.old }
    ensures { Puts output.old 0 (written (L.form machines first) figures.now) output.new result }
{
    let mut place = Some(first);
    let mut at = 0;
    for figure in figures {
        let Some(here) = place else { unreachable!() };
        at = put_line(output, at, here.due().key, *figure);
        place = here.after(machines, *figure);
    }
    at
}

// Why a text is not written, by its number. Then no byte is.
#[derive(Clone, Copy, PartialEq, Eq)]
pub enum Unwritten {
    // A count is out of range, or a figure is too long; this is judged first.
    Unwritable = 20,
    // The buffer is too short.
    NoRoom = 21,
}

impl Unwritten {
    pub fn number(self) -> u64
        ensures { result ≡ unwritten_number self }
    {
        self as u64
    }
}

// Writes the lines of figures, and answers how many bytes they have.
pub fn write_form<L: FormLine>(
    figures: &[u64],
    first: L,
    machines: u64,
    output: &mut [u8],
) -> Result<usize, Unwritten>
    requires { AskWrite machines figures.now }
    ensures { Writes (cond (fills (L.form machines first) figures.now) 0 20) (written (L.form machines first) figures.now) output.old output.new result }
{
    let length = measured(figures, first, machines).ok_or(Unwritten::Unwritable)?;
    if output.len() < length {
        return Err(Unwritten::NoRoom);
    }
    Ok(put_form(figures, first, machines, output))
}

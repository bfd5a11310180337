// The keys of all texts, each with its equals sign.
ghost use Rattle.std.specs.Prelude.{◌≡◌, ◌+◌, ◌≤◌, length};
ghost use Rattle.lines.specs.Put.{Puts};
ghost use Rattle.lines.specs.DueLines.{key_bytes};
ghost use Rattle.lines.specs.Parts.{KeyStands, key_field};

use crate::figures::put_figure;

#[derive(Clone, Copy, PartialEq, Eq)]
pub enum Key {
    Job,
    Sched,
    Tasks,
    Deadline,
    Dispatch,
    Run,
    Messages,
    From,
    To,
    Volume,
    Tick,
}

impl Key {
    // The fixed byte string that a line's start is compared with.
    pub fn text(self) -> &'static [u8]
        ensures { result.now ≡ key_bytes self }
    {
        match self {
            Key::Job => b"job=",
            Key::Sched => b"sched=",
            Key::Tasks => b"tasks=",
            Key::Deadline => b"deadline=",
            Key::Dispatch => b"dispatch=",
            Key::Run => b"run=",
            Key::Messages => b"messages=",
            Key::From => b"from=",
            Key::To => b"to=",
            Key::Volume => b"volume=",
            Key::Tick => b"tick=",
        }
    }
}

// Where a key begins and ends in the row of all keys.
fn part(key: Key) -> (usize, usize)
    ensures { KeyStands key result }
{
    match key {
        Key::Job => (0, 4),
        Key::Sched => (4, 10),
        Key::Tasks => (10, 16),
        Key::Deadline => (16, 25),
        Key::Dispatch => (25, 34),
        Key::Run => (34, 38),
        Key::Messages => (38, 47),
        Key::From => (47, 52),
        Key::To => (52, 55),
        Key::Volume => (55, 62),
        Key::Tick => (62, 67),
    }
}

// The key's bytes, as a part of one row of all keys: a writer that takes them from `text` is compiled to a table of addresses, which a linker fills in, and the
// library for C has no writable data.
fn part_of_row(key: Key) -> &'static [u8]
    ensures { result.now ≡ key_bytes key }
{
    let keys = b"job=sched=tasks=deadline=dispatch=run=messages=from=to=volume=tick=";
    let (start, end) = part(key);
    &keys[start..end]
}

// Byte by byte: the library's copy is a call of memmove where its length is known only as it runs, and the library for C asks for no such name.
fn put_key(output: &mut [u8], at: usize, key: Key) -> usize
    requires { at + length (key_bytes key) ≤ length output.old }
    ensures { Puts output.old at (key_bytes key) output.new result }
{
    let text = part_of_row(key);
    for i in 0..text.len() {
        output[at + i] = text[i];
    }
    at + text.len()
}

// One line: a key, a figure and a line feed.
pub fn put_line(output: &mut [u8], at: usize, key: Key, figure: u64) -> usize
    requires { at + length (key_field key figure) ≤ length output.old }
    ensures { Puts output.old at (key_field key figure) output.new result }
{
    let start = put_key(output, at, key);
    let end = put_figure(output, start, figure);
    output[end] = b'\n';
    end + 1
}

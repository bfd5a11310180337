// Columns, of one value for each span: a value put in or taken out at an index, and a column without those that leave.
// Values are moved one by one: the library's rotation moves through a room of its own on the stack and needs memmove.
ghost use Rattle.std.specs.Prelude.{◌≤◌, length};
ghost use Rattle.timeline.specs.RowLine.{AskInsert, InsertedAt, AskRemoveAt, RemovedAt};
ghost use Rattle.timeline.specs.TakenOut.{KeptIs};
ghost use Rattle.timeline.specs.Packing.{PackedIs};

use crate::leaving::Leaving;

// Puts a value at an index of the first so many, and those from there on one place further.
pub fn insert_at<T: Copy>(values: &mut [T], count: usize, at: usize, value: T)
    requires { AskInsert values.old count at }
    ensures { InsertedAt values.old count at value values.new }
{
    for i in (at..count).rev() {
        values[i + 1] = values[i];
    }
    values[at] = value;
}

// Takes the value at an index out of the first so many: those after it go one place back, and the last leaves a blank.
pub fn remove_at<T: Copy>(values: &mut [T], count: usize, at: usize, blank: T)
    requires { AskRemoveAt values.old count at }
    ensures { RemovedAt values.old count at blank values.new }
{
    for i in at + 1..count {
        values[i - 1] = values[i];
    }
    values[count - 1] = blank;
}

// Those that stay go behind each other, from the first that leaves on. Answers how many they are. By index, since one column is read and written.
fn pack<T: Copy>(values: &mut [T], leaving: &Leaving) -> usize
    requires { leaving.now.count ≤ length values.old }
    ensures { PackedIs values.old leaving.now.marks leaving.now.count values.new result }
{
    let mut kept = leaving.from;
    for i in leaving.from..leaving.count {
        if !leaving.marks[i] {
            values[kept] = values[i];
            kept += 1;
        }
    }
    kept
}

// The column of those that stay, and blanks past them. Answers how many stay.
pub fn keep_staying<T: Copy>(values: &mut [T], leaving: &Leaving, blank: T) -> usize
    requires { leaving.now.count ≤ length values.old }
    ensures { KeptIs values.old leaving.now.marks leaving.now.count blank values.new result }
{
    let kept = pack(values, leaving);
    // `fill` asks that a copy of the blank can't fail, which no clause says of a type that is `Copy`.
    for value in &mut values[kept..leaving.count] {
        *value = blank;
    }
    kept
}

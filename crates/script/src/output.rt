// A field where there is room for the largest figure. It stands beside the writer of fields in `lines`, so that callers reckon the room by keys alone, and not
// each by the digits of its figure.
ghost use Rattle.std.specs.Prelude.{◌+◌, ◌≤◌, length};
ghost use Rattle.script.specs.Parts.{field_room, PutsField};

pub fn put_any_field(output: &mut [u8], at: usize, key: &[u8], n: u64) -> usize
    requires { at + field_room key.now ≤ length output.old }
    ensures { PutsField output.old at key.now n output.new result }
{
    lines::figures::put_field(output, at, key, n)
}

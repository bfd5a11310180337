// Arrays that hold fewer items than they have room for.
ghost use Rattle.std.specs.Prelude.{ℕ, ◌≤◌, ◌<◌};
ghost use Rattle.rules.specs.Arrays.{MadeBy};

// The items that are made at the indices below a count, and defaults past them. By `array::from_fn`, the array would be copied five times.
pub fn filled<T: Copy + Default, F: Fn(usize) -> T, const N: usize>(count: usize, item: F) -> [T; N]
    requires made { (i : ℕ) → i < count → F.pre item i }
    requires room { count ≤ N }
    ensures { MadeBy (F.post item) T.is_default N count result }
{
    let mut items = [T::default(); N];
    for i in 0..count {
        items[i] = item(i);
    }
    items
}

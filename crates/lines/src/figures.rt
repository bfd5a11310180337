// Decimal figures and other bytes, written into a buffer from a place on. The buffer and the place stay two parameters: a struct of lent bytes would owe, on every
// function, the clause that they are the same bytes.
ghost use Rattle.std.specs.Prelude.{◌≡◌, ◌+◌, ◌≤◌, length};
ghost use Rattle.lines.specs.Figures.{zero_digit, decimal, field};
ghost use Rattle.lines.specs.Put.{Puts};

// How many digits a number has.
pub fn width(n: u64) -> usize
    ensures { result ≡ length (decimal n) }
{
    n.checked_ilog10().map_or(1, |l| l as usize + 1)
}

fn digit(n: u64) -> u8
    requires { n ≤ 9 }
    ensures { result ≡ zero_digit + n }
{
    b'0' + n as u8
}

// A number in decimal, from its last digit to its first. Answers the place after it. Places are indices, since no clause says what became of a buffer after an adapter
// of `iter_mut`.
pub fn put_figure(output: &mut [u8], at: usize, n: u64) -> usize
    requires { at + length (decimal n) ≤ length output.old }
    ensures { Puts output.old at (decimal n) output.new result }
{
    let end = at + width(n);
    let mut rest = n;
    for place in (at..end).rev() {
        output[place] = digit(rest % 10);
        rest /= 10;
    }
    end
}

// Bytes as they are. Answers the place after them.
pub fn put_bytes(output: &mut [u8], at: usize, bytes: &[u8]) -> usize
    requires { at + length bytes.now ≤ length output.old }
    ensures { Puts output.old at bytes.now output.new result }
{
    let end = at + bytes.len();
    output[at..end].copy_from_slice(bytes);
    end
}

// A key with its equals sign, a number and a line feed. Answers the place after them.
pub fn put_field(output: &mut [u8], at: usize, key: &[u8], n: u64) -> usize
    requires { at + length (field key.now n) ≤ length output.old }
    ensures { Puts output.old at (field key.now n) output.new result }
{
    let start = put_bytes(output, at, key);
    let end = put_figure(output, start, n);
    output[end] = b'\n';
    end + 1
}

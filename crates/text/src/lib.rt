// Numbers as text, built in a buffer: decimal, in ASCII. Nothing here does input or output.

#![tactic(auto)]

ghost use Rattle.std.specs.Prelude.{◌+◌, ◌*◌, ◌<◌, ◌≤◌, length};
ghost use Rattle.buffers.specs.Counts.{IsPrefixLen};
ghost use Rattle.text.specs.Text.{decimal_of, signed_text, line_of, Puts};

// Stores the digits of n at `at`, and returns where they end.
fn put_digits(out: &mut [u8], at: usize, n: u64) -> usize
    requires { at + length (decimal_of n) ≤ length out.old }
    ensures { Puts (decimal_of n) at out.old result out.new }
{
    if n < 10 {
        out[at] = b'0' + n as u8;
        return at + 1;
    }
    let last = put_digits(out, at, n / 10);
    out[last] = b'0' + (n % 10) as u8;
    last + 1
}

// Stores n with its sign at `at`, at most 20 bytes, and returns where it ends.
pub fn put_number(out: &mut [u8], at: usize, n: i64) -> usize
    requires { at + 20 ≤ length out.old }
    ensures puts { Puts (signed_text n) at out.old result out.new }
    ensures prefix_len { IsPrefixLen result out.new }
{
    if n < 0 {
        out[at] = b'-';
        return put_digits(out, at + 1, n.unsigned_abs());
    }
    put_digits(out, at, n as u64)
}

// Stores a line of numbers at the start of out, and returns its length.
pub fn put_line<const N: usize>(out: &mut [u8], numbers: [i64; N]) -> usize
    requires numbers_fit { 21 * N ≤ length out.old }
    requires line_feed_fits { 0 < length out.old }
    ensures puts { Puts (line_of numbers.entry) 0 out.old result out.new }
    ensures prefix_len { IsPrefixLen result out.new }
{
    let mut end = 0;
    for n in numbers {
        if end > 0 {
            out[end] = b' ';
            end += 1;
        }
        end = put_number(out, end, n);
    }
    out[end] = b'\n';
    end + 1
}

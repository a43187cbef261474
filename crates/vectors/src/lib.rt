// Test lines: a label, a colon, the bytes of a vector in hexadecimal, with spaces for legibility, and a line feed.
// A heading has no colon, so it is printed as part of the label that follows it.

#![tactic(auto)]

ghost use Rattle.std.specs.Prelude.{ℕ, ◌^◌, ◌≤◌, ◌<◌, List, length};
ghost use Rattle.std.specs.Fn.{FnOnceReturnsAt};
ghost use Rattle.std.specs.Io.KnownBytes.{Consumes};
ghost use Rattle.buffers.specs.Counts.{IsPrefixLen};

use std::io::Read;

// The number of bytes of the longest vector; of a longer one, the rest is dropped.
const LONGEST: usize = 640;

// Of a line that was read: where the next line begins, and the number of bytes in its vector.
#[derive(Clone, Copy, Debug, PartialEq, Eq)]
pub struct Line {
    pub next: usize,
    pub size: usize,
}

// Reads an input of at most N bytes, and hands what was read to `answer`.
pub fn with_input<const N: usize, R: Read, F: FnOnce(&[u8])>(reader: &mut R, answer: F)
    requires size { N < 2 ^ 63 }
    requires callable { F.IsAlwaysCallable answer }
    ensures { (bytes : List ℕ)
        × (length bytes ≤ N)
        × Consumes (R.remaining reader.old) (R.remaining reader.new) bytes
        × FnOnceReturnsAt F.FnOnce answer bytes tt }
{
    let mut input = [0u8; N];
    let n = buffers::read_full(reader, &mut input);
    answer(&input[..n]);
}

// Writes the label of each line of an input, and hands the bytes of its vector to `answer`, which writes the rest of the line.
pub fn answer_all<F: Fn(&[u8])>(rt: &impl Print, input: &[u8], answer: F)
    requires { F.IsAlwaysCallable answer }
{
    let mut vector = [0u8; LONGEST];
    let mut at = 0;
    while at < input.len() {
        let line = read_line(rt, input, at, &mut vector);
        answer(&vector[..line.size]);
        at = line.next;
    }
}

// Writes the label of the line at `at` with its colon, and stores its vector at the start of `vector`. Bytes after the returned size may be left over from an earlier line.
pub fn read_line(rt: &impl Print, input: &[u8], at: usize, vector: &mut [u8]) -> Line
    requires { at < length input.now }
    ensures at_lt_next { at < result.next }
    ensures prefix_len { IsPrefixLen result.size vector.new }
{
    let digits = past(input, at + 1, b':');
    let _label = rt.write_all(&input[at..digits]);
    put_bytes(input, digits, vector)
}

// The first position from `from` on that follows a byte `mark`; the end of the input if there is none.
fn past(input: &[u8], from: usize, mark: u8) -> usize
    requires low { 0 < from }
    requires high { from ≤ length input.now }
    ensures lower_bound { from ≤ result }
    ensures upper_bound { result ≤ length input.now }
{
    input[from - 1..]
        .iter()
        .position(|c| *c == mark)
        .map_or(input.len(), |i| from + i)
}

// Stores the bytes that the digits from `from` to the end of the line spell at the start of `vector`, and drops those that do not fit.
// A line without a line feed was cut off by the end of the input, so its vector counts as empty.
fn put_bytes(input: &[u8], from: usize, vector: &mut [u8]) -> Line
    requires { from ≤ length input.now }
    ensures from_le_next { from ≤ result.next }
    ensures prefix_len { IsPrefixLen result.size vector.new }
{
    let mut n = 0;
    // By number: `skip` would walk from the start of the input at each line.
    for i in from..input.len() {
        let c = input[i];
        if c == b'\n' {
            let next = i + 1;
            return Line { next, size: n / 2 };
        }
        let to = n / 2;
        if c != b' ' && to < vector.len() {
            vector[to] = joined(vector[to], c);
            n += 1;
        }
    }
    Line {
        next: input.len(),
        size: 0,
    }
}

// The byte whose digits are the low digit of b and the digit c. A letter is at least 64, and its low four bits are its value less 9.
fn joined(b: u8, c: u8) -> u8 {
    b % 16 * 16 + (c % 16 + c / 64 * 9) % 16
}

// Writes a space, the code, a space and the number. The program ends the line, since some programs print more on it.
pub fn answer(rt: &impl Print, code: u32, number: u64) {
    let _answer = print!(rt; " {code} {number}");
}

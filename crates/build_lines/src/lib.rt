// Test lines of the calls that write a map, for programs over vectors: each is answered by code, number, the map, and whether all other bytes of the buffer
// are unchanged.

#![tactic(auto)]

ghost use Rattle.buffers.specs.Counts.{IsPrefixLen};

// The value of each byte of a buffer before it is lent.
pub const FILLED: u8 = 170;

// Answers all lines of an input by `zone_build`.
pub fn answer_all(rt: &impl Print, input: &[u8]) {
    vectors::answer_all(rt, input, |vector| build_from(rt, vector));
}

// A vector is the bytes of X, Y, Z, k, d, the number of bytes lent, and the sheet. One that is too short leaves its line without an answer.
fn build_from(rt: &impl Print, s: &[u8]) {
    if s.len() < 15 {
        return;
    }
    let mut filled = [FILLED; 216];
    let out: &mut [u8] = &mut filled;
    let room = room_of(s[14], out);
    let reply = zone::zone_build(
        &s[15..],
        bigendian::i32_at(s, 0),
        bigendian::i32_at(s, 4),
        bigendian::i32_at(s, 8),
        s[12],
        s[13],
        &mut out[..room],
    );
    answer(rt, reply.code, reply.number, out);
}

// The number of bytes lent: b, which no vector has above 216.
pub fn room_of(b: u8, buffer: &[u8]) -> usize
    ensures { IsPrefixLen result buffer.now }
{
    (b as usize).min(buffer.len())
}

// Writes the rest of a line; only the bytes of a map may differ from the fill value.
pub fn answer(rt: &impl Print, code: u32, number: u64, out: &[u8]) {
    vectors::answer(rt, code, number);
    let size = if code == 0 { number as usize } else { 0 };
    show(rt, out, size);
    if is_filled(out, size) {
        let _kept = println!(rt; " kept");
    } else {
        let _changed = println!(rt; " CHANGED");
    }
}

// Writes the first n bytes.
fn show(rt: &impl Print, out: &[u8], n: usize) {
    for b in out.iter().take(n) {
        byte(rt, *b);
    }
}

// Whether all bytes from the n-th on still have the fill value.
// By indices, since with a chain of iterators `rt try` of `build_vectors` takes more than the 20 million steps that it interprets.
fn is_filled(out: &[u8], n: usize) -> bool {
    for i in n..out.len() {
        if out[i] != FILLED {
            return false;
        }
    }
    true
}

fn byte(rt: &impl Print, b: u8) {
    let _byte = print!(rt; " {b:02x}");
}

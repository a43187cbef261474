// Says what a zone sheet holds: reads a sheet from standard input and writes one line per record, such as `3 at 13: difference 0 2` for record 3
// at byte 13 of the sheet, or `refused code number`.

#![tactic(auto)]

use sheet::{Comparison, Cursor, Record};
use std::fmt;

// A record as it is shown: its kind and what follows it.
#[derive(Drop)]
struct Shown(Record);

impl fmt::Display for Shown {
    fn fmt<W: fmt::Write>(&self, f: &mut fmt::Formatter<W>) -> fmt::Result {
        match self.0 {
            Record::Constant(c) => write!(f, "constant {c}"),
            Record::X => f.write_str("x"),
            Record::Y => f.write_str("y"),
            Record::Z => f.write_str("z"),
            Record::Sum(a, b) => write!(f, "sum {a} {b}"),
            Record::Difference(a, b) => write!(f, "difference {a} {b}"),
            Record::Product(a, b) => write!(f, "product {a} {b}"),
            Record::Square(a) => write!(f, "square {a}"),
            Record::Face(Comparison::AtMost, a) => write!(f, "face {a}"),
            // A face of a version 2 sheet excludes its own points.
            Record::Face(Comparison::LessThan, a) => write!(f, "strict face {a}"),
            Record::Both(p, q) => write!(f, "both {p} {q}"),
            Record::Either(p, q) => write!(f, "either {p} {q}"),
            Record::Complement(p) => write!(f, "complement {p}"),
        }
    }
}

fn main(rt: HostRuntime) {
    // A sheet whose length agrees has at most 65,537 bytes. One byte more than that disagrees, however many follow.
    let mut input = [0u8; 65538];
    let n = buffers::read_full(&mut rt.stdin(), &mut input);
    tell(&rt, &input[..n]);
}

fn tell(rt: &impl Print, s: &[u8]) {
    match sheet::check(s) {
        Ok(count) => records(rt, s, count),
        Err(why) => {
            let _refused = println!(rt; "refused {} {}", why.code(), why.number());
        }
    }
}

// One line per record, with its number and its byte offset in the sheet.
fn records(rt: &impl Print, s: &[u8], count: usize) {
    let mut c = Cursor::start();
    for n in 0..count {
        let Ok((r, next)) = c.read(s) else {
            return;
        };
        let _record = println!(rt; "{n} at {}: {}", c.at, Shown(r));
        c = next;
    }
}

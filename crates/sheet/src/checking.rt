// The test of a whole sheet.

ghost use Rattle.std.specs.Prelude.{◌≡◌};
ghost use Rattle.sheet.specs.Check.{is_version, check_of};

use crate::{operands, reading};
use replies::Refusal;

fn is_version(version: u8) -> bool
    ensures { result ≡ is_version version }
{
    version == 1 || version == 2
}

// The number of records, or the first refusal in the order of replies 1 to 5.
pub fn check(s: &[u8]) -> Result<usize, Refusal>
    ensures { result ≡ check_of s.now }
{
    if s.len() < 3 {
        return Err(Refusal::Length);
    }
    if bigendian::u16_at(s, 0) as usize + 2 != s.len() {
        return Err(Refusal::Length);
    }
    if !is_version(s[2]) {
        return Err(Refusal::Version);
    }
    let at = reading::stop(s);
    if at < s.len() {
        return Err(Refusal::Record(at));
    }
    operands::check_records(s)
}

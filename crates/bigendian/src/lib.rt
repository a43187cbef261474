// Numbers of several bytes, as in sheets and maps: big-endian, and two's complement if signed.

#![tactic(auto)]

ghost use Rattle.std.specs.Prelude.{◌≡◌, ◌+◌, ◌≤◌, length};
ghost use Rattle.std.proofs.lemmas.List.Edits.{sets};
ghost use Rattle.bigendian.specs.Numbers.{unsigned_at, signed32, signed_at, bytes_of, unsigned32};

// The number in the two bytes of s from `at` on.
#[tactic(auto, unfolding(crate::specs::Numbers::unsigned_at))]
pub fn u16_at(s: &[u8], at: usize) -> u16
    requires { at + 2 ≤ length s.now }
    ensures { result ≡ unsigned_at 2 s.now at }
{
    u16::from_be_bytes([s[at], s[at + 1]])
}

// The number in the four bytes of s from `at` on.
#[tactic(auto, unfolding(crate::specs::Numbers::unsigned_at))]
pub fn u32_at(s: &[u8], at: usize) -> u32
    requires { at + 4 ≤ length s.now }
    ensures { result ≡ unsigned_at 4 s.now at }
{
    u32::from_be_bytes([s[at], s[at + 1], s[at + 2], s[at + 3]])
}

// The signed number in the four bytes of s from `at` on.
#[tactic(auto, unfolding(crate::specs::Numbers::signed32))]
pub fn i32_at(s: &[u8], at: usize) -> i32
    requires { at + 4 ≤ length s.now }
    ensures { result ≡ signed_at s.now at }
{
    u32_at(s, at).cast_signed()
}

// Writes the four bytes of n from `at` on.
#[tactic(auto, using(crate::proofs::Written::four_stored))]
pub fn put_u32(out: &mut [u8], at: usize, n: u32)
    requires { at + 4 ≤ length out.old }
    ensures { out.new ≡ sets out.old at (bytes_of 4 n) }
{
    out[at..at + 4].copy_from_slice(&n.to_be_bytes());
}

// Writes the four bytes of a signed number from `at` on.
#[tactic(auto, unfolding(crate::specs::Numbers::unsigned32))]
pub fn put_i32(out: &mut [u8], at: usize, n: i32)
    requires { at + 4 ≤ length out.old }
    ensures { out.new ≡ sets out.old at (bytes_of 4 (unsigned32 n)) }
{
    put_u32(out, at, n.cast_unsigned());
}

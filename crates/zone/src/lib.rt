// The library's interface for C and Rust: each call has the contract of its inner call, with the reply as a code and a number. A crate is a library or a static
// library, so `zone_c` exports the same calls once more, for C.

#![tactic(auto)]

ghost use Rattle.std.specs.Prelude.{◌≡◌};
ghost use Rattle.zone.specs.Replies.{by_number, zone_check_of, zone_outcome, zone_build_of, zone_refine_of, zone_open_of, zone_lookup_of};

use replies::Refusal;

// A reply by document 01's code and number.
#[repr(C)]
#[derive(Clone, Copy, Debug, PartialEq, Eq)]
pub struct ZoneReply {
    pub code: u32,
    pub number: u64,
}

impl From<Result<usize, Refusal>> for ZoneReply {
    ghost from_gives = { λ reply r. r ≡ by_number reply };

    fn from(reply: Result<usize, Refusal>) -> ZoneReply {
        match reply {
            Ok(n) => ZoneReply {
                code: 0,
                number: n as u64,
            },
            Err(why) => ZoneReply {
                code: why.code(),
                number: why.number() as u64,
            },
        }
    }
}

// Tests a zone sheet, and returns the number of its records.
#[unsafe(no_mangle)]
#[tactic(auto, unfolding(crate::specs::Replies::zone_check_of))]
pub extern "C" fn zone_check(sheet: &[u8]) -> ZoneReply
    ensures { result ≡ zone_check_of sheet.now }
{
    sheet::check(sheet).into()
}

// Builds the zone map of a sheet over a root at the start of `out`, and returns its length. A refusal leaves `out` unchanged.
#[unsafe(no_mangle)]
pub extern "C" fn zone_build(
    sheet: &[u8],
    x: i32,
    y: i32,
    z: i32,
    k: u8,
    d: u8,
    out: &mut [u8],
) -> ZoneReply
    ensures { zone_outcome result out.new ≡ zone_build_of sheet.now (record { x = x; y = y; z = z; k = k; d = d }) out.old }
{
    building::build(sheet, x, y, z, k, d, out).into()
}

// Refines a zone map of a sheet to a depth, at the start of `out`, and returns the new map's length. A refusal leaves `out` unchanged.
#[unsafe(no_mangle)]
#[tactic(auto, unfolding(crate::specs::Replies::zone_refine_of))]
pub extern "C" fn zone_refine(sheet: &[u8], map: &[u8], d: u8, out: &mut [u8]) -> ZoneReply
    ensures { zone_outcome result out.new ≡ zone_refine_of sheet.now map.now d out.old }
{
    refine::refine(sheet, map, d, out).into()
}

// Opens a zone map, whatever its sheet is, and returns the number of its leaves.
#[unsafe(no_mangle)]
#[tactic(auto, unfolding(crate::specs::Replies::zone_open_of))]
pub extern "C" fn zone_open(map: &[u8]) -> ZoneReply
    ensures { result ≡ zone_open_of map.now }
{
    zonemap::open(map).into()
}

// Looks a position up in a zone map. It only reads its inputs.
#[unsafe(no_mangle)]
pub extern "C" fn zone_lookup(sheet: &[u8], map: &[u8], x: i32, y: i32, z: i32) -> ZoneReply
    ensures { result ≡ zone_lookup_of sheet.now map.now (record { x = x; y = y; z = z }) }
{
    lookup::numbered(lookup::lookup(sheet, map, x, y, z)).into()
}

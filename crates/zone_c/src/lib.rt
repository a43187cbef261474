// The library's calls for C: those of `zone`, each with its contract.

#![tactic(auto)]

ghost use Rattle.std.specs.Prelude.{◌≡◌};
ghost use Rattle.zone.specs.Replies.{zone_check_of, zone_outcome, zone_build_of, zone_refine_of, zone_open_of, zone_lookup_of};

use zone::ZoneReply;

// Tests a zone sheet, and returns the number of its records.
#[unsafe(no_mangle)]
pub extern "C" fn zone_check(sheet: &[u8]) -> ZoneReply
    ensures { result ≡ zone_check_of sheet.now }
{
    zone::zone_check(sheet)
}

// Builds the zone map of a sheet over a root at the start of `out`, and returns its length. A refusal leaves `out` unchanged.
#[unsafe(no_mangle)]
pub extern "C" fn zone_build(
    sheet: &[u8],
    x: i32,
    y: i32,
    z: i32,
    k: u8,
    d: u8,
    out: &mut [u8],
) -> ZoneReply
    ensures { zone_outcome result out.new ≡ zone_build_of sheet.now (record { x = x; y = y; z = z; k = k; d = d }) out.old }
{
    zone::zone_build(sheet, x, y, z, k, d, out)
}

// Refines a zone map of a sheet to a depth, at the start of `out`, and returns the new map's length. A refusal leaves `out` unchanged.
#[unsafe(no_mangle)]
pub extern "C" fn zone_refine(sheet: &[u8], map: &[u8], d: u8, out: &mut [u8]) -> ZoneReply
    ensures { zone_outcome result out.new ≡ zone_refine_of sheet.now map.now d out.old }
{
    zone::zone_refine(sheet, map, d, out)
}

// Opens a zone map, whatever its sheet is, and returns the number of its leaves.
#[unsafe(no_mangle)]
pub extern "C" fn zone_open(map: &[u8]) -> ZoneReply
    ensures { result ≡ zone_open_of map.now }
{
    zone::zone_open(map)
}

// Looks a position up in a zone map. It only reads its inputs.
#[unsafe(no_mangle)]
pub extern "C" fn zone_lookup(sheet: &[u8], map: &[u8], x: i32, y: i32, z: i32) -> ZoneReply
    ensures { result ≡ zone_lookup_of sheet.now map.now (record { x = x; y = y; z = z }) }
{
    zone::zone_lookup(sheet, map, x, y, z)
}

// Runs `zone_refine` over the vectors of standard input.

#![tactic(auto)]

ghost use Rattle.std.specs.Prelude.{◌≤◌};

fn main(rt: HostRuntime) {
    vectors::with_input::<65536, _, _>(&mut rt.stdin(), |input| {
        vectors::answer_all(&rt, input, |vector| refine_from(&rt, vector));
    });
}

// A vector is the depth, the number of bytes lent, the number of bytes of the map, the map, and the sheet. One that is too short leaves its line without an
// answer.
fn refine_from(rt: &impl Print, s: &[u8]) {
    if s.len() < 3 {
        return;
    }
    let end = map_end(s[2]);
    if s.len() < end {
        return;
    }
    let mut filled = [build_lines::FILLED; 216];
    let out: &mut [u8] = &mut filled;
    let room = build_lines::room_of(s[1], out);
    let reply = zone::zone_refine(&s[end..], &s[3..end], s[0], &mut out[..room]);
    build_lines::answer(rt, reply.code, reply.number, out);
}

// Where a map of n bytes ends in its vector.
fn map_end(n: u8) -> usize
    ensures { 3 ≤ result }
{
    3 + n as usize
}

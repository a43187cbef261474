// Runs `zone_lookup` over the vectors of standard input, and writes code and number.

#![tactic(auto)]

fn main(rt: HostRuntime) {
    vectors::with_input::<131072, _, _>(&mut rt.stdin(), |input| {
        vectors::answer_all(&rt, input, |vector| look_up_from(&rt, vector));
    });
}

// A vector is the bytes of X, Y and Z, the sheet's length (two bytes, since the length in the sheet may be damaged), the sheet and the map. One that is too short leaves its line without an answer.
fn look_up_from(rt: &impl Print, s: &[u8]) {
    if s.len() < 14 {
        return;
    }
    let end = 14 + bigendian::u16_at(s, 12) as usize;
    if end > s.len() {
        return;
    }
    let reply = zone::zone_lookup(
        &s[14..end],
        &s[end..],
        bigendian::i32_at(s, 0),
        bigendian::i32_at(s, 4),
        bigendian::i32_at(s, 8),
    );
    vectors::answer(rt, reply.code, reply.number);
    let _end = println!(rt);
}

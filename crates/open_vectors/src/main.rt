// Runs `zone_open` over the vectors of standard input, and writes code and number.

#![tactic(auto)]

fn main(rt: HostRuntime) {
    vectors::with_input::<65536, _, _>(&mut rt.stdin(), |input| {
        vectors::answer_all(&rt, input, |vector| open_from(&rt, vector));
    });
}

// A vector is the bytes of the map.
fn open_from(rt: &impl Print, s: &[u8]) {
    let reply = zone::zone_open(s);
    vectors::answer(rt, reply.code, reply.number);
    let _end = println!(rt);
}

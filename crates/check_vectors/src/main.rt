// Runs `zone_check` over the vectors of standard input, and writes code and number.

#![tactic(auto)]

fn main(rt: HostRuntime) {
    vectors::with_input::<65536, _, _>(&mut rt.stdin(), |input| {
        vectors::answer_all(&rt, input, |vector| check_from(&rt, vector));
    });
}

// A vector is the bytes of the sheet.
fn check_from(rt: &impl Print, s: &[u8]) {
    let reply = zone::zone_check(s);
    vectors::answer(rt, reply.code, reply.number);
    let _end = println!(rt);
}

// Runs `zone_build` over the vectors of standard input: those of complement, both and either.

#![tactic(auto)]

fn main(rt: HostRuntime) {
    vectors::with_input::<65536, _, _>(&mut rt.stdin(), |input| {
        build_lines::answer_all(&rt, input);
    });
}

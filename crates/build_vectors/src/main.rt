// Runs `zone_build` over the vectors of standard input: all but those of complement, both and either, and of version 2 sheets.

#![tactic(auto)]

fn main(rt: HostRuntime) {
    vectors::with_input::<65536, _, _>(&mut rt.stdin(), |input| {
        build_lines::answer_all(&rt, input);
    });
}

// The bench program: the bench rack on standard input, a line for each event on standard output.
#![tactic(auto)]

fn main(rt: HostRuntime) {
    bench_run::run(&mut rt.stdin(), &mut rt.stdout());
}

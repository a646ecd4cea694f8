// Generated scripts, whose answers are the Rust's: `replay` on them.
#![tactic(auto)]

use script_io::Telling;

fn main(rt: HostRuntime) {
    script_io::run(rt.stdin(), rt.stdout(), rt.stderr(), Telling::Values);
}

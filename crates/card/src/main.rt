// Document 01's program: a script of calls on a session.
#![tactic(auto)]

use script_io::Telling;

fn main(rt: HostRuntime) {
    script_io::run(rt.stdin(), rt.stdout(), rt.stderr(), Telling::Results);
}

// The stored scripts, each from an opening on: `card` on many sessions, telling the values of events and what is open after each line.
#![tactic(auto)]

use script_io::Telling;

fn main(rt: HostRuntime) {
    script_io::run(rt.stdin(), rt.stdout(), rt.stderr(), Telling::Values);
}

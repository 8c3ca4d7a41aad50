// The probe: reads a script from standard input, and prints one line for each of its calls.
#![tactic(auto)]

mod session;

use script::conversation::converse;
use script::session::Session;
use session::Probe;
use std::io;

fn main(rt: HostRuntime) -> io::Result<()> {
    let mut session = Session::<Probe>::new();
    converse(rt.alloc(), &mut session, &mut rt.stdin(), &mut rt.stdout())
}

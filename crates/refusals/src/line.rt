// The line that is printed for a trial.
use grammar::Language;
use std::io;
use trials::{Call, Lent, tried};

// Tries the call, and prints it, its answer, and how much differs.
pub fn try_call<L: Language>(
    rt: &HostRuntime,
    lent: &Lent<'_, L, L::Row>,
    call: Call,
) -> io::Result<()> {
    let outcome = tried(rt.alloc(), lent, call)?;
    println!(rt; "{call} => {outcome}")
}

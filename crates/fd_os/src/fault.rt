//! Faults of the real thing: each is counted, and the first is said on standard error.

ghost use Rattle.std.specs.Prelude.{◌≡◌, ◌≤◌, Ok, IfOk, OnErr, OnOk};
ghost use Rattle.fd_site.specs.Fault.{Rose};

use fd_site::Failed;
use std::io;

// The system's reason without the number of the error, which std writes behind it.
fn reason(text: &str) -> &str {
    match text.split_once(" (os error ") {
        Some((reason, _)) => reason,
        None => text,
    }
}

/// Says on standard error what failed, and the system's reason: `crashway: WHAT: REASON`.
pub fn say<R: Eprint + AllocGlobal>(rt: &R, what: &str, why: io::Error) {
    // Where this fails too, nobody is left to tell.
    let _said = match format!(in rt.alloc(); "{why}") {
        Ok(text) => {
            let reason = reason(text.as_str());
            eprintln!(rt; "crashway: {what}: {reason}")
        }
        Err(_) => eprintln!(rt; "crashway: {what}: {why}"),
    };
}

/// Says the first loss of what may be lost, as a datagram.
pub(crate) fn lost<R: Eprint + AllocGlobal>(
    rt: &R,
    what: &str,
    losses: &mut u64,
    outcome: io::Result<()>,
) {
    if let Err(why) = outcome {
        if *losses == 0 {
            say(rt, what, why);
        }
        *losses = losses.saturating_add(1);
    }
}

// Counts the fault where there is one, and says the first.
pub(crate) fn counted<T: Drop, R: Eprint + AllocGlobal>(
    rt: &R,
    what: &str,
    faults: &mut u64,
    outcome: io::Result<T>,
) -> Result<T, Failed>
    ensures value { IfOk result (λ value. outcome ≡ Ok value) }
    ensures same { OnOk result (faults.new ≡ faults.old) }
    ensures rising { faults.old ≤ faults.new }
    ensures cause { OnErr result (Rose faults.old faults.new) }
{
    match outcome {
        Ok(value) => Ok(value),
        Err(why) => {
            if *faults == 0 {
                say(rt, what, why);
            }
            *faults = faults.saturating_add(1);
            Err(Failed)
        }
    }
}

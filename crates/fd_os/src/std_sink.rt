//! Standard output as a sink. It tells no bytes.

ghost use Rattle.std.specs.Prelude.{◌≡◌, None};

use crate::fault::counted;
use fd_site::{Failed, Sink};
use std::io;
use std::io::Write;

/// Standard output.
#[derive(Drop)]
pub struct StdSink<'a, R: Print + Eprint + AllocGlobal> {
    rt: &'a R,
    faults: u64,
}

impl<'a, R: Print + Eprint + AllocGlobal> StdSink<'a, R> {
    pub fn new(rt: &'a R) -> StdSink<'a, R>
        ensures { ⟦<StdSink<'a, R> as Sink>⟧.seen result ≡ record { told = None; faults = 0 } }
    {
        StdSink { rt, faults: 0 }
    }
}

impl<R: Print + Eprint + AllocGlobal> Sink for StdSink<'_, R> {
    ghost seen = { λ s. record { told = None; faults = s.faults } };

    fn put(&mut self, bytes: &[u8]) -> Result<(), Failed> {
        let written = io::writer(self.rt).write_all(bytes);
        counted(self.rt, "standard output", &mut self.faults, written)
    }
}

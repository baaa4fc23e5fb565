//! A site that stops after a number of sectors.

ghost use Rattle.std.specs.Prelude.{◌≡◌, ◌⊎◌, ◌+◌, ◌-◌, ◌*◌, ◌/◌, ◌<◌, ◌≤◌, ◌&&◌, [], ◌∷◌, length, false, true, not, nat_lt, IfOk, IfSome, IsSome, IsSomeAnd, IsTrue, OnOk, OnErr, slice_range};
ghost use Rattle.std.specs.Option.{option_map};
ghost use Rattle.fd_site.specs.Contents.{Adds, IsFailedFile, IsFailedPart, IsSectors, Told, file_of, part_of, whole_part, with_entries};
ghost use Rattle.fd_site.specs.Fault.{Rose};
ghost use Rattle.fd_site.specs.Journal.{Create, Sync, Write};
ghost use Rattle.fd_site.specs.Name.{is_good_name};
ghost use Rattle.fd_site.specs.Seen.{Frame, Untouched};
ghost use Rattle.fd_fake.specs.Calls.{risen};
ghost use Rattle.fd_fake.specs.StopSite.{Stops, after_passing, inner_of, seen_of, state_of};

use fd_site::{Failed, Site};

/// A site that passes the first sectors of partition writes to another, in order, and then stops: the write in which
/// their number is used up passes its first sectors alone and fails, and every later one passes nothing and fails.
/// All other calls are passed on.
#[derive(Drop)]
pub struct StopSite<'a, S: Site> {
    inner: &'a mut S,
    left: u64,
    faults: u64,
    inner_failed: bool,
}

impl<'a, S: Site> StopSite<'a, S> {
    /// Passes so many sectors.
    pub fn new(inner: &'a mut S, sectors: u64) -> StopSite<'a, S>
        ensures inner { inner_of result ≡ inner.old }
        ensures state { state_of result ≡ record { left = sectors; faults = 0; inner_failed = false } }
    {
        StopSite {
            inner,
            left: sectors,
            faults: 0,
            inner_failed: false,
        }
    }

    /// Whether it failed a write itself, and no call of the inner site through it failed.
    pub fn stopped(&self) -> bool
        ensures { result ≡ (nat_lt 0 (state_of self.now).faults && not (state_of self.now).inner_failed) }
    {
        self.faults > 0 && !self.inner_failed
    }

    // What a call of the inner site answered, and that it failed.
    fn noted<T>(&mut self, answer: Result<T, Failed>) -> Result<T, Failed>
        ensures answer { result ≡ answer }
        ensures inner { inner_of self.new ≡ inner_of self.old }
        ensures ok_state { OnOk answer (state_of self.new ≡ state_of self.old) }
        ensures err_state { OnErr answer (state_of self.new ≡ record (state_of self.old) { inner_failed = true }) }
    {
        if answer.is_err() {
            self.inner_failed = true;
        }
        answer
    }

    // Passes a write on.
    fn pass(&mut self, at: u64, bytes: &[u8]) -> Result<(), Failed>
        requires { IsSectors at (length bytes.now) (S.seen (inner_of self.old)).size }
        ensures ok { OnOk result ((S.seen (inner_of self.new)).told ≡ with_entries (S.seen (inner_of self.old)).told (whole_part at bytes.now ∷ [])) }
        ensures err { OnErr result (Adds (IsFailedPart at bytes.now) (S.seen (inner_of self.old)).told (S.seen (inner_of self.new)).told) }
        ensures frame { Frame (S.seen (inner_of self.old)) (S.seen (inner_of self.new)) }
        ensures cause { OnErr result (Rose (S.seen (inner_of self.old)).faults (S.seen (inner_of self.new)).faults) }
        ensures ok_state { OnOk result (state_of self.new ≡ state_of self.old) }
        ensures err_state { OnErr result (state_of self.new ≡ record (state_of self.old) { inner_failed = true }) }
    {
        let answer = self.inner.write_part(at, bytes);
        self.noted(answer)
    }

    // Fails a write itself.
    fn stop(&mut self) -> Failed
        ensures inner { inner_of self.new ≡ inner_of self.old }
        ensures state { state_of self.new ≡ record (state_of self.old) { faults = risen (state_of self.old).faults } }
    {
        self.faults = self.faults.saturating_add(1);
        Failed
    }
}

impl<'a, S: Site> Site for StopSite<'a, S> {
    ghost seen = { λ s. seen_of S.seen s };

    fn size(&self) -> u64 {
        self.inner.size()
    }

    fn block(&self) -> u32 {
        self.inner.block()
    }

    fn read_part(&mut self, at: u64, out: &mut [u8]) -> Result<(), Failed>
        requires { IsSectors at (length out.old) (seen_of S.seen self.old).size }
        ensures bytes { OnOk result (Told (seen_of S.seen self.old).told (λ c. out.new ≡ slice_range (part_of c) at (at + length out.old))) }
        ensures untouched { Untouched (seen_of S.seen self.old) (seen_of S.seen self.new) }
        ensures cause { OnErr result (Rose (seen_of S.seen self.old).faults (seen_of S.seen self.new).faults) }
        ensures ok_state { OnOk result (state_of self.new ≡ state_of self.old) }
        ensures err_state { OnErr result (state_of self.new ≡ record (state_of self.old) { inner_failed = true }) }
    {
        let answer = self.inner.read_part(at, out);
        self.noted(answer)
    }

    #[tactic(auto, using(crate::proofs::Stopped::adds_first, crate::proofs::Stopped::adds_of_first, fd_site::proofs::Told::adds_no_part))]
    fn write_part(&mut self, at: u64, bytes: &[u8]) -> Result<(), Failed>
        requires { IsSectors at (length bytes.now) (seen_of S.seen self.old).size }
        ensures ok { OnOk result ((seen_of S.seen self.new).told ≡ with_entries (seen_of S.seen self.old).told (whole_part at bytes.now ∷ [])) }
        ensures err { OnErr result (Adds (IsFailedPart at bytes.now) (seen_of S.seen self.old).told (seen_of S.seen self.new).told) }
        ensures frame { Frame (seen_of S.seen self.old) (seen_of S.seen self.new) }
        ensures cause { OnErr result (Rose (seen_of S.seen self.old).faults (seen_of S.seen self.new).faults) }
        ensures fits { OnOk result (length bytes.now ≤ (state_of self.old).left * 512) }
        ensures ok_state { OnOk result (state_of self.new ≡ after_passing (state_of self.old) bytes.now) }
        ensures err_state { OnErr result
            ((state_of self.new ≡ record (after_passing (state_of self.old) bytes.now) { inner_failed = true })
            ⊎ Stops (state_of self.old) (state_of self.new) (seen_of S.seen self.old).told (seen_of S.seen self.new).told at
            bytes.now) }
    {
        let sectors = bytes.len() as u64 / 512;
        let passed = self.left;
        self.left = passed.saturating_sub(sectors);
        if sectors <= passed {
            return self.pass(at, bytes);
        }
        if passed == 0 {
            return Err(self.stop());
        }
        self.pass(at, &bytes[..passed as usize * 512])?;
        Err(self.stop())
    }

    fn file_len(&mut self, name: &str) -> Result<Option<u64>, Failed>
        requires { IsTrue (is_good_name name.now) }
        ensures len { IfOk result (λ len. Told (seen_of S.seen self.old).told (λ c. len ≡ option_map (λ file. length file) (file_of c name.now))) }
        ensures untouched { Untouched (seen_of S.seen self.old) (seen_of S.seen self.new) }
        ensures cause { OnErr result (Rose (seen_of S.seen self.old).faults (seen_of S.seen self.new).faults) }
        ensures ok_state { OnOk result (state_of self.new ≡ state_of self.old) }
        ensures err_state { OnErr result (state_of self.new ≡ record (state_of self.old) { inner_failed = true }) }
    {
        let answer = self.inner.file_len(name);
        self.noted(answer)
    }

    fn read_file(&mut self, name: &str, at: u64, out: &mut [u8]) -> Result<(), Failed>
        requires name { IsTrue (is_good_name name.now) }
        requires inside { Told (seen_of S.seen self.old).told (λ c. IsSomeAnd (file_of c name.now) (λ file. at + length out.old ≤ length file)) }
        ensures bytes { OnOk result (Told (seen_of S.seen self.old).told (λ c. IfSome (file_of c name.now) (λ file. out.new ≡ slice_range file at (at + length out.old)))) }
        ensures untouched { Untouched (seen_of S.seen self.old) (seen_of S.seen self.new) }
        ensures cause { OnErr result (Rose (seen_of S.seen self.old).faults (seen_of S.seen self.new).faults) }
        ensures ok_state { OnOk result (state_of self.new ≡ state_of self.old) }
        ensures err_state { OnErr result (state_of self.new ≡ record (state_of self.old) { inner_failed = true }) }
    {
        let answer = self.inner.read_file(name, at, out);
        self.noted(answer)
    }

    fn create(&mut self, name: &str) -> Result<(), Failed>
        requires { IsTrue (is_good_name name.now) }
        ensures ok { OnOk result ((seen_of S.seen self.new).told ≡ with_entries (seen_of S.seen self.old).told (Create name.now ∷ [])) }
        ensures err { OnErr result (Adds (IsFailedFile name.now) (seen_of S.seen self.old).told (seen_of S.seen self.new).told) }
        ensures frame { Frame (seen_of S.seen self.old) (seen_of S.seen self.new) }
        ensures cause { OnErr result (Rose (seen_of S.seen self.old).faults (seen_of S.seen self.new).faults) }
        ensures ok_state { OnOk result (state_of self.new ≡ state_of self.old) }
        ensures err_state { OnErr result (state_of self.new ≡ record (state_of self.old) { inner_failed = true }) }
    {
        let answer = self.inner.create(name);
        self.noted(answer)
    }

    fn write_file(&mut self, name: &str, at: u64, bytes: &[u8]) -> Result<(), Failed>
        requires name { IsTrue (is_good_name name.now) }
        requires there { Told (seen_of S.seen self.old).told (λ c. IsSome (file_of c name.now)) }
        ensures ok { OnOk result ((seen_of S.seen self.new).told ≡ with_entries (seen_of S.seen self.old).told (Write name.now at bytes.now ∷ [])) }
        ensures err { OnErr result (Adds (IsFailedFile name.now) (seen_of S.seen self.old).told (seen_of S.seen self.new).told) }
        ensures frame { Frame (seen_of S.seen self.old) (seen_of S.seen self.new) }
        ensures cause { OnErr result (Rose (seen_of S.seen self.old).faults (seen_of S.seen self.new).faults) }
        ensures ok_state { OnOk result (state_of self.new ≡ state_of self.old) }
        ensures err_state { OnErr result (state_of self.new ≡ record (state_of self.old) { inner_failed = true }) }
    {
        let answer = self.inner.write_file(name, at, bytes);
        self.noted(answer)
    }

    fn sync_file(&mut self, name: &str) -> Result<(), Failed>
        requires name { IsTrue (is_good_name name.now) }
        requires there { Told (seen_of S.seen self.old).told (λ c. IsSome (file_of c name.now)) }
        ensures ok { OnOk result ((seen_of S.seen self.new).told ≡ with_entries (seen_of S.seen self.old).told (Sync name.now ∷ [])) }
        ensures err { OnErr result (Adds (IsFailedFile name.now) (seen_of S.seen self.old).told (seen_of S.seen self.new).told) }
        ensures frame { Frame (seen_of S.seen self.old) (seen_of S.seen self.new) }
        ensures cause { OnErr result (Rose (seen_of S.seen self.old).faults (seen_of S.seen self.new).faults) }
        ensures ok_state { OnOk result (state_of self.new ≡ state_of self.old) }
        ensures err_state { OnErr result (state_of self.new ≡ record (state_of self.old) { inner_failed = true }) }
    {
        let answer = self.inner.sync_file(name);
        self.noted(answer)
    }

    ghost told_size = { λ s c is. S.told_size (inner_of s) c is };
}

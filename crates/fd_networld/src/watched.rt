//! A site in memory that is watched while a server calls it.

ghost use Rattle.std.specs.Prelude.{◌≡◌, false, true, OnErr, OnOk, if◌then◌else◌};
ghost use Rattle.fd_networld.specs.Watched.{IsWatched};

use fd_fake::MemSite;
use fd_site::{Failed, Site};

/// A site in memory of which at most `MOST` calls fail, beside those that find no memory.
#[derive(Drop)]
pub(crate) struct Watched<const MOST: usize> {
    pub(crate) site: MemSite,
    pub(crate) waiting: bool,
    pub(crate) failed: bool,
    ghost watched: { IsWatched MOST site.calls waiting failed },
}

impl<const MOST: usize> Watched<MOST> {
    // Notes what a call of the site answered: the one that was waited for, where it failed.
    fn noted<T>(&mut self, answer: Result<T, Failed>) -> Result<T, Failed>
        requires { self.old.site.calls.next ≡ false }
        ensures answer { result ≡ answer }
        ensures site { self.new.site ≡ self.old.site }
        ensures ok { OnOk answer (self.new.failed ≡ self.old.failed) }
        ensures err { OnErr answer (self.new.failed ≡ (if self.old.waiting then true else self.old.failed)) }
    {
        if !self.waiting {
            return answer;
        }
        self.waiting = false;
        if answer.is_err() {
            self.failed = true;
        }
        answer
    }
}

impl<const MOST: usize> Site for Watched<MOST> {
    ghost use Rattle.fd_fake.specs.Disk.{size_of_told};
    ghost use Rattle.fd_networld.specs.Watched.{watched_seen};

    ghost seen = { λ w. watched_seen w.site w.failed };

    fn size(&self) -> u64 {
        self.site.size()
    }

    fn block(&self) -> u32 {
        self.site.block()
    }

    fn read_part(&mut self, at: u64, out: &mut [u8]) -> Result<(), Failed> {
        let _starved = self.site.starved();
        let answer = self.site.read_part(at, out);
        self.noted(answer)
    }

    fn write_part(&mut self, at: u64, bytes: &[u8]) -> Result<(), Failed> {
        let _starved = self.site.starved();
        let answer = self.site.write_part(at, bytes);
        self.noted(answer)
    }

    fn file_len(&mut self, name: &str) -> Result<Option<u64>, Failed> {
        let _starved = self.site.starved();
        let answer = self.site.file_len(name);
        self.noted(answer)
    }

    fn read_file(&mut self, name: &str, at: u64, out: &mut [u8]) -> Result<(), Failed> {
        let _starved = self.site.starved();
        let answer = self.site.read_file(name, at, out);
        self.noted(answer)
    }

    fn create(&mut self, name: &str) -> Result<(), Failed> {
        let _starved = self.site.starved();
        let answer = self.site.create(name);
        self.noted(answer)
    }

    fn write_file(&mut self, name: &str, at: u64, bytes: &[u8]) -> Result<(), Failed> {
        let _starved = self.site.starved();
        let answer = self.site.write_file(name, at, bytes);
        self.noted(answer)
    }

    fn sync_file(&mut self, name: &str) -> Result<(), Failed> {
        let _starved = self.site.starved();
        let answer = self.site.sync_file(name);
        self.noted(answer)
    }

    ghost told_size = { λ w c is. size_of_told w.site.disk c is };
}

//! The whole way of a small machine's dump, over sites in memory.

ghost use Rattle.std.specs.Prelude.{◌≡◌, ◌≤◌, None};
ghost use Rattle.fd_site.specs.Contents.{nothing_told};
ghost use Rattle.fd_site.specs.Fault.{Rose};

use fd_bytes::Arch;
use fd_fake::{MemSink, MemSite};
use fd_image::{Image, Parts, Seg, Sequence, Texts, Windows};
use fd_judge::Why;
use fd_part::good_partition;
use fd_raw::Region;
use fd_site::{Failed, Site};
use fd_way::{Drilled, WayFault, drill};
use std::alloc::{AllocError, Global};
use std::process::Abort;
use std::test::Fail;

const START: u64 = 0x8000_0000;

// The word at an address: in the second, the third and the fifth page it is the address, else 0.
fn word_at(pa: u64) -> u64 {
    match pa / 4096 {
        0x80001 | 0x80002 | 0x80004 => pa,
        _ => 0,
    }
}

fn fill(words: &mut [u8]) {
    for (index, word) in words.chunks_exact_mut(8).enumerate() {
        word.copy_from_slice(&word_at(START.wrapping_add(8 * index as u64)).to_le_bytes());
    }
}

// Six pages.
fn memory(alloc: Global) -> Result<Region, AllocError> {
    let mut bytes = Region::new(alloc, 0x6000)?;
    fill(bytes.view_mut(0, 0x6000));
    Ok(bytes)
}

fn texts(alloc: Global) -> Result<Texts, AllocError> {
    Ok(Texts {
        host: Sequence::new(b"rv".to_vec(alloc)?),
        version: Sequence::new(b"FreeBSD 14".to_vec(alloc)?),
        panic: Sequence::new(b"test".to_vec(alloc)?),
        msgbuf: Sequence::new(b"panic: test\n".to_vec(alloc)?),
        time: 1_700_000_000,
    })
}

fn segments(alloc: Global) -> Result<Vec<Seg>, AllocError> {
    let mut segs = Vec::new(alloc);
    segs.push(Seg {
        start: START,
        bytes: memory(alloc)?,
    })?;
    Ok(segs)
}

// A machine of which these three pages are wanted, and whose page tables are empty.
fn image(alloc: Global) -> Result<Image, Fail> {
    let parts = Parts {
        arch: Arch::Riscv,
        sv48: false,
        segs: Sequence::new(segments(alloc)?),
        avail: Sequence::new([(START, START + 0x6000)].to_vec(alloc)?),
        wanted: Sequence::new([START + 0x1000, START + 0x2000, START + 0x4000].to_vec(alloc)?),
        root: START,
        windows: Windows {
            kernbase: 0xffff_ffc0_0000_0000,
            kernspan: 0x20_0000,
            dmapbase: 0xffff_ffd0_0000_0000,
            dmapend: 0xffff_ffd0_0000_6000,
            dmapphys: START,
        },
        texts: texts(alloc)?,
    };
    Ok(Image::new(parts).ok().ok_or("a valid image")?)
}

// Drills the machine's dump over a site, and compares the answer and the text.
fn drills<S: Site>(
    rt: &impl Abort,
    alloc: Global,
    site: &mut S,
    stop: u64,
    answer: Result<Drilled, WayFault>,
    text: &str,
) -> Result<(), Fail> {
    let image = image(alloc)?;
    let mut out = MemSink::new(alloc, Vec::new(alloc));
    assert!(rt; good_partition(site.size(), site.block()));
    let drilled = drill(
        alloc,
        site,
        &image,
        stop,
        0xffff_ffd0_0000_1000,
        8,
        &mut out,
    );
    assert_eq!(rt; drilled, answer);
    assert_eq!(rt; out.bytes(), text.as_bytes());
    Ok(())
}

const SAVED: Result<Drilled, WayFault> = Ok(Drilled::Saved {
    number: 0,
    length: 32768,
    fault: None,
});

#[test]
fn a_dump_up_to_its_last_header_is_saved_and_read(rt: HostRuntime) -> Result<(), Fail> {
    let alloc = rt.alloc();
    let mut site = MemSite::new(alloc, 106_496, 4096, Vec::new(alloc))?;
    drills(
        &rt,
        alloc,
        &mut site,
        73,
        SAVED,
        "saved vmcore.0 32768\nffffffd000001000 00 10 00 80 00 00 00 00\n",
    )
}

#[test]
fn a_dump_without_its_last_header_is_refused(rt: HostRuntime) -> Result<(), Fail> {
    let alloc = rt.alloc();
    let mut site = MemSite::new(alloc, 106_496, 4096, Vec::new(alloc))?;
    drills(
        &rt,
        alloc,
        &mut site,
        72,
        Ok(Drilled::Refused(Why::NoMagic)),
        "refused 1: no dump\n",
    )
}

// A site that tells nothing and passes each call to another, but inverts each byte that it reads from place 20480 on of a
// saved dump.
#[derive(Drop)]
struct Inverting<S: Site> {
    inner: S,
    faults: u64,
}

// Inverts the bytes that stand at these places or behind them.
fn invert(bytes: &mut [u8], at: u64) {
    for (index, byte) in bytes.iter_mut().enumerate() {
        if at.saturating_add(index as u64) >= 20480 {
            *byte = !*byte;
        }
    }
}

impl<S: Site> Inverting<S> {
    fn fail(&mut self) -> Failed
        ensures inner { self.new.inner ≡ self.old.inner }
        ensures rising { self.old.faults ≤ self.new.faults }
        ensures rose { Rose self.old.faults self.new.faults }
    {
        self.faults = self.faults.saturating_add(1);
        Failed
    }
}

impl<S: Site> Site for Inverting<S> {
    ghost seen = { λ s. record { told = None; size = (S.seen s.inner).size; block = (S.seen s.inner).block; faults = s.faults } };

    fn size(&self) -> u64 {
        self.inner.size()
    }

    fn block(&self) -> u32 {
        self.inner.block()
    }

    fn read_part(&mut self, at: u64, out: &mut [u8]) -> Result<(), Failed> {
        match self.inner.read_part(at, out) {
            Ok(()) => Ok(()),
            Err(_) => Err(self.fail()),
        }
    }

    fn write_part(&mut self, at: u64, bytes: &[u8]) -> Result<(), Failed> {
        match self.inner.write_part(at, bytes) {
            Ok(()) => Ok(()),
            Err(_) => Err(self.fail()),
        }
    }

    fn file_len(&mut self, name: &str) -> Result<Option<u64>, Failed> {
        match self.inner.file_len(name) {
            Ok(len) => Ok(len),
            Err(_) => Err(self.fail()),
        }
    }

    fn read_file(&mut self, name: &str, at: u64, out: &mut [u8]) -> Result<(), Failed> {
        match self.inner.file_len(name) {
            Ok(Some(len)) if at <= len && out.len() as u64 <= len - at => {}
            _ => return Err(self.fail()),
        }
        if self.inner.read_file(name, at, out).is_err() {
            return Err(self.fail());
        }
        if name.starts_with("vmcore.") {
            invert(out, at);
        }
        Ok(())
    }

    fn create(&mut self, name: &str) -> Result<(), Failed> {
        match self.inner.create(name) {
            Ok(()) => Ok(()),
            Err(_) => Err(self.fail()),
        }
    }

    fn write_file(&mut self, name: &str, at: u64, bytes: &[u8]) -> Result<(), Failed> {
        match self.inner.file_len(name) {
            Ok(Some(_)) => {}
            _ => return Err(self.fail()),
        }
        match self.inner.write_file(name, at, bytes) {
            Ok(()) => Ok(()),
            Err(_) => Err(self.fail()),
        }
    }

    fn sync_file(&mut self, name: &str) -> Result<(), Failed> {
        match self.inner.file_len(name) {
            Ok(Some(_)) => {}
            _ => return Err(self.fail()),
        }
        match self.inner.sync_file(name) {
            Ok(()) => Ok(()),
            Err(_) => Err(self.fail()),
        }
    }

    ghost told_size = { λ s c is. nothing_told c is };
}

#[test]
fn what_is_printed_is_read_from_the_saved_file(rt: HostRuntime) -> Result<(), Fail> {
    let alloc = rt.alloc();
    let mut site = Inverting {
        inner: MemSite::new(alloc, 106_496, 4096, Vec::new(alloc))?,
        faults: 0,
    };
    drills(
        &rt,
        alloc,
        &mut site,
        73,
        SAVED,
        "saved vmcore.0 32768\nffffffd000001000 ff ef ff 7f ff ff ff ff\n",
    )
}

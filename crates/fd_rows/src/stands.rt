//! Partitions of 106496 bytes on which nothing stands, the dump of riscv's image, or that dump when it was cleared.

ghost use Rattle.std.specs.Prelude.{◌≡◌, ◌≤◌, [], IfOk, IsTrue, length};
ghost use Rattle.fd_site.specs.Name.{is_good_name};

use crate::image_files::{riscv_image, smaller_image};
use crate::partitions::{check_line, failing_partition, read_sectors, run, words_of};
use fd_fake::{MemSink, MemSite};
use fd_site::{Site, good_name};
use std::alloc::Global;
use std::process::Abort;
use std::test::Fail;

/// The first byte that a dump writes, at most.
const FROM: u64 = 65536;

/// What stands from there on of a partition with the dump of riscv's image, and the files of two images.
#[derive(Drop)]
pub(crate) struct Setting {
    pub block: u32,
    pub live: Vec<u8>,
    images: (Vec<u8>, Vec<u8>),
}

/// Whether one of the words is this one.
pub(crate) fn has_word(words: &str, wanted: &str) -> bool {
    words.split(' ').any(|word| word == wanted)
}

/// What stands on a partition, from the first byte on that a dump writes.
pub(crate) fn bytes_of(
    rt: &impl Abort,
    alloc: Global,
    site: &mut MemSite,
) -> Result<Vec<u8>, Fail> {
    let mut bytes = vec![in alloc; 0u8; 40960]?;
    read_sectors(rt, site, FROM, &mut bytes);
    Ok(bytes)
}

/// Puts these bytes back there.
pub(crate) fn put_back(rt: &impl Abort, site: &mut MemSite, bytes: &[u8]) {
    assert_eq!(rt; site.size(), 106496);
    assert_eq!(rt; bytes.len(), 40960);
    assert!(rt; site.write_part(FROM, bytes).is_ok());
}

// Puts the dump there if it stands.
fn preset_dump(site: &mut MemSite, live: &[u8], stands: bool)
    requires fresh { site.old.disk.journal ≡ [] }
    requires size { length site.old.disk.base_part ≡ 106496 }
    requires live { length live.now ≡ 40960 }
    ensures journal { site.new.disk.journal ≡ [] }
    ensures size { length site.new.disk.base_part ≡ 106496 }
{
    if stands {
        site.preset_part(FROM, live);
    }
}

// Clears the dump if it is cleared.
fn preset_mark(site: &mut MemSite, block: u32, cleared: bool)
    requires fresh { site.old.disk.journal ≡ [] }
    requires size { length site.old.disk.base_part ≡ 106496 }
    requires least { 512 ≤ block }
    requires most { block ≤ 4096 }
    ensures journal { site.new.disk.journal ≡ [] }
{
    if cleared {
        site.preset_part(106496 - u64::from(block), b"Cleared Kernel Dump\0");
    }
}

// Puts an image there that the words name.
fn preset_image(
    alloc: Global,
    site: &mut MemSite,
    name: &'static str,
    image: &[u8],
    words: &str,
) -> Result<(), Fail>
    requires fresh { site.old.disk.journal ≡ [] }
    requires name { IsTrue (is_good_name name.now) }
    ensures journal { site.new.disk.journal ≡ [] }
{
    if has_word(words, name) {
        site.preset_file(name, image.to_vec(alloc)?)?;
    }
    Ok(())
}

impl Setting {
    /// With blocks of so many bytes.
    pub(crate) fn new(rt: &impl Abort, alloc: Global, block: u32) -> Result<Setting, Fail> {
        let mut setting = Setting {
            block,
            live: vec![in alloc; 0u8; 40960]?,
            images: (riscv_image(alloc)?, smaller_image(alloc)?),
        };
        setting.live = setting.dumped(rt, alloc, "dump a.img", "dumped 32768\n")?;
        Ok(setting)
    }

    /// A partition on which nothing stands, the dump is live, or cleared, with the images that the words name. One call fails;
    /// the 0th never comes.
    pub(crate) fn site(
        &self,
        rt: &impl Abort,
        alloc: Global,
        stood: &str,
        words: &str,
        failing: u64,
    ) -> Result<MemSite, Fail>
        ensures { IfOk result (λ site. site.disk.journal ≡ []) }
    {
        assert!(rt; matches!(self.block, 512 | 4096));
        assert_eq!(rt; self.live.len(), 40960);
        let mut site = failing_partition(alloc, 106496, self.block, vec![in alloc; failing]?)?;
        preset_dump(&mut site, &self.live, stood != "none");
        preset_mark(&mut site, self.block, stood == "cleared");
        preset_image(alloc, &mut site, "a.img", &self.images.0, words)?;
        preset_image(alloc, &mut site, "b.img", &self.images.1, words)?;
        Ok(site)
    }

    /// What stands on a zero partition after a dump.
    pub(crate) fn dumped(
        &self,
        rt: &impl Abort,
        alloc: Global,
        words: &str,
        text: &str,
    ) -> Result<Vec<u8>, Fail> {
        let mut site = self.site(rt, alloc, "none", words, 0)?;
        check_line(rt, alloc, &mut site, words, 0, text)?;
        bytes_of(rt, alloc, &mut site)
    }

    /// The dump's bytes.
    pub(crate) fn dump(&self) -> &[u8] {
        body(&self.live, self.block, 32768)
    }
}

/// The bytes of a dump of this length of what stands on a partition.
pub(crate) fn body(stands: &[u8], block: u32, length: usize) -> &[u8] {
    let end = stands.len().saturating_sub(block as usize);
    stands.get(end.saturating_sub(length)..end).unwrap_or(&[])
}

/// What is judged of the partition: nothing, the dump, one that was cleared, the new and smaller one, or something else.
pub(crate) fn judged<S: Site>(alloc: Global, site: &mut S) -> Result<&'static str, Fail> {
    let words = words_of(alloc, &["savecore", "-C"])?;
    let mut out = MemSink::new(alloc, Vec::new(alloc));
    run(alloc, &words, site, &mut out);
    for (line, name) in [
        ("refused 1: no dump\n", "none"),
        ("dump 32768\n", "live"),
        ("refused 3: cleared dump\n", "cleared"),
        ("dump 28672\n", "new"),
    ]
    .as_slice()
    {
        if out.bytes() == line.as_bytes() {
            return Ok(*name);
        }
    }
    Ok("other")
}

/// A file has these bytes.
pub(crate) fn holds<S: Site>(
    rt: &impl Abort,
    alloc: Global,
    site: &mut S,
    name: &str,
    wanted: &[u8],
) -> Result<(), Fail> {
    let mut bytes = vec![in alloc; 0u8; wanted.len()]?;
    assert!(rt; good_name(name));
    match site.file_len(name) {
        Ok(Some(len)) if len == wanted.len() as u64 => {
            assert!(rt; site.read_file(name, 0, &mut bytes).is_ok());
        }
        _ => assert!(rt; false, "{name}"),
    }
    assert!(rt; *bytes == *wanted, "{name}");
    Ok(())
}

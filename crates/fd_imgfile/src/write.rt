//! Writing an image's file.
ghost use Rattle.std.specs.Prelude.{◌≡◌, ◌+◌, ◌*◌, ◌<◌, ◌≤◌, ◌^◌, ◌++◌, IfOk, IsTrue, OnErr, OnOk, length};
ghost use Rattle.std.specs.List.{flat_map};
ghost use Rattle.fd_image.specs.Image.{IsValid};
ghost use Rattle.fd_site.specs.Contents.{Adds};
ghost use Rattle.fd_site.specs.Fault.{Rose};
ghost use Rattle.fd_site.specs.FileJournal.{IsBegunFile, IsFileJournal};
ghost use Rattle.fd_site.specs.Name.{is_good_name};
ghost use Rattle.fd_site.specs.Seen.{Frame};
ghost use Rattle.fd_imgfile.specs.Spelling.{front_of, memory_of, spelling_of, tables_of, texts_of, u64};
ghost use Rattle.fd_site.specs.Writing.{BeginsOn, IsWrittenTo, WritesOn};

use crate::front::{front_in, is_within_limits, spelled};
use crate::tables::{NUMBERS, avail_page, numbers_page, segs_page};
use fd_image::{Image, Seg};
use fd_site::{Failed, Site, SiteFault};

// How many bytes are written at once.
const PART: usize = 1 << 20;

/// Writes the file of an image: makes it empty, writes it from its start on, and syncs it. The answer is its length in
/// bytes. It takes no memory: the texts and the segments are lent to the site. After a fault the file is as far as the
/// journal says.
pub fn write_image<S: Site>(site: &mut S, name: &str, image: &Image) -> Result<u64, SiteFault>
    requires { IsTrue (is_good_name name.now) }
    ensures len { IfOk result (λ len. len ≡ length (spelling_of image.now)) }
    ensures whole { OnOk result (Adds (IsFileJournal name.now (spelling_of image.now)) (S.seen site.old).told (S.seen site.new).told) }
    ensures begun { OnErr result (Adds (IsBegunFile name.now (spelling_of image.now)) (S.seen site.old).told (S.seen site.new).told) }
    ensures frame { Frame (S.seen site.old) (S.seen site.new) }
    ensures cause { OnErr result (Rose (S.seen site.old).faults (S.seen site.new).faults) }
{
    site.create(name)?;
    let len = write_contents(site, name, image)?;
    site.sync_file(name)?;
    Ok(len)
}

// Writes the image to its empty file, and answers how many bytes that are.
fn write_contents<S: Site>(site: &mut S, name: &str, image: &Image) -> Result<u64, Failed>
    requires name { IsTrue (is_good_name name.now) }
    requires made { IsWrittenTo name.now 0 (S.seen site.old).told }
    ensures len { IfOk result (λ len. len ≡ length (spelling_of image.now)) }
    ensures whole { OnOk result (WritesOn name.now 0 (spelling_of image.now) (S.seen site.old).told (S.seen site.new).told) }
    ensures begun { OnErr result (BeginsOn name.now 0 (spelling_of image.now) (S.seen site.old).told (S.seen site.new).told) }
    ensures frame { Frame (S.seen site.old) (S.seen site.new) }
    ensures cause { OnErr result (Rose (S.seen site.old).faults (S.seen site.new).faults) }
{
    is_within_limits(image);
    let texts = image.texts();
    let texts_at = write_tables(site, name, image)?;
    let parts = [
        texts.host.as_slice(),
        texts.version.as_slice(),
        texts.panic.as_slice(),
        texts.msgbuf.as_slice(),
    ];
    let memory_at = write_parts(site, name, texts_at, &parts)?;
    write_segments(site, name, memory_at, image.segs())
}

// Writes the fields and the tables, each from a buffer of its own, and answers where the texts begin.
fn write_tables<S: Site>(site: &mut S, name: &str, image: &Image) -> Result<u64, Failed>
    requires name { IsTrue (is_good_name name.now) }
    requires made { IsWrittenTo name.now 0 (S.seen site.old).told }
    ensures end { IfOk result (λ end. end ≡ length (front_of image.now ++ tables_of image.now)) }
    ensures whole { OnOk result (WritesOn name.now 0 (front_of image.now ++ tables_of image.now) (S.seen site.old).told (S.seen site.new).told) }
    ensures begun { OnErr result (BeginsOn name.now 0 (front_of image.now ++ tables_of image.now) (S.seen site.old).told (S.seen site.new).told) }
    ensures frame { Frame (S.seen site.old) (S.seen site.new) }
    ensures cause { OnErr result (Rose (S.seen site.old).faults (S.seen site.new).faults) }
{
    is_within_limits(image);
    let front = spelled(&front_in(image));
    let segs = segs_page(image.segs());
    let avail = avail_page(image.avail());
    let parts = [front.filled(), segs.filled(), avail.filled()];
    let wanted_at = write_parts(site, name, 0, &parts)?;
    write_wanted(site, name, wanted_at, image.wanted())
}

// Writes the table of wanted pages from `at` on, a buffer at a time, and answers where it ends.
fn write_wanted<S: Site>(site: &mut S, name: &str, at: u64, wanted: &[u64]) -> Result<u64, Failed>
    requires name { IsTrue (is_good_name name.now) }
    requires made { IsWrittenTo name.now at (S.seen site.old).told }
    requires fits { at + 8 * length wanted.now < 2 ^ 64 }
    ensures end { IfOk result (λ end. end ≡ at + 8 * length wanted.now) }
    ensures whole { OnOk result (WritesOn name.now at (flat_map u64 wanted.now) (S.seen site.old).told (S.seen site.new).told) }
    ensures begun { OnErr result (BeginsOn name.now at (flat_map u64 wanted.now) (S.seen site.old).told (S.seen site.new).told) }
    ensures frame { Frame (S.seen site.old) (S.seen site.new) }
    ensures cause { OnErr result (Rose (S.seen site.old).faults (S.seen site.new).faults) }
{
    let mut next = at;
    let mut done = 0;
    while done < wanted.len() {
        let count = (wanted.len() - done).min(NUMBERS);
        let page = numbers_page(&wanted[done..done + count]);
        next = write_bytes(site, name, next, page.filled())?;
        done += count;
    }
    Ok(next)
}

// Writes the bytes of the segments from `at` on, one after another, and answers where they end.
fn write_segments<S: Site>(site: &mut S, name: &str, at: u64, segs: &[Seg]) -> Result<u64, Failed>
    requires name { IsTrue (is_good_name name.now) }
    requires made { IsWrittenTo name.now at (S.seen site.old).told }
    requires fits { at + length (flat_map (λ seg. seg.bytes) segs.now) < 2 ^ 64 }
    ensures end { IfOk result (λ end. end ≡ at + length (flat_map (λ seg. seg.bytes) segs.now)) }
    ensures whole { OnOk result (WritesOn name.now at (flat_map (λ seg. seg.bytes) segs.now) (S.seen site.old).told (S.seen site.new).told) }
    ensures begun { OnErr result (BeginsOn name.now at (flat_map (λ seg. seg.bytes) segs.now) (S.seen site.old).told (S.seen site.new).told) }
    ensures frame { Frame (S.seen site.old) (S.seen site.new) }
    ensures cause { OnErr result (Rose (S.seen site.old).faults (S.seen site.new).faults) }
{
    let mut next = at;
    for seg in segs {
        next = write_bytes(site, name, next, seg.bytes.view(0, seg.bytes.len()))?;
    }
    Ok(next)
}

// Writes these parts from `at` on, one after another, and answers where they end.
fn write_parts<S: Site>(site: &mut S, name: &str, at: u64, parts: &[&[u8]]) -> Result<u64, Failed>
    requires name { IsTrue (is_good_name name.now) }
    requires made { IsWrittenTo name.now at (S.seen site.old).told }
    requires fits { at + length (flat_map (λ part. part.now) parts.now) < 2 ^ 64 }
    ensures end { IfOk result (λ end. end ≡ at + length (flat_map (λ part. part.now) parts.now)) }
    ensures whole { OnOk result (WritesOn name.now at (flat_map (λ part. part.now) parts.now) (S.seen site.old).told (S.seen site.new).told) }
    ensures begun { OnErr result (BeginsOn name.now at (flat_map (λ part. part.now) parts.now) (S.seen site.old).told (S.seen site.new).told) }
    ensures frame { Frame (S.seen site.old) (S.seen site.new) }
    ensures cause { OnErr result (Rose (S.seen site.old).faults (S.seen site.new).faults) }
{
    let mut next = at;
    for part in parts {
        next = write_bytes(site, name, next, part)?;
    }
    Ok(next)
}

// Writes the bytes from `at` on, a part at a time, and answers where they end.
fn write_bytes<S: Site>(site: &mut S, name: &str, at: u64, bytes: &[u8]) -> Result<u64, Failed>
    requires name { IsTrue (is_good_name name.now) }
    requires made { IsWrittenTo name.now at (S.seen site.old).told }
    requires fits { at + length bytes.now < 2 ^ 64 }
    ensures end { IfOk result (λ end. end ≡ at + length bytes.now) }
    ensures whole { OnOk result (WritesOn name.now at bytes.now (S.seen site.old).told (S.seen site.new).told) }
    ensures begun { OnErr result (BeginsOn name.now at bytes.now (S.seen site.old).told (S.seen site.new).told) }
    ensures frame { Frame (S.seen site.old) (S.seen site.new) }
    ensures cause { OnErr result (Rose (S.seen site.old).faults (S.seen site.new).faults) }
{
    let mut done = 0;
    while done < bytes.len() {
        let count = (bytes.len() - done).min(PART);
        site.write_file(name, at + done as u64, &bytes[done..done + count])?;
        done += count;
    }
    Ok(at + done as u64)
}

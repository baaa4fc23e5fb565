//! Reading an image's file.
ghost use Rattle.std.specs.Prelude.{◌≡◌, ◌+◌, ◌*◌, ◌≤◌, ◌<◌, ◌^◌, IsTrue, IfOk, IsErrOf, OnOk, None, Some, length, All, map, slice_range, sum};
ghost use Rattle.std.specs.List.{concat, flat_map, sum_by};
ghost use Rattle.fd_site.specs.Contents.{Told, file_of};
ghost use Rattle.fd_site.specs.Fault.{Rose};
ghost use Rattle.fd_site.specs.Name.{is_good_name};
ghost use Rattle.fd_site.specs.Seen.{Untouched};
ghost use Rattle.fd_imgfile.specs.File.{HasLength, IsFileAnd, OfFile};
ghost use Rattle.fd_imgfile.specs.Front.{HasCounts, HasLengths, IsFront, IsWithinLimits, bytes_of, lengths_in, second, tables_length, texts_length};
ghost use Rattle.fd_imgfile.specs.Reading.{IsReading, OnNotImage, SaysNothing, SpellsImage, fault_place};
ghost use Rattle.fd_imgfile.specs.Spelling.{avail_bytes, seg_bytes, texts_of};
ghost use Rattle.fd_imgfile.specs.declared.fault.ImageFault.TheVariants.{NoMemory, SiteFault};

use crate::fault::ImageFault;
use crate::front::{Front, read_fields, tables_length, texts_length};
use crate::tables::{Tables, tables_in, whole_length};
use fd_image::{Image, Parts, Seg, Sequence, Texts};
use fd_raw::{Filling, Region};
use fd_site::Site;
use std::alloc::Global;

// How many bytes of a segment are read at once.
const PART: usize = 256 << 10;

/// Reads the image of a file. The file is no image where its fields, its tables or its length say so; else the image may
/// break one of its rules. Memory is taken from `alloc` once the length is known to be right, and the segments' bytes are
/// read to where they stay.
pub fn read_image<S: Site>(alloc: Global, site: &mut S, name: &str) -> Result<Image, ImageFault>
    requires { IsTrue (is_good_name name.now) }
    ensures reading { Told (S.seen site.old).told (λ c. IsReading (file_of c name.now) result) }
    ensures untouched { Untouched (S.seen site.old) (S.seen site.new) }
    ensures cause { IsErrOf result SiteFault → Rose (S.seen site.old).faults (S.seen site.new).faults }
{
    let len = match site.file_len(name)? {
        Some(len) => len,
        None => return Err(ImageFault::NoFile),
    };
    let parts = read_parts(alloc, site, name, len)?;
    match Image::new(parts) {
        Ok(image) => Ok(image),
        Err(bad) => Err(ImageFault::BadImage(bad)),
    }
}

// The image that a file of this length spells, valid or not.
fn read_parts<S: Site>(
    alloc: Global,
    site: &mut S,
    name: &str,
    len: u64,
) -> Result<Parts, ImageFault>
    requires name { IsTrue (is_good_name name.now) }
    requires length { HasLength (S.seen site.old).told name.now len }
    ensures parts { IfOk result (λ m. IsFileAnd (S.seen site.old).told name.now (λ file. SpellsImage file m)) }
    ensures refused { OnNotImage result (λ place. OfFile (S.seen site.old).told name.now (λ file. fault_place file ≡ Some place)) }
    ensures want { IsErrOf result NoMemory → IsFileAnd (S.seen site.old).told name.now (λ file. fault_place file ≡ None) }
    ensures untouched { Untouched (S.seen site.old) (S.seen site.new) }
    ensures cause { IsErrOf result SiteFault → Rose (S.seen site.old).faults (S.seen site.new).faults }
{
    let front = read_front(site, name, len)?;
    let tables = read_tables(alloc, site, name, len, &front)?;
    let texts_at = 112 + tables_length(&front);
    let memory_at = texts_at + texts_length(&front);
    let texts = read_texts(alloc, site, name, texts_at, &front)?;
    let segs = read_segments(alloc, site, name, memory_at, tables.segs.as_slice())?;
    Ok(Parts {
        arch: front.arch,
        sv48: front.sv48,
        segs: Sequence::new(segs),
        avail: Sequence::new(tables.avail),
        wanted: Sequence::new(tables.wanted),
        root: front.root,
        windows: front.windows,
        texts,
    })
}

// The fields of a file of this length. It takes no memory.
fn read_front<S: Site>(site: &mut S, name: &str, len: u64) -> Result<Front, ImageFault>
    requires name { IsTrue (is_good_name name.now) }
    requires length { HasLength (S.seen site.old).told name.now len }
    ensures front { IfOk result (λ front. OfFile (S.seen site.old).told name.now (λ file. IsFront file front)) }
    ensures limits { IfOk result (λ front. IsWithinLimits front) }
    ensures refused { OnNotImage result (λ place. OfFile (S.seen site.old).told name.now (λ file. fault_place file ≡ Some place)) }
    ensures free { IsErrOf result NoMemory → ⊥ }
    ensures untouched { Untouched (S.seen site.old) (S.seen site.new) }
    ensures cause { IsErrOf result SiteFault → Rose (S.seen site.old).faults (S.seen site.new).faults }
{
    if len < 112 {
        return Err(ImageFault::NotImage(len));
    }
    let mut bytes = [0; 112];
    site.read_file(name, 0, &mut bytes)?;
    match read_fields(&bytes) {
        Ok(front) => Ok(front),
        Err(place) => Err(ImageFault::NotImage(place)),
    }
}

// The file's bytes from `at` on, `len` of them.
fn read_bytes<S: Site>(
    alloc: Global,
    site: &mut S,
    name: &str,
    at: u64,
    len: u64,
) -> Result<Vec<u8>, ImageFault>
    requires name { IsTrue (is_good_name name.now) }
    requires inside { IsFileAnd (S.seen site.old).told name.now (λ file. at + len ≤ length file) }
    ensures bytes { IfOk result (λ bytes. OfFile (S.seen site.old).told name.now (λ file. bytes.items ≡ slice_range file at (at + len))) }
    ensures len { IfOk result (λ bytes. length bytes.items ≡ len) }
    ensures silent { SaysNothing result }
    ensures untouched { Untouched (S.seen site.old) (S.seen site.new) }
    ensures cause { IsErrOf result SiteFault → Rose (S.seen site.old).faults (S.seen site.new).faults }
{
    let mut bytes = vec![in alloc; 0u8; len as usize]?;
    site.read_file(name, at, bytes.as_mut_slice())?;
    prove!(bytes.len() as u64 == len);
    Ok(bytes)
}

// The file's bytes from `at` on, `len` of them, read to where they stay. Each part is made zero and read in turn, while
// it is in the processor's cache.
fn read_region<S: Site>(
    alloc: Global,
    site: &mut S,
    name: &str,
    at: u64,
    len: u64,
) -> Result<Region, ImageFault>
    requires name { IsTrue (is_good_name name.now) }
    requires inside { IsFileAnd (S.seen site.old).told name.now (λ file. at + len ≤ length file) }
    requires fits { at + len < 2 ^ 64 }
    ensures bytes { IfOk result (λ region. OfFile (S.seen site.old).told name.now (λ file. region ≡ slice_range file at (at + len))) }
    ensures len { IfOk result (λ region. length region ≡ len) }
    ensures silent { SaysNothing result }
    ensures untouched { Untouched (S.seen site.old) (S.seen site.new) }
    ensures cause { IsErrOf result SiteFault → Rose (S.seen site.old).faults (S.seen site.new).faults }
{
    let mut filling = Filling::with_room(alloc, len as usize)?;
    while filling.len() < filling.room() {
        let done = filling.len();
        let count = (filling.room() - done).min(PART);
        filling.grow_by_zeros(count);
        site.read_file(name, at + done as u64, filling.view_mut(done, count))?;
    }
    Ok(Region::of(filling))
}

// Reads the table of segments, where a file of this length that begins with these fields has the length that they and the
// table give it. It takes no memory.
fn read_table<S: Site>(
    site: &mut S,
    name: &str,
    len: u64,
    front: &Front,
    table: &mut [u8],
) -> Result<(), ImageFault>
    requires name { IsTrue (is_good_name name.now) }
    requires length { HasLength (S.seen site.old).told name.now len }
    requires front { OfFile (S.seen site.old).told name.now (λ file. IsFront file front.now) }
    requires limits { IsWithinLimits front.now }
    requires room { length table.old ≡ 16 * front.now.segs }
    ensures whole { OnOk result (112 + tables_length front.now + texts_length front.now + sum (lengths_in table.new front.now.segs) ≡ len) }
    ensures bytes { OnOk result (OfFile (S.seen site.old).told name.now (λ file. table.new ≡ slice_range file 112 (112 + 16 * front.now.segs))) }
    ensures no_fault { OnOk result (OfFile (S.seen site.old).told name.now (λ file. fault_place file ≡ None)) }
    ensures refused { OnNotImage result (λ place. OfFile (S.seen site.old).told name.now (λ file. fault_place file ≡ Some place)) }
    ensures free { IsErrOf result NoMemory → ⊥ }
    ensures untouched { Untouched (S.seen site.old) (S.seen site.new) }
    ensures cause { IsErrOf result SiteFault → Rose (S.seen site.old).faults (S.seen site.new).faults }
{
    if len < 112 + tables_length(front) {
        return Err(ImageFault::NotImage(len));
    }
    site.read_file(name, 112, table)?;
    let whole = whole_length(front, table);
    if u128::from(len) != whole {
        return Err(ImageFault::NotImage(u128::from(len).min(whole) as u64));
    }
    Ok(())
}

// The tables of a file of this length that begins with these fields, where it has the length that they give it.
fn read_tables<S: Site>(
    alloc: Global,
    site: &mut S,
    name: &str,
    len: u64,
    front: &Front,
) -> Result<Tables, ImageFault>
    requires name { IsTrue (is_good_name name.now) }
    requires length { HasLength (S.seen site.old).told name.now len }
    requires front { OfFile (S.seen site.old).told name.now (λ file. IsFront file front.now) }
    requires limits { IsWithinLimits front.now }
    ensures whole { IfOk result (λ t. 112 + tables_length front.now + texts_length front.now + sum_by second t.segs.items ≡ len) }
    ensures spelling { IfOk result (λ t. OfFile (S.seen site.old).told name.now (λ file. bytes_of t ≡ slice_range file 112 (112 + tables_length front.now))) }
    ensures no_fault { IfOk result (λ _. OfFile (S.seen site.old).told name.now (λ file. fault_place file ≡ None)) }
    ensures counts { IfOk result (λ t. HasCounts t front.now) }
    ensures refused { OnNotImage result (λ place. OfFile (S.seen site.old).told name.now (λ file. fault_place file ≡ Some place)) }
    ensures want { IsErrOf result NoMemory → OfFile (S.seen site.old).told name.now (λ file. fault_place file ≡ None) }
    ensures untouched { Untouched (S.seen site.old) (S.seen site.new) }
    ensures cause { IsErrOf result SiteFault → Rose (S.seen site.old).faults (S.seen site.new).faults }
{
    let mut buffer = [0; 1024];
    let table = &mut buffer[..16 * front.segs as usize];
    read_table(site, name, len, front, table)?;
    let ranges_at = 112 + 16 * u64::from(front.segs);
    let ranges_len = 16 * u64::from(front.avail) + 8 * u64::from(front.wanted);
    let ranges = read_bytes(alloc, site, name, ranges_at, ranges_len)?;
    Ok(tables_in(alloc, table, ranges.as_slice(), front)?)
}

// The texts, which stand one after another from `at` on.
fn read_texts<S: Site>(
    alloc: Global,
    site: &mut S,
    name: &str,
    at: u64,
    front: &Front,
) -> Result<Texts, ImageFault>
    requires name { IsTrue (is_good_name name.now) }
    requires inside { IsFileAnd (S.seen site.old).told name.now (λ file. at + texts_length front.now ≤ length file) }
    requires fits { at + texts_length front.now < 2 ^ 64 }
    ensures texts { IfOk result (λ t. OfFile (S.seen site.old).told name.now (λ file. texts_of t ≡ slice_range file at (at + texts_length front.now))) }
    ensures lengths { IfOk result (λ t. HasLengths t front.now) }
    ensures silent { SaysNothing result }
    ensures untouched { Untouched (S.seen site.old) (S.seen site.new) }
    ensures cause { IsErrOf result SiteFault → Rose (S.seen site.old).faults (S.seen site.new).faults }
{
    let version_at = at + u64::from(front.host);
    let panic_at = version_at + u64::from(front.version);
    let msgbuf_at = panic_at + u64::from(front.panic);
    Ok(Texts {
        host: Sequence::new(read_bytes(alloc, site, name, at, u64::from(front.host))?),
        version: Sequence::new(read_bytes(
            alloc,
            site,
            name,
            version_at,
            u64::from(front.version),
        )?),
        panic: Sequence::new(read_bytes(alloc, site, name, panic_at, u64::from(front.panic))?),
        msgbuf: Sequence::new(read_bytes(alloc, site, name, msgbuf_at, u64::from(front.msgbuf))?),
        time: front.time,
    })
}

// The segments of this table, whose bytes stand one after another from `at` on.
fn read_segments<S: Site>(
    alloc: Global,
    site: &mut S,
    name: &str,
    at: u64,
    table: &[(u64, u64)],
) -> Result<Vec<Seg>, ImageFault>
    requires name { IsTrue (is_good_name name.now) }
    requires inside { IsFileAnd (S.seen site.old).told name.now (λ file. at + sum_by second table.now ≤ length file) }
    requires fits { at + sum_by second table.now < 2 ^ 64 }
    ensures table { IfOk result (λ segs. flat_map seg_bytes segs.items ≡ flat_map avail_bytes table.now) }
    ensures places { IfOk result (λ segs. length segs.items ≡ length table.now) }
    ensures memory { IfOk result (λ segs. OfFile (S.seen site.old).told name.now (λ file. concat (map (λ seg. seg.bytes) segs.items) ≡ slice_range file at (at + sum_by second table.now))) }
    ensures sizes { IfOk result (λ segs. All (λ seg. length seg.bytes < 2 ^ 64) segs.items) }
    ensures silent { SaysNothing result }
    ensures untouched { Untouched (S.seen site.old) (S.seen site.new) }
    ensures cause { IsErrOf result SiteFault → Rose (S.seen site.old).faults (S.seen site.new).faults }
{
    let mut segs = Vec::new(alloc);
    let mut next = at;
    for pair in table {
        let (start, size) = *pair;
        let bytes = read_region(alloc, site, name, next, size)?;
        match segs.push(Seg { start, bytes }) {
            Ok(()) => next += size,
            Err(_) => return Err(ImageFault::NoMemory),
        }
    }
    Ok(segs)
}

//! The fields with which an image's file begins.
ghost use Rattle.std.specs.Prelude.{◌≡◌, ◌+◌, ◌<◌, ◌≤◌, ◌^◌, ◌++◌, IfNone, None, IfOk, IfErr, Some, IsTrue, length, slice_range, sum_by};
ghost use Rattle.fd_bytes.specs.Field.{u32_le_at};
ghost use Rattle.fd_image.specs.Image.{is_known_paging};
ghost use Rattle.fd_imgfile.specs.Front.{fields_of, front_in, IsCounted, IsWithinLimits, tables_length, texts_length};
ghost use Rattle.fd_imgfile.specs.Reading.{first_broken, front_checks, within};
ghost use Rattle.fd_imgfile.specs.Spelling.{number_of, u32, windows_of};

use fd_bytes::{Arch, Page, get_u32_le, get_u64_le};
use fd_image::{Image, Windows};

const MAGIC: [u8; 16] = *b"FD MACHINE IMAGE";

/// What the fields behind the magic and the version say: how many segments, pairs of available memory and wanted pages
/// the tables have, how many bytes each text has, and the image's own numbers.
#[derive(Clone, Copy)]
pub(crate) struct Front {
    pub(crate) arch: Arch,
    pub(crate) sv48: bool,
    pub(crate) segs: u32,
    pub(crate) avail: u32,
    pub(crate) wanted: u32,
    pub(crate) host: u32,
    pub(crate) version: u32,
    pub(crate) panic: u32,
    pub(crate) msgbuf: u32,
    pub(crate) root: u64,
    pub(crate) windows: Windows,
    pub(crate) time: u64,
}

/// The counts and the lengths of an image are within their limits, and so is its memory. This has no effect.
pub(crate) fn is_within_limits(image: &Image)
    ensures fields { IsWithinLimits (front_in image.now) }
    ensures memory { sum_by (λ seg. length seg.bytes) image.now.segs ≤ 2 ^ 30 }
{
    image.arch();
}

/// The fields of an image.
pub(crate) fn front_in(image: &Image) -> Front
    ensures { result ≡ front_in image.now }
{
    is_within_limits(image);
    let texts = image.texts();
    Front {
        arch: image.arch(),
        sv48: image.sv48(),
        segs: image.segs().len() as u32,
        avail: image.avail().len() as u32,
        wanted: image.wanted().len() as u32,
        host: texts.host.len() as u32,
        version: texts.version.len() as u32,
        panic: texts.panic.len() as u32,
        msgbuf: texts.msgbuf.len() as u32,
        root: image.root(),
        windows: image.windows(),
        time: texts.time,
    }
}

/// The 112 bytes of the fields.
pub(crate) fn spelled(front: &Front) -> Page<112>
    ensures { result ≡ fields_of front.now }
{
    let mut page = Page::new();
    page.put(&MAGIC);
    page.put_u32_le(1);
    page.put_u32_le(number_of(front.arch, front.sv48));
    put_counts(&mut page, front);
    page.put_u32_le(0);
    page.put_u64_le(front.root);
    put_windows(&mut page, &front.windows);
    page.put_u64_le(front.time);
    page
}

fn put_counts(page: &mut Page<112>, front: &Front)
    requires { length page.old ≡ 24 }
    ensures bytes { page.new ≡ page.old ++ (u32 front.now.segs ++ u32 front.now.avail ++ u32 front.now.wanted) ++
        (u32 front.now.host ++ u32 front.now.version ++ u32 front.now.panic ++ u32 front.now.msgbuf) }
    ensures len { length page.new ≡ 52 }
{
    page.put_u32_le(front.segs);
    page.put_u32_le(front.avail);
    page.put_u32_le(front.wanted);
    page.put_u32_le(front.host);
    page.put_u32_le(front.version);
    page.put_u32_le(front.panic);
    page.put_u32_le(front.msgbuf);
}

fn put_windows(page: &mut Page<112>, windows: &Windows)
    requires { length page.old ≡ 64 }
    ensures bytes { page.new ≡ page.old ++ windows_of windows.now }
    ensures len { length page.new ≡ 104 }
{
    page.put_u64_le(windows.kernbase);
    page.put_u64_le(windows.kernspan);
    page.put_u64_le(windows.dmapbase);
    page.put_u64_le(windows.dmapend);
    page.put_u64_le(windows.dmapphys);
}

/// How many bytes the tables take.
pub(crate) fn tables_length(front: &Front) -> u64
    ensures { result ≡ tables_length front.now }
{
    16 * u64::from(front.segs) + 16 * u64::from(front.avail) + 8 * u64::from(front.wanted)
}

/// How many bytes the texts take.
pub(crate) fn texts_length(front: &Front) -> u64
    ensures { result ≡ texts_length front.now }
{
    u64::from(front.host)
        + u64::from(front.version)
        + u64::from(front.panic)
        + u64::from(front.msgbuf)
}

/// The fields, or the place of the first that no image has there.
pub(crate) fn read_fields(bytes: &[u8]) -> Result<Front, u64>
    requires { length bytes.now ≡ 112 }
    ensures broken { IfErr result (λ place. first_broken (front_checks bytes.now) ≡ Some place) }
    ensures kept { IfOk result (λ _. first_broken (front_checks bytes.now) ≡ None) }
    ensures spelling { IfOk result (λ front. bytes.now ≡ fields_of front) }
    ensures counts { IfOk result (λ front. IsCounted bytes.now front) }
    ensures limits { IfOk result (λ front. IsWithinLimits front) }
{
    match broken_field(bytes) {
        Some(place) => Err(place),
        None => Ok(fields_of(bytes)),
    }
}

// The place of the first field that no image has there.
fn broken_field(bytes: &[u8]) -> Option<u64>
    requires { length bytes.now ≡ 112 }
    ensures { result ≡ first_broken (front_checks bytes.now) }
{
    let checks = [
        (bytes[..16] == MAGIC[..], 0),
        (get_u32_le(bytes, 16) == 1, 16),
        (0 < get_u32_le(bytes, 20), 20),
        within(bytes, 20, 4),
        within(bytes, 24, 64),
        within(bytes, 28, 1024),
        within(bytes, 32, 262_144),
        within(bytes, 36, 255),
        within(bytes, 40, 1023),
        within(bytes, 44, 1023),
        within(bytes, 48, 1_048_576),
        (get_u32_le(bytes, 52) == 0, 52),
    ];
    first_broken(&checks)
}

fn within(bytes: &[u8], at: usize, limit: u32) -> (bool, u64)
    requires { at + 4 ≤ length bytes.now }
    ensures { result ≡ within bytes.now at limit }
{
    (get_u32_le(bytes, at) <= limit, at as u64)
}

fn first_broken(checks: &[(bool, u64); 12]) -> Option<u64>
    ensures { result ≡ first_broken checks.now }
{
    for (kept, place) in checks {
        if !*kept {
            return Some(*place);
        }
    }
    None
}

fn fields_of(bytes: &[u8]) -> Front
    requires len { length bytes.now ≡ 112 }
    requires kept { first_broken (front_checks bytes.now) ≡ None }
    ensures spelling { bytes.now ≡ fields_of result }
    ensures counts { IsCounted bytes.now result }
    ensures limits { IsWithinLimits result }
{
    let (arch, sv48) = arch_of(get_u32_le(bytes, 20));
    Front {
        arch,
        sv48,
        segs: get_u32_le(bytes, 24),
        avail: get_u32_le(bytes, 28),
        wanted: get_u32_le(bytes, 32),
        host: get_u32_le(bytes, 36),
        version: get_u32_le(bytes, 40),
        panic: get_u32_le(bytes, 44),
        msgbuf: get_u32_le(bytes, 48),
        root: get_u64_le(bytes, 56),
        windows: windows_in(bytes),
        time: get_u64_le(bytes, 104),
    }
}

fn windows_in(bytes: &[u8]) -> Windows
    requires { length bytes.now ≡ 112 }
    ensures { slice_range bytes.now 64 104 ≡ windows_of result }
{
    Windows {
        kernbase: get_u64_le(bytes, 64),
        kernspan: get_u64_le(bytes, 72),
        dmapbase: get_u64_le(bytes, 80),
        dmapend: get_u64_le(bytes, 88),
        dmapphys: get_u64_le(bytes, 96),
    }
}

// The number of an architecture, with Sv48 or without.
fn number_of(arch: Arch, sv48: bool) -> u32
    ensures { result ≡ number_of arch sv48 }
{
    match arch {
        Arch::Amd64 => 1,
        Arch::Arm64 => 2,
        Arch::Riscv => { if sv48 { 4 } else { 3 } }
    }
}

// The architecture of a number, and whether it has Sv48.
fn arch_of(number: u32) -> (Arch, bool)
    requires some { 0 < number }
    requires last { number ≤ 4 }
    ensures number { number_of result.0 result.1 ≡ number }
    ensures known { IsTrue (is_known_paging result.0 result.1) }
{
    match number {
        1 => (Arch::Amd64, false),
        2 => (Arch::Arm64, false),
        3 => (Arch::Riscv, false),
        _ => (Arch::Riscv, true),
    }
}

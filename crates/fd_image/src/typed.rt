//! What the Rust types of the fields already say of their values, for the validity of an image. Nothing
//! here has an effect.
ghost use Rattle.std.specs.Prelude.{◌<◌, ◌^◌, All};
ghost use Rattle.fd_image.specs.Image.{AreBytes, IsTyped};

use crate::parts::{Parts, Seg, Texts};
use fd_raw::Region;

pub(crate) fn is_typed(parts: &Parts)
    ensures { IsTyped parts.now }
{
    segs_are_typed(parts.segs.as_slice());
    pairs_are_typed(parts.avail.as_slice());
    are_u64(parts.wanted.as_slice());
    texts_are_typed(&parts.texts);
    let _root = parts.root;
    let _kernbase = parts.windows.kernbase;
    let _kernspan = parts.windows.kernspan;
    let _dmapbase = parts.windows.dmapbase;
    let _dmapend = parts.windows.dmapend;
    let _dmapphys = parts.windows.dmapphys;
}

fn are_bytes(bytes: &[u8])
    ensures { AreBytes bytes.now }
{}

fn region_is_typed(bytes: &Region)
    ensures { AreBytes bytes.now }
{
    are_bytes(bytes.view(0, bytes.len()));
}

fn are_u64(numbers: &[u64])
    ensures { All (λ n. n < 2 ^ 64) numbers.now }
{}

fn is_pair(pair: &(u64, u64))
    ensures start { pair.now.0 < 2 ^ 64 }
    ensures end { pair.now.1 < 2 ^ 64 }
{
    let _start = pair.0;
    let _end = pair.1;
}

fn pairs_are_typed(pairs: &[(u64, u64)])
    ensures { All (λ p. (p.0 < 2 ^ 64) × (p.1 < 2 ^ 64)) pairs.now }
{
    for pair in pairs {
        is_pair(pair);
    }
}

fn segs_are_typed(segs: &[Seg])
    ensures { All (λ seg. (seg.start < 2 ^ 64) × AreBytes seg.bytes) segs.now }
{
    for seg in segs {
        let _start = seg.start;
        region_is_typed(&seg.bytes);
    }
}

fn texts_are_typed(texts: &Texts)
    ensures host { AreBytes texts.now.host }
    ensures version { AreBytes texts.now.version }
    ensures panic_ { AreBytes texts.now.panic }
    ensures msgbuf { AreBytes texts.now.msgbuf }
    ensures time { texts.now.time < 2 ^ 64 }
{
    are_bytes(texts.host.as_slice());
    are_bytes(texts.version.as_slice());
    are_bytes(texts.panic.as_slice());
    are_bytes(texts.msgbuf.as_slice());
    let _time = texts.time;
}

//! Writes to a partition that stop after a number of sectors.

ghost use Rattle.std.specs.Prelude.{◌≡◌, ◌+◌, ◌/◌, ◌%◌, ◌<◌, ◌≤◌, ◌^◌, [], ◌∷◌, length, IfNone, IfOk, IfSome, OnErr};
ghost use Rattle.fd_site.specs.Contents.{Adds, IsSectors, whole_part, with_entries};
ghost use Rattle.fd_site.specs.Fault.{Rose};
ghost use Rattle.fd_site.specs.Seen.{Frame};
ghost use Rattle.fd_part.specs.Writes.{Begins, IsWriteOf, IsWritesOf, Stops};

use fd_site::{Failed, Pieces, Site};

/// Writes these bytes from the partition's byte `at` on, in one write, or their first `left` sectors. `Some` has how
/// many sectors are left of that number; `None` says that it was used up before the end of the bytes.
pub(crate) fn write_bytes<S: Site>(
    site: &mut S,
    at: u64,
    bytes: &[u8],
    left: u64,
) -> Result<Option<u64>, Failed>
    requires { IsSectors at (length bytes.now) (S.seen site.old).size }
    ensures whole { IfOk result (λ rest. IfSome rest (λ n. (S.seen site.new).told ≡ with_entries (S.seen site.old).told (whole_part at bytes.now ∷ []))) }
    ensures rest { IfOk result (λ rest. IfSome rest (λ n. n + length bytes.now / 512 ≡ left)) }
    ensures stopped { IfOk result (λ rest. IfNone rest (Stops (IsWriteOf at bytes.now) left (S.seen site.old).told (S.seen site.new).told)) }
    ensures fault { OnErr result (Begins (IsWriteOf at bytes.now) (S.seen site.old).told (S.seen site.new).told) }
    ensures frame { Frame (S.seen site.old) (S.seen site.new) }
    ensures cause { OnErr result (Rose (S.seen site.old).faults (S.seen site.new).faults) }
{
    let sectors = bytes.len() as u64 / 512;
    if sectors <= left {
        site.write_part(at, bytes)?;
        return Ok(Some(left - sectors));
    }
    // An empty write isn't made.
    if left == 0 {
        return Ok(None);
    }
    site.write_part(at, &bytes[..left as usize * 512])?;
    Ok(None)
}

/// Writes the bytes to come from the partition's byte `from` on, each piece in one write, or their first `left`
/// sectors. `Some` has how many sectors are left of that number; `None` says that it was used up before the end.
pub(crate) fn write_pieces<S: Site, P: Pieces>(
    site: &mut S,
    pieces: &mut P,
    from: u64,
    left: u64,
) -> Result<Option<u64>, Failed>
    requires start { from % 512 ≡ 0 }
    requires sectors { length (P.to_come pieces.old) % 512 ≡ 0 }
    requires inside { from + length (P.to_come pieces.old) ≤ (S.seen site.old).size }
    requires size { (S.seen site.old).size < 2 ^ 64 }
    ensures whole { IfOk result (λ rest. IfSome rest (λ n. Adds (IsWritesOf from (P.to_come pieces.old)) (S.seen site.old).told (S.seen site.new).told)) }
    ensures rest { IfOk result (λ rest. IfSome rest (λ n. n + length (P.to_come pieces.old) / 512 ≡ left)) }
    ensures stopped { IfOk result (λ rest. IfNone rest (Stops (IsWritesOf from (P.to_come pieces.old)) left (S.seen site.old).told (S.seen site.new).told)) }
    ensures fault { OnErr result (Begins (IsWritesOf from (P.to_come pieces.old)) (S.seen site.old).told (S.seen site.new).told) }
    ensures frame { Frame (S.seen site.old) (S.seen site.new) }
    ensures cause { OnErr result (Rose (S.seen site.old).faults (S.seen site.new).faults) }
{
    let mut at = from;
    let mut rest = left;
    while pieces.advance() {
        let piece = pieces.piece();
        match write_bytes(site, at, piece, rest)? {
            Some(now) => {
                rest = now;
            }
            None => return Ok(None),
        }
        at += piece.len() as u64;
    }
    Ok(Some(rest))
}

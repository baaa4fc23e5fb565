//! The texts of a generated image.
ghost use Rattle.std.specs.Prelude.{◌≡◌, ◌^◌, ◌<◌, ◌≤◌, IfOk};
ghost use Rattle.fd_gen.specs.Generated.{message_bytes, texts_of};

use fd_image::{Sequence, Texts};
use std::alloc::{AllocError, Global};

/// The texts of the image of a number, and its time.
#[tactic(auto, unfolding(crate::specs::Generated::texts_of))]
pub fn texts_of(alloc: Global, number: u64) -> Result<Texts, AllocError>
    ensures { IfOk result (λ texts. texts ≡ texts_of number) }
{
    let host = Vec::from_slice(alloc, b"gen")?;
    let version = Vec::from_slice(alloc, b"FreeBSD 14 generated")?;
    let panic = format!(in alloc; "generated {number}")?.into_bytes();
    let msgbuf = message_bytes(alloc, number, 8000)?;
    Ok(Texts {
        host: Sequence::new(host),
        version: Sequence::new(version),
        panic: Sequence::new(panic),
        msgbuf: Sequence::new(msgbuf),
        time: 1_700_000_000,
    })
}

// So many printable characters in turn, from one on that the number tells.
#[tactic(auto, unfolding(crate::specs::Generated::message_bytes))]
fn message_bytes(alloc: Global, number: u64, len: u64) -> Result<Vec<u8>, AllocError>
    requires { len < 2 ^ 20 }
    ensures { IfOk result (λ bytes. bytes.items ≡ message_bytes number len) }
{
    (0..len)
        .map(|at| 0x20 + ((u128::from(at) + u128::from(number)) % 95) as u8)
        .collect(alloc)
}

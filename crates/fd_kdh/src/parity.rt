//! The parity of a header.

ghost use Rattle.std.specs.Prelude.{◌≡◌};
ghost use Rattle.fd_kdh.specs.Parity.{words, xor_all};

/// The exclusive or of the words of four bytes, each with its highest byte first
/// (`kerneldump_parity`). Bytes that make no whole word don't count.
#[tactic(auto, using(crate::proofs::Parities::xor_steps))]
pub(crate) fn xor_of_words(bytes: &[u8]) -> u32
    ensures { result ≡ xor_all (words bytes.now) }
{
    let mut rest = bytes;
    let mut all = 0;
    while let [a, b, c, d, after @ ..] = rest {
        all ^= u32::from_be_bytes([*a, *b, *c, *d]);
        rest = after;
    }
    all
}

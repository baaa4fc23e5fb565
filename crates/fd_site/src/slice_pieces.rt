ghost use Rattle.std.specs.Prelude.{◌≡◌, ◌%◌, [], length};

use crate::pieces::Pieces;

/// A slice in pieces of 4096 bytes.
#[derive(Drop)]
pub struct SlicePieces<'a> {
    current: &'a [u8],
    to_come: &'a [u8],
    ghost whole: { length to_come.now % 4096 ≡ 0 },
}

impl<'a> SlicePieces<'a> {
    /// All the bytes are to come. Their number is a multiple of 4096.
    pub fn new(bytes: &'a [u8]) -> SlicePieces<'a>
        requires { length bytes.now % 4096 ≡ 0 }
        ensures to_come { ⟦<SlicePieces<'a> as Pieces>⟧.to_come result ≡ bytes.now }
        ensures current { ⟦<SlicePieces<'a> as Pieces>⟧.current result ≡ [] }
    {
        SlicePieces {
            current: &[],
            to_come: bytes,
        }
    }
}

impl<'a> Pieces for SlicePieces<'a> {
    ghost to_come = { λ p. p.to_come.now };

    ghost current = { λ p. p.current.now };

    fn advance(&mut self) -> bool {
        if self.to_come.is_empty() {
            self.current = &[];
            return false;
        }
        let (piece, rest) = self.to_come.split_at(4096);
        self.current = piece;
        self.to_come = rest;
        true
    }

    fn piece(&self) -> &[u8] {
        self.current
    }
}

ghost use Rattle.std.specs.Prelude.{◌≡◌, ◌<◌, ◌%◌, [], ◌++◌, ℕ, List, length};
ghost use Rattle.std.specs.Bool.{OnTrue, OnFalse};

/// Bytes that come in pieces, each lent in turn.
pub trait Pieces {
    /// The bytes that are still to come.
    ghost to_come: { Self → List ℕ };

    /// The current piece. Before the first `advance` it is empty.
    ghost current: { Self → List ℕ };

    /// Makes the next bytes the current piece: a positive multiple of 4096 of those that are to come. Answers
    /// false exactly where none are to come; the current piece is then empty.
    fn advance(&mut self) -> bool
        ensures more { OnTrue result (to_come self.old ≡ current self.new ++ to_come self.new) }
        ensures some { OnTrue result (0 < length (current self.new)) }
        ensures whole { OnTrue result (length (current self.new) % 4096 ≡ 0) }
        ensures end { OnFalse result (to_come self.old ≡ []) }
        ensures still { OnFalse result (to_come self.new ≡ []) }
        ensures none { OnFalse result (current self.new ≡ []) };

    /// Lends the current piece.
    fn piece(&self) -> &[u8]
        ensures { result.now ≡ current self.now };
}

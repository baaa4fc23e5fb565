//! The options that were given, and what each form of a command asks of them.

ghost use Rattle.std.specs.Prelude.{◌≡◌};
ghost use Rattle.fd_words.specs.Given.{asks_nothing, asks_to_clear, asks_to_dump, asks_to_judge, asks_to_save, given_of};

use crate::line::Line;

/// Which options were given.
#[derive(Clone, Copy, Debug, PartialEq, Eq)]
pub(crate) struct Given {
    /// `-C`
    pub(crate) judge: bool,
    /// `-c`
    pub(crate) clear: bool,
    /// `-f`
    pub(crate) force: bool,
    /// `-k`
    pub(crate) keep: bool,
    /// `-i`
    pub(crate) mark: bool,
    /// `-m N`
    pub(crate) most: bool,
}

impl Given {
    pub(crate) fn of(line: &Line<'_>) -> Given
        ensures { result ≡ given_of line.now }
    {
        Given {
            judge: line.is_set("C"),
            clear: line.is_set("c"),
            force: line.is_set("f"),
            keep: line.is_set("k"),
            mark: line.is_set("i"),
            most: line.most().is_some(),
        }
    }

    // `-C [-f]`
    pub(crate) fn asks_to_judge(self) -> bool
        ensures { result ≡ asks_to_judge self }
    {
        self.judge && !(self.clear || self.keep || self.mark || self.most)
    }

    // `-c [-f]`
    pub(crate) fn asks_to_clear(self) -> bool
        ensures { result ≡ asks_to_clear self }
    {
        self.clear && !(self.judge || self.keep || self.mark || self.most)
    }

    // `[-f] [-k] [-m N]`
    pub(crate) fn asks_to_save(self) -> bool
        ensures { result ≡ asks_to_save self }
    {
        !(self.judge || self.clear || self.mark)
    }

    // `[-i]`
    pub(crate) fn asks_to_dump(self) -> bool
        ensures { result ≡ asks_to_dump self }
    {
        !(self.judge || self.clear || self.force || self.keep || self.most)
    }

    // No option.
    pub(crate) fn asks_nothing(self) -> bool
        ensures { result ≡ asks_nothing self }
    {
        !(self.judge || self.clear || self.force || self.keep || self.mark || self.most)
    }
}

ghost use Rattle.std.specs.Prelude.{◌≡◌, ℕ, List, Option, Some, None, IfOk, IfSome, map, option_map, codes, is_some, unwrap_or, [], false};
ghost use Rattle.clap.specs.Words.{app_of, rule_of};
ghost use Rattle.fd_words.specs.CommandLine.{command_line, flag_rule, is_command_line, is_set, matches_in, most_rule, values_rule, values_of, first_of};

use crate::word::Word;
use clap::error::ErrorKind;
use clap::{Arg, ArgAction, ArgMatches, Command};
use std::alloc::{AllocError, Global};
use std::marker::Model;

/// The words after a command's name, as clap reads them.
#[derive(Drop)]
pub(crate) struct Line<'a> {
    matches: ArgMatches<'a>,
}

impl<'a> Model for Line<'a> {
    ghost use Rattle.std.specs.Prelude.{List};
    ghost use Rattle.clap.specs.Words.{Row, found_of, rows_of};

    ghost Value = { List Row };

    ghost view = { λ l. rows_of (found_of l.matches) };
}

// The flag of this letter, which is its id too.
fn flag<'a>(alloc: Global, id: &'a str, letter: char) -> Arg<'a>
    ensures rule { rule_of result ≡ flag_rule id.entry.now letter }
    ensures local { result.global ≡ false }
{
    Arg::new(alloc, id).short(letter).action(ArgAction::SetTrue)
}

// `-m` with its value.
fn most<'a>(alloc: Global) -> Arg<'a>
    ensures rule { rule_of result ≡ most_rule }
    ensures local { result.global ≡ false }
{
    Arg::new(alloc, "m").short('m').action(ArgAction::Set)
}

// Any number of values.
fn values<'a>(alloc: Global) -> Arg<'a>
    ensures rule { rule_of result ≡ values_rule }
    ensures local { result.global ≡ false }
{
    Arg::new(alloc, "values").num_args(0..)
}

// The one command by which all command lines are read.
fn command<'a>(alloc: Global) -> Result<Command<'a>, AllocError>
    ensures { IfOk result (λ command. app_of command ≡ command_line) }
{
    Command::new(alloc, "crashway")
        .arg(flag(alloc, "C", 'C'))?
        .arg(flag(alloc, "c", 'c'))?
        .arg(flag(alloc, "f", 'f'))?
        .arg(flag(alloc, "k", 'k'))?
        .arg(flag(alloc, "i", 'i'))?
        .arg(most(alloc))?
        .arg(values(alloc))
}

impl<'a> Line<'a> {
    /// Reads the words, of which the first is the command's name. `None` where clap refuses them.
    pub(crate) fn read(alloc: Global, words: &'a [Word]) -> Result<Option<Line<'a>>, AllocError>
        ensures command { IfOk result (λ line. is_some line ≡ is_command_line words.entry.now) }
        ensures matches { IfOk result (λ line. IfSome line (λ l. l ≡ matches_in words.entry.now)) }
    {
        let command = command(alloc)?;
        match command.try_get_matches_from(words) {
            Ok(matches) => Ok(Some(Line { matches })),
            Err(error) => match error.kind() {
                ErrorKind::OutOfMemory => Err(AllocError),
                _ => Ok(None),
            },
        }
    }

    /// Whether the flag with this letter was given.
    pub(crate) fn is_set(&self, letter: &str) -> bool
        ensures { result ≡ is_set letter.now self.now }
    {
        self.matches.get_str(letter) == Some("true")
    }

    /// The value of `-m`.
    pub(crate) fn most(&self) -> Option<&'a str>
        ensures { option_map (λ s. s.now) result ≡ first_of (codes "m") self.now }
    {
        self.matches.get_str("m")
    }

    /// The values, in their order.
    pub(crate) fn values(&self) -> &[&'a str]
        ensures { map (λ s. s.now) result.now ≡ values_of self.now }
    {
        or_none(self.matches.get_strs("values"))
    }
}

// The values that were given, if there are any.
fn or_none<'m, 'a>(values: Option<&'m [&'a str]>) -> &'m [&'a str]
    ensures { map (λ s. s.now) result.now ≡ unwrap_or (option_map (λ v. map (λ s. s.now) v.now) values.entry) [] }
{
    if let Some(values) = values {
        return values;
    }
    &[]
}

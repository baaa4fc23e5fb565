//! The words of a command line and the command that they are. The words behind a command's name are read by `clap`, with
//! one simple command for all of them: the flags `-C`, `-c`, `-f`, `-k` and `-i`, the option `-m` with a value, and any
//! number of values. Then the options and the values are compared with the command's forms, as savecore(8) and dumpon(8)
//! have them, and each value is checked.
#![tactic(auto)]

mod address;
mod command;
mod given;
mod line;
mod savecore;
mod source;
mod values;
mod word;

pub use command::{Command, read_command};
pub use source::Source;
pub use word::Word;

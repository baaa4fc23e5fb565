//! The whole program as one call, `crashway`: words in, text and a status out, over a site, a link, a set of ports
//! and a sink. Its contract says for each command what is printed, which status follows, and what stands afterwards.
//! It stands on the dump header of FreeBSD's `sys/kerneldump.h` and answers as savecore(8) does.
#![tactic(auto)]

mod answer;
mod drill_image;
mod dump_image;
mod invocation;
mod judge_partition;
pub mod laws;
mod list_pages;
mod make_image;
mod netdump;
mod netdumpd;
mod print_memory;
mod print_reply;
mod refusal;
mod reply;
mod run;
mod save_dump;
pub mod status;
mod text;

pub use answer::Answer;
pub use fd_words::{Command, Source, Word};
pub use invocation::{Invocation, read_invocation};
pub use refusal::Refusal;
pub use run::crashway;

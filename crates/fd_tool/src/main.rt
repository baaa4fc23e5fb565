//! The program: `crashway DIRECTORY BLOCK WORDS..` does what the words ask for, over the directory's file `dumpdev` as
//! the partition, with blocks of BLOCK bytes. Its text goes to standard output, its status is that of `fd_cli`; with
//! 71 and 74 a line on standard error says why.
#![tactic(auto)]

ghost use Rattle.std.specs.Prelude.{◌≡◌, ◌≢◌, IfOk};
ghost use Rattle.std.specs.Process.{exit_status};
ghost use Rattle.std.specs.IoError.{error_kind};
ghost use Rattle.fd_words.specs.Command.{command_of};
ghost use Rattle.fd_cli.specs.Ending.{Call};
ghost use Rattle.fd_cli.specs.Row.{Reach, outside};
ghost use Rattle.fd_cli.specs.Rows.{no_command_row, row_of};

use fd_cli::{Invocation, Refusal, crashway, read_invocation, status};
use fd_os::{Access, Claim, DirSite, StdSink, UdpLink, UdpPorts, hold_standard, say};
use fd_site::{Link, Ports, Sink, Site};
use fd_words::{Command, read_command};
use std::alloc::Global;
use std::fs::File;
use std::io::ErrorKind;
use std::net::Net;
use std::process::ExitCode;
use std::rt::{Clock, Env, Files};
use std::{env, io};

// What the program's words name. Words of which one isn't UTF-8 name nothing.
fn invocation<R: Env + AllocGlobal>(rt: &R) -> io::Result<Option<Invocation>> {
    let args = match env::args(rt) {
        Ok(args) => args,
        Err(why) if why.kind() == ErrorKind::InvalidData => return Ok(None),
        Err(why) => return Err(why),
    };
    let mut words = Vec::new(rt.alloc());
    for word in args {
        words.push(word)?;
    }
    Ok(read_invocation(rt.alloc(), words)?)
}

// The status with which the program ends before its command.
fn early_status<R: Eprint + AllocGlobal>(rt: &R, what: &str, why: io::Error) -> u8
    ensures memory { error_kind why ≡ ErrorKind.OutOfMemory → result ≡ 71 }
    ensures fault { error_kind why ≢ ErrorKind.OutOfMemory → result ≡ 74 }
{
    if why.kind() == ErrorKind::OutOfMemory {
        return status::MEMORY;
    }
    say(rt, what, why);
    status::FAULT
}

// Refuses words that name no directory and block, as words that are no command.
fn refuse<O: Sink>(alloc: Global, out: &mut O) -> u8
    ensures { (at : Reach) → Call no_command_row (record { reach = at; sink = O.seen out.old }) (record { reach = at; sink = O.seen out.new }) result }
{
    let refusal = Refusal::NotCommand;
    let text = match format!(in alloc; "{refusal}\n") {
        Ok(text) => text,
        Err(_) => return status::MEMORY,
    };
    match out.put(text.as_bytes()) {
        Ok(()) => refusal.status(),
        Err(_) => status::FAULT,
    }
}

// Does what the invocation's words ask for, with blocks of its size.
fn work<S: Site, L: Link, P: Ports, O: Sink>(
    alloc: Global,
    invocation: &Invocation,
    site: &mut S,
    link: &mut L,
    ports: &mut P,
    out: &mut O,
) -> u8
    requires { (S.seen site.old).block ≡ invocation.now.block }
    ensures { Call (row_of (command_of invocation.now.words.items))
        (outside (S.seen site.old) (L.seen link.old) (P.seen ports.old) (O.seen out.old))
        (outside (S.seen site.new) (L.seen link.new) (P.seen ports.new) (O.seen out.new)) result }
{
    crashway(alloc, &invocation.words, site, link, ports, out)
}

// What a command does in the directory.
fn claim_of(command: &Command) -> Claim {
    let (partition, makes_files) = match command {
        Command::Judge { .. } => (Some(Access::Read), false),
        Command::Save { keep: true, .. } => (Some(Access::Read), true),
        Command::Save { .. } | Command::Drill { .. } => (Some(Access::Write), true),
        Command::Clear { .. } | Command::Dump { .. } => (Some(Access::Write), false),
        Command::Image { .. } | Command::Netdumpd { .. } => (None, true),
        Command::Netdump { .. } | Command::Read { .. } | Command::Pages { .. } => (None, false),
    };
    Claim {
        partition,
        makes_files,
    }
}

// The invocation's directory, from which other programs are kept as its command needs it.
fn open_directory<'a, R: Files<File = File> + Eprint + AllocGlobal>(
    rt: &'a R,
    invocation: &Invocation,
) -> io::Result<DirSite<'a, R>>
    ensures { IfOk result (λ s. (⟦<DirSite<'a, R> as Site>⟧.seen s).block ≡ invocation.now.block) }
{
    let mut site = DirSite::open(rt, invocation.directory.as_str(), invocation.block)?;
    if let Some(command) = read_command(rt.alloc(), &invocation.words)? {
        site.claim(claim_of(&command))?;
    }
    Ok(site)
}

// The same over the invocation's directory.
fn work_in_directory<R: Files<File = File> + Net + Clock + Eprint + AllocGlobal, O: Sink>(
    rt: &R,
    invocation: &Invocation,
    out: &mut O,
) -> u8 {
    let mut site = match open_directory(rt, invocation) {
        Ok(site) => site,
        Err(why) => return early_status(rt, "dumpdev", why),
    };
    let mut link = UdpLink::new(rt);
    let mut ports = UdpPorts::new(rt);
    work(
        rt.alloc(),
        invocation,
        &mut site,
        &mut link,
        &mut ports,
        out,
    )
}

fn run<R: Env + Files<File = File> + Net + Clock + Print + Eprint + AllocGlobal>(rt: &R) -> u8 {
    if let Err(why) = hold_standard(rt) {
        return early_status(rt, "/dev/null", why);
    }
    let mut out = StdSink::new(rt);
    match invocation(rt) {
        Ok(Some(invocation)) => work_in_directory(rt, &invocation, &mut out),
        Ok(None) => refuse(rt.alloc(), &mut out),
        Err(why) => early_status(rt, "words", why),
    }
}

// What the program ends with. Want of memory is said here, faults where they come.
fn exit_code<R: Eprint>(rt: &R, status: u8) -> ExitCode
    ensures { exit_status result ≡ status }
{
    if status == status::MEMORY {
        let _said = eprintln!(rt; "crashway: no memory");
    }
    ExitCode::from(status)
}

fn main(rt: HostRuntime) -> ExitCode {
    let status = run(&rt);
    exit_code(&rt, status)
}

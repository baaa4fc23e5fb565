//! Command lines, and the commands that their words are.
use fd_bytes::Arch;
use fd_words::{Command, Source, Word, read_command};
use std::alloc::Global;
use std::process::Abort;
use std::test::Fail;

// Words, and the command that they are.
static CASES: &str = "\
savecore -C|judge false
savecore -Cf|judge true
savecore -C -f|judge true
savecore -f -C|judge true
savecore -C -C|none
savecore -C -c|none
savecore -C -k|none
savecore -Cm5|none
savecore -c|clear false
savecore -c -f|clear true
savecore -c -k|none
savecore -c -m 1|none
savecore|save false false
savecore -f|save true false
savecore -f -k -m 65536|save true true 65536
savecore -k -f|save true true
savecore -m=5|save false false 5
savecore -m5|save false false 5
savecore -m 0x5|save false false 5
savecore -fm5|save true false 5
savecore -fkm 5|save true true 5
savecore -m=|none
savecore -m|none
savecore -m 0|none
savecore -m 65537|none
savecore -m +1|none
savecore -m 1 -m 2|none
savecore -f -f|none
savecore -1|none
savecore -i|none
savecore --|save false false
savecore -- -C|none
savecore -h|none
savecore --help|none
savecore -V|none
savecore --version|none
savecore x|none
dump a.img|dump false file a.img
dump @riscv:7|dump false made 2 7
dump -i a.img|dump true file a.img
dump a.img -i|dump true file a.img
dump -i|none
dump -i -i a.img|none
dump -if a.img|none
dump -i -m 1 a.img|none
dump -i a.img b.img|none
netdump -i a.img 1.2.3.4|none
dump @riscv|none
dump @i386:7|none
dump dumpdev|none
dump -f a.img|none
dump|none
image amd64 0x10 a.img|image 0 16 a.img
image arm64 1 a.img|image 1 1 a.img
image i386 1 a.img|none
image amd64 1 a/b|none
image amd64 1|none
netdump a.img 127.0.0.1|netdump file a.img 2130706433
netdump @amd64:1 255.0.010.7|netdump made 0 1 4278192647
netdump a.img 256.0.0.1|none
netdump a.img 0001.0.0.1|none
netdump a.img 1.2.3|none
netdump a.img 1.2.3.4.5|none
netdump a.img 1..3.4|none
netdump a.img 0x1.2.3.4|none
netdump a.img +1.2.3.4|none
netdumpd 1|netdumpd 1
netdumpd 16|netdumpd 16
netdumpd 0|none
netdumpd 17|none
read k 1 2|read k 1 2
read k 0xffffffffffffffff 1048576|read k 18446744073709551615 1048576
read k 18446744073709551616 1|none
read k 1 1048577|none
read -f k 1 2|none
read k 1 -- 2|read k 1 2
read -- k 0x10 2|read k 16 2
read k -- 1 -2|none
read - 1 2|none
read k 1|none
read k 1 2 3|none
pages vmcore.0|pages vmcore.0
pages a/b|none
pages -f k|none
pages k 1|none
pages|none
drill @arm64:16376 110226 0xffff000000000000 16|drill made 1 16376 110226 18446462598732840960 16
drill a.img 73 0 1048576|drill file a.img 73 0 1048576
drill a.img 73 0 1048577|none
drill a.img -1 0 1|none
drill a.img 73 0|none
-C savecore|none
Savecore|none
erase|none";

// The number of an architecture in what is told of a command.
fn place(arch: Arch) -> u8 {
    match arch {
        Arch::Amd64 => 0,
        Arch::Arm64 => 1,
        Arch::Riscv => 2,
    }
}

fn tell_source(alloc: Global, source: &Source) -> Result<String, Fail> {
    let text = match source {
        Source::File(name) => format!(in alloc; "file {}", name.as_str())?,
        Source::Made { arch, number } => format!(in alloc; "made {} {number}", place(*arch))?,
    };
    Ok(text)
}

fn tell_save(alloc: Global, force: bool, keep: bool, max: Option<u32>) -> Result<String, Fail> {
    let text = match max {
        Some(max) => format!(in alloc; "save {force} {keep} {max}")?,
        None => format!(in alloc; "save {force} {keep}")?,
    };
    Ok(text)
}

fn tell(alloc: Global, command: &Option<Command>) -> Result<String, Fail> {
    let text = match command {
        None => format!(in alloc; "none")?,
        Some(Command::Judge { force }) => format!(in alloc; "judge {force}")?,
        Some(Command::Clear { force }) => format!(in alloc; "clear {force}")?,
        Some(Command::Save { options, keep }) => {
            return tell_save(alloc, options.force, *keep, options.max);
        }
        Some(Command::Dump { mark, image }) => {
            format!(in alloc; "dump {mark} {}", tell_source(alloc, image)?)?
        }
        Some(Command::Netdump { image, server }) => {
            format!(in alloc; "netdump {} {server}", tell_source(alloc, image)?)?
        }
        Some(Command::Netdumpd { dumps }) => format!(in alloc; "netdumpd {dumps}")?,
        Some(Command::Image { arch, number, file }) => {
            format!(in alloc; "image {} {number} {}", place(*arch), file.as_str())?
        }
        Some(
            Command::Read {
                file,
                address,
                count,
            },
        ) => format!(in alloc; "read {} {address} {count}", file.as_str())?,
        Some(Command::Pages { file }) => format!(in alloc; "pages {}", file.as_str())?,
        Some(
            Command::Drill {
                image,
                stop,
                address,
                count,
            },
        ) => {
            format!(in alloc;
                "drill {} {stop} {address} {count}",
                tell_source(alloc, image)?
            )?
        }
    };
    Ok(text)
}

fn words_of(alloc: Global, line: &str) -> Result<Vec<Word>, Fail> {
    let mut words = Vec::new(alloc);
    for word in line.split(' ') {
        words.push(Word::new(String::from_str(alloc, word)?))?;
    }
    Ok(words)
}

fn is_taken_for(rt: &impl Abort, alloc: Global, line: &str) -> Result<(), Fail> {
    match line.split_once('|') {
        Some((line, want)) => {
            let words = words_of(alloc, line)?;
            let command = read_command(alloc, words.as_slice())?;
            assert_eq!(rt; tell(alloc, &command)?.as_str(), want, "{line}");
        }
        None => assert!(rt; false, "{line}"),
    }
    Ok(())
}

#[test]
fn words_are_read_as_clap_reads_them(rt: HostRuntime) -> Result<(), Fail> {
    let alloc = rt.alloc();
    for line in CASES.lines() {
        is_taken_for(&rt, alloc, line)?;
    }
    assert!(&rt; read_command(alloc, &[])?.is_none());
    Ok(())
}

//! Commands of which one call of the site fails, or a piece of the text isn't taken: the status, the text, and what stands
//! afterwards.

use crate::partitions::{check_line, run, words_in};
use crate::reads::amd64_vmcore;
use crate::stands::{Setting, bytes_of, has_word, holds, judged};
use crate::walks::OF_AMD64;
use fd_fake::{MemSink, MemSite};
use std::alloc::Global;
use std::process::Abort;
use std::test::Fail;

const PAGES: &str = "\
0000000080001000 - ffffffd000001000 rw- 20480
0000000080002000 - ffffffd000002000 rw- 24576
0000000080004000 - ffffffd000004000 rw- 28672
3 pages
";

const READ: &str = "\
ffffffd000001ff8 f8 1f 00 80 00 00 00 00 00 20 00 80 00 00 00 00
ffffffd000002008 08
";

const READ_BY_TABLES: &str = "fffffe0040000ff8 f8 4f 10 00 00 00 00 00 00 50 10 00 00 00 00 00\n";

const DRILLED: &str = "\
saved vmcore.3 32768
ffffffd000001000 00 10 00 80 00 00 00 00
";

const SAVED: &str = "saved vmcore.3 32768\n";

// What stands before the command and, as its calls fail one by one, comes to stand; its words, its text, and what it leaves.
type Case = (&'static str, &'static str, &'static str, &'static str);

static SAVES: [Case; 7] = [
    ("live", "savecore -C", "dump 32768\n", "live"),
    ("cleared", "savecore -Cf", "dump 32768\n", "cleared"),
    ("live", "savecore -c", "cleared\n", "cleared"),
    ("cleared", "savecore -cf", "cleared\n", "cleared"),
    ("live", "savecore", SAVED, "cleared"),
    ("live", "savecore -k", SAVED, "live"),
    ("cleared", "savecore -f", SAVED, "cleared"),
];

static DUMPS: [Case; 6] = [
    ("none", "image riscv 0 c.img", "image c.img 53314\n", "none"),
    ("none", "dump a.img", "dumped 32768\n", "live"),
    ("cleared", "dump a.img", "dumped 32768\n", "live"),
    ("none", "dump -i a.img", "dumped 32768\n", "live"),
    ("cleared", "dump -i a.img", "dumped 32768\n", "live"),
    ("live cleared", "dump -i b.img", "dumped 28672\n", "new"),
];

static READS: [Case; 4] = [
    ("live", "read vmcore.0 0xffffffd000001ff8 17", READ, "live"),
    (
        "live",
        "read vmcore.1 0xfffffe0040000ff8 16",
        READ_BY_TABLES,
        "live",
    ),
    ("live", "pages vmcore.0", PAGES, "live"),
    ("live", "pages vmcore.1", OF_AMD64, "live"),
];

static DRILLS: [Case; 2] = [
    (
        "none live cleared",
        "drill a.img 66 0xffffffd000001000 8",
        DRILLED,
        "cleared",
    ),
    (
        "cleared live cleared",
        "drill a.img 66 0xffffffd000001000 8",
        DRILLED,
        "cleared",
    ),
];

// What the commands start from: besides the partition and the files of images, a saved dump of amd64's image.
#[derive(Drop)]
struct Start {
    setting: Setting,
    amd64: Vec<u8>,
}

impl Start {
    fn new(rt: &impl Abort, alloc: Global) -> Result<Start, Fail> {
        Ok(Start {
            setting: Setting::new(rt, alloc, 512)?,
            amd64: amd64_vmcore(rt, alloc)?,
        })
    }
}

// What stands before the command.
fn first(stands: &str) -> &str {
    stands.split(' ').next().unwrap_or("")
}

// The site with a dump that was saved, one of amd64 where it is read, and the next number.
fn with_saved(
    rt: &impl Abort,
    alloc: Global,
    start: &Start,
    case: Case,
    failing: u64,
) -> Result<MemSite, Fail> {
    let (stands, words, _, _) = case;
    let mut site = start
        .setting
        .site(rt, alloc, first(stands), words, failing)?;
    site.preset_file("vmcore.0", start.setting.dump().to_vec(alloc)?)?;
    if has_word(words, "vmcore.1") {
        site.preset_file("vmcore.1", start.amd64.as_slice().to_vec(alloc)?)?;
    }
    site.preset_file("bounds", b"3\n".to_vec(alloc)?)?;
    Ok(site)
}

// What is judged afterwards: a dump that stands is whole, and one that was saved and cleared stands whole in its file. The one
// that was saved before is as it was.
fn left_behind(
    rt: &impl Abort,
    alloc: Global,
    site: &mut MemSite,
    start: &Start,
    case: Case,
) -> Result<&'static str, Fail> {
    let (stood, _, text, _) = case;
    let stands = judged(alloc, site)?;
    if stands == "live" {
        assert!(rt; *bytes_of(rt, alloc, site)? == *start.setting.live);
    }
    if stands == "cleared" && first(stood) != "cleared" && text.starts_with("saved") {
        holds(rt, alloc, site, "vmcore.3", start.setting.dump())?;
    }
    holds(rt, alloc, site, "vmcore.0", start.setting.dump())?;
    assert_eq!(rt; site.starved(), 0);
    Ok(stands)
}

// Where it fails, only a list and a drill have printed: whole lines, and not all of them.
fn is_cut(rt: &impl Abort, printed: &[u8], case: Case) {
    let (_, words, text, _) = case;
    assert!(rt; text.as_bytes().starts_with(printed), "{words}");
    assert!(rt; printed.len() < text.len(), "{words}");
    if !printed.is_empty() {
        assert!(rt;
            words.starts_with("pages") || words.starts_with("drill"),
            "{words}"
        );
        assert!(rt; printed.ends_with(b"\n"), "{words}");
    }
}

// The command where one call fails, and what then stands.
fn fails_at(
    rt: &impl Abort,
    alloc: Global,
    start: &Start,
    case: Case,
    failing: u64,
) -> Result<&'static str, Fail> {
    let (_, words, _, _) = case;
    let mut site = with_saved(rt, alloc, start, case, failing)?;
    let mut out = MemSink::new(alloc, Vec::new(alloc));
    let list = words_in(alloc, words)?;
    assert_eq!(rt;
        run(alloc, &list, &mut site, &mut out),
        74,
        "{words} {failing}"
    );
    is_cut(rt, out.bytes(), case);
    left_behind(rt, alloc, &mut site, start, case)
}

// How many calls the command takes.
fn calls_of(rt: &impl Abort, alloc: Global, start: &Start, case: Case) -> Result<u64, Fail> {
    let (_, words, text, left) = case;
    let mut site = with_saved(rt, alloc, start, case, 0)?;
    check_line(rt, alloc, &mut site, words, 0, text)?;
    let calls = site.calls();
    assert_eq!(rt;
        left_behind(rt, alloc, &mut site, start, case)?,
        left,
        "{words}"
    );
    Ok(calls)
}

// Each call in turn fails: what stands goes on from each to the next, up to the last.
fn each_call_fails(rt: &impl Abort, alloc: Global, start: &Start, case: Case) -> Result<(), Fail> {
    let (stands, words, _, _) = case;
    let mut next = stands.split(' ');
    let mut now = next.next();
    for failing in 1..=calls_of(rt, alloc, start, case)? {
        let stands = fails_at(rt, alloc, start, case, failing)?;
        if now != Some(stands) {
            now = next.next();
        }
        assert_eq!(rt; now, Some(stands), "{words} {failing}");
    }
    assert_eq!(rt; next.next(), None, "{words}");
    Ok(())
}

// Each call of each command fails in turn.
fn each_fails(rt: &impl Abort, alloc: Global, cases: &[Case]) -> Result<(), Fail> {
    let start = Start::new(rt, alloc)?;
    for case in cases {
        each_call_fails(rt, alloc, &start, *case)?;
    }
    Ok(())
}

#[test]
fn whichever_call_of_a_save_fails_the_dump_stands(rt: HostRuntime) -> Result<(), Fail> {
    each_fails(&rt, rt.alloc(), SAVES.as_slice())
}

#[test]
fn whichever_call_of_a_dump_fails_the_old_one_or_none_stands(rt: HostRuntime) -> Result<(), Fail> {
    each_fails(&rt, rt.alloc(), DUMPS.as_slice())
}

#[test]
fn whichever_call_of_a_read_fails_it_is_cut(rt: HostRuntime) -> Result<(), Fail> {
    each_fails(&rt, rt.alloc(), READS.as_slice())
}

#[test]
fn whichever_call_of_a_drill_fails_none_or_a_whole_dump_stands(
    rt: HostRuntime,
) -> Result<(), Fail> {
    each_fails(&rt, rt.alloc(), DRILLS.as_slice())
}

// The command where one piece of its text isn't taken: it has done its work. Answers whether there was no such piece.
fn prints_up_to(
    rt: &impl Abort,
    alloc: Global,
    start: &Start,
    case: Case,
    failing: u64,
) -> Result<bool, Fail> {
    let (_, words, text, left) = case;
    let mut site = with_saved(rt, alloc, start, case, 0)?;
    let mut out = MemSink::new(alloc, vec![in alloc; failing]?);
    let list = words_in(alloc, words)?;
    let status = run(alloc, &list, &mut site, &mut out);
    assert_eq!(rt;
        left_behind(rt, alloc, &mut site, start, case)?,
        left,
        "{words}"
    );
    if status == 0 {
        assert_eq!(rt; out.bytes(), text.as_bytes());
        return Ok(true);
    }
    assert_eq!(rt; status, 74, "{words}");
    is_cut(rt, out.bytes(), case);
    Ok(false)
}

// Each piece of the text in turn isn't taken.
fn each_piece_fails(rt: &impl Abort, alloc: Global, start: &Start, case: Case) -> Result<(), Fail> {
    for failing in 1..9 {
        if prints_up_to(rt, alloc, start, case, failing)? {
            assert!(rt; failing > 1);
            return Ok(());
        }
    }
    assert!(rt; false, "more pieces than lines");
    Ok(())
}

#[test]
fn what_is_not_printed_was_done(rt: HostRuntime) -> Result<(), Fail> {
    let alloc = rt.alloc();
    let start = Start::new(&rt, alloc)?;
    for cases in [
        SAVES.as_slice(),
        DUMPS.as_slice(),
        READS.as_slice(),
        DRILLS.as_slice(),
    ]
    .as_slice()
    {
        for case in *cases {
            each_piece_fails(&rt, alloc, &start, *case)?;
        }
    }
    Ok(())
}

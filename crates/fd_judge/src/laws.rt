//! What judging finds of a dump that was written, whole or cut by a crash.

ghost use Rattle.std.specs.Prelude.{◌≤◌, IsTrue, ℕ, List, Bool, length};
ghost use Rattle.fd_site.specs.Journal.{Entry, part_after};
ghost use Rattle.fd_site.specs.Cut.{part_cut};
ghost use Rattle.fd_kdh.specs.declared.header.Header.{Header};
ghost use Rattle.fd_part.specs.Partition.{is_good, need_of, IsClear};
ghost use Rattle.fd_part.specs.Dump.{IsBegunDump, IsDumpJournal};
ghost use Rattle.fd_part.specs.Marked.{IsBegunMarked, IsMarkedJournal};
ghost use Rattle.fd_judge.specs.Crash.{IsHeaderFor, IsOldOrRefusedOrThis, IsRefusedOrThis, IsThisDump};

/// Over a clear partition with room, a dump was begun, and the machine stopped after `k` of its entries and any
/// sectors of the next one. Then judging without force refuses the partition, or finds exactly that dump: its header,
/// its place and its bytes.
pub fn each_cut_is_refused_or_whole()
    ensures { (part body : List ℕ) (h : Header) (block : ℕ) (journal : List Entry) (k : ℕ) (these : List Bool)
        → IsTrue (is_good (length part) block) → need_of block (length body) ≤ length part → IsClear part block
        → IsHeaderFor body block h → IsBegunDump body h (length part) block journal
        → IsRefusedOrThis body h block (part_cut part journal k these) }
{}

/// Over any partition with room, clear or not, a dump that marks first was begun, and the machine stopped after `k` of its
/// entries and any sectors of the next one. Then the partition is as it was, or judging without force refuses it, or
/// finds exactly that dump.
pub fn each_marked_cut_is_old_refused_or_whole()
    ensures { (part body : List ℕ) (h : Header) (block : ℕ) (journal : List Entry) (k : ℕ) (these : List Bool)
        → IsTrue (is_good (length part) block) → need_of block (length body) ≤ length part
        → IsHeaderFor body block h → IsBegunMarked part body h block journal
        → IsOldOrRefusedOrThis part body h block (part_cut part journal k these) }
{}

/// A whole dump is found, over whatever partition with room it was written.
pub fn each_whole_dump_is_found()
    ensures { (part body : List ℕ) (h : Header) (block : ℕ) (journal : List Entry)
        → IsTrue (is_good (length part) block) → need_of block (length body) ≤ length part
        → IsHeaderFor body block h → IsDumpJournal body h (length part) block journal
        → IsThisDump body h block (part_after part journal) }
{}

/// So is one that marked first.
pub fn each_whole_marked_dump_is_found()
    ensures { (part body : List ℕ) (h : Header) (block : ℕ) (journal : List Entry)
        → IsTrue (is_good (length part) block) → need_of block (length body) ≤ length part
        → IsHeaderFor body block h → IsMarkedJournal part body h block journal
        → IsThisDump body h block (part_after part journal) }
{}

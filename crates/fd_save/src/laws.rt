//! What holds of saving a dump and clearing it, wherever a machine stops in that.

ghost use Rattle.std.specs.Prelude.{◌≡◌, ℕ, ◌≤◌, Bool, false, List, Option, None, Some, length, All, ◌++◌};
ghost use Rattle.fd_site.specs.Begun.{IsBegun};
ghost use Rattle.fd_site.specs.Contents.{Contents, file_of};
ghost use Rattle.fd_site.specs.Cut.{Disk, IsCut};
ghost use Rattle.fd_site.specs.Journal.{Entry, is_on};
ghost use Rattle.fd_kdh.specs.declared.header.Header.{Header};
ghost use Rattle.fd_info.specs.Saved.{IsSaved};
ghost use Rattle.fd_save.specs.Crash.{IsSafe, IsSavedName};
ghost use Rattle.fd_save.specs.Laws.{IsSavecore, then_adds};
ghost use Rattle.fd_save.specs.Saving.{IsSaveJournal, clearing, device_name, parity_of};

/// A dump's saving and clearing was begun, and the machine stopped after `k` entries of the journal and any sectors of the
/// next one. Then the partition is as it was, or it is cleared and the dump stands in its files; and without a maximum
/// each file of a saved dump that was there and stable is as it was.
pub fn each_cut_of_a_save_is_safe()
    ensures { (force : Bool) (max : Option ℕ) (block : ℕ) (was : Contents) (h : Header) (at : ℕ) (sector body : List ℕ) (number : ℕ) (planned added : List Entry)
        (k : ℕ) (these : List Bool) (disk : Disk)
        → IsSavecore force max block was h at sector body number planned → IsBegun planned added
        → length was.journal ≤ k → IsCut (then_adds was added) k these disk
        → IsSafe max block number body h (parity_of sector) was disk }
{}

/// Without a maximum, no file of a saved dump that was there has an entry.
pub fn no_saved_file_is_touched()
    ensures { (force : Bool) (block : ℕ) (was : Contents) (h : Header) (at : ℕ) (sector body : List ℕ) (number : ℕ) (planned added : List Entry)
        (name file : List ℕ)
        → IsSavecore force None block was h at sector body number planned → IsBegun planned added
        → IsSavedName name → file_of was name ≡ Some file → All (λ e. is_on name e ≡ false) added }
{}

/// After a whole save, cleared or not, the dump is saved under the number.
pub fn each_save_is_saved()
    ensures { (was : Contents) (body : List ℕ) (h : Header) (parity number size block : ℕ) (sector : List ℕ) (journal : List Entry)
        → IsSaveJournal body h parity number journal
        → IsSaved (then_adds was (journal ++ clearing size block sector)) number body h device_name parity }
{}

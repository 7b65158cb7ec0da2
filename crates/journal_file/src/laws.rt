//! What a file stands for is one; what was acknowledged stays; and why the gate waits for its sync.
ghost use Rattle.std.specs.Prelude.{◌≡◌, ◌+◌, ◌<◌, ◌^◌, ◌∷◌, [], ◌++◌, ℕ, List, Some, length};
ghost use Rattle.archive.specs.Extents.{Stands};
ghost use Rattle.disk.specs.Disks.{FileTold, DiskTold};
ghost use Rattle.disk.specs.Crashes.{MayLeave, LeavesSince};
ghost use Rattle.journal_file.specs.Records.{StandsFor, IsDamagedAfter, IsAsBefore, IsBeforeOrAfter, records};
ghost use Rattle.journal_file.specs.Readings.{IsFrameOf};
ghost use Rattle.journal_file.specs.Runs.{StandsForMore};

/// A file stands for one list of payloads.
pub fn one_reading()
    ensures { (ps qs : List (List ℕ)) (file : List ℕ) → StandsFor ps file → StandsFor qs file → ps ≡ qs }
{}

/// A file that stands for payloads isn't damaged.
pub fn damage_excludes()
    ensures { (ps qs : List (List ℕ)) (file : List ℕ) → StandsFor ps file → IsDamagedAfter qs file → ⊥ }
{}

/// What a crash while a journal is opened may leave stands for what stood before, and is damaged only where the file was.
pub fn as_before()
    ensures stands { (ps : List (List ℕ)) (before file : List ℕ) → StandsFor ps before → IsAsBefore before file
        → StandsFor ps file }
    ensures stood { (ps : List (List ℕ)) (before file : List ℕ) → StandsFor ps file → IsAsBefore before file
        → StandsFor ps before }
    ensures damaged { (ps : List (List ℕ)) (before file : List ℕ)
        → IsDamagedAfter ps file → IsAsBefore before file → IsDamagedAfter ps before }
{}

/// What stands once a `put` was acknowledged stands behind each further one: whatever a crash at some moment of it leaves has it.
pub fn stays_acknowledged()
    ensures one_more { (kept more new : List (List ℕ)) (first old late : DiskTold)
        → LeavesSince (StandsForMore kept) first old
        → LeavesSince (IsBeforeOrAfter (kept ++ more) new) old late → LeavesSince (StandsForMore kept) first late }
    ensures at_first { (kept : List (List ℕ)) (told : DiskTold) → LeavesSince (StandsForMore kept) told told }
{}

/// Were the gate opened before the first sync, a crash could leave a file that stands for something else.
pub fn gate_waits()
    ensures { (before new : List (List ℕ)) × (file : FileTold) × (left : List ℕ) × (frame : List ℕ)
        × IsFrameOf new frame
        × (file.synced ≡ 0 ∷ []) × StandsFor before file.synced × (file.written ≡ (0, 1) ∷ (1, 10) ∷ [])
        × MayLeave file left
        × (IsBeforeOrAfter before new left → ⊥) }
{}

/// Whatever the file stands for behind a payload, the payload stands nine bytes behind the end of the records before it.
pub fn extent_stays()
    ensures { (old : List (List ℕ)) (payload : List ℕ) (more : List (List ℕ)) (file : List ℕ)
        → StandsFor (old ++ payload ∷ more) file → length file < 2 ^ 63
        → Stands (Some file) (length (records old) + 9) (length payload) payload }
{}

//! Laws of the payloads.
ghost use Rattle.std.specs.Prelude.{◌↔◌, ℕ, List};
ghost use Rattle.byte_codec.specs.Payloads.{Encodes};
ghost use Rattle.desk_model.specs.declared.entry.Entry.{Entry};
ghost use Rattle.cm_call.specs.declared.write.Write.{Write};
ghost use Rattle.journal_people.specs.Told.{PeopleTold};
ghost use Rattle.journal_replay.specs.declared.record.Record.TheVariants.{Written};
ghost use Rattle.journal_codec.specs.Roots.{new_people_codec};
ghost use Rattle.journal_codec.specs.Entries.{entry_codec};
ghost use Rattle.journal_codec.specs.Recorded.{record_codec};

/// An entry is encoded as the record that tells it: what a keeper puts is what replay reads.
pub fn entries_are_records()
    ensures { (e : Entry Write) (bytes : List ℕ) → (Encodes entry_codec e bytes
        ↔ Encodes record_codec (Written e) bytes) }
{}

/// No bytes are the encoding of an entry and that of other people.
pub fn entries_and_people_are_apart()
    ensures { (e : Entry Write) (p : PeopleTold) (bytes : List ℕ) → Encodes entry_codec e bytes
        → Encodes new_people_codec p bytes → ⊥ }
{}

//! What holds of merge texts: laws over the definitions, each the contract of a function that does nothing.

ghost use Rattle.std.specs.Prelude.{◌≡◌, ℕ, ◌<◌, ◌≤◌, ◌^◌, true, false, List, length, map, take};
ghost use Rattle.std.specs.FinMap.{empty, entries, from_sorted, len};
ghost use Rattle.key_slot.specs.Record.{Record, IsAscending};
ghost use Rattle.map_model.specs.Store.{Map, Update};
ghost use Rattle.bulk_load.specs.LoadText.{IsLoadText};
ghost use Rattle.bulk_load.specs.MergeText.{bind_of, AreAscending, merged_rows, map_after_edits, IsMergeText, IsFirstUnmerged, IsMergeUnfinished, IsMergedFull};
ghost use Rattle.line_source.specs.Lines.{raw_lines};
ghost use Rattle.line_source.specs.LineReaderView.{ReaderView, rest};
ghost use Rattle.line_source.specs.SourceView.{SourceView, SourceTold};
ghost use Rattle.bulk_load.specs.declared.fault.LoadFault.{LoadFault};
ghost use Rattle.bulk_load.specs.LoadFaults.{IsOutsideFault};
ghost use Rattle.bulk_load.specs.MergeCauses.{IsUpdatingFault};
ghost use Rattle.bulk_load.specs.MergeLines.{merging, reads, wrong, full, IsOverfull, IsUnmergedLine};

/// A law: the records of a map, merged with updates in ascending order of their keys, are ascending, and those of the map after
/// the updates, made one after the other.
pub fn updates_are_merged()
    // The records of a map, merged with updates whose keys ascend, come back to the map after the updates, made one after the
    // other; they are its records, and ascend.
    ensures map { (m : Map) (edits : List Update) → AreAscending edits →
        from_sorted (merged_rows edits (entries m)) ≡ map_after_edits m edits }
    ensures entries { (m : Map) (edits : List Update) → AreAscending edits →
        entries (map_after_edits m edits) ≡ merged_rows edits (entries m) }
    ensures ascending { (m : Map) (edits : List Update) → AreAscending edits → IsAscending (merged_rows edits (entries m)) }
{}

/// A law: what comes of merge lines that are read one at a time is what they are as a merge text. Those that are read whole are
/// a text with these updates, and a text is read whole where the map after it has as many records as the store may hold. A
/// wrong line is the first that no text can have there; where lines end before the line with their number, some text begins
/// with them, and they are none. They come to too many records exactly where they are a text after which the map has more than
/// the store may hold, or where some text begins with a front of them and each such text comes to too many.
pub fn merge_texts_are_read_by_lines()
    // Lines that are read whole are a merge text with these updates. A merge text is read whole if the map after it has no more
    // records than the store may hold.
    ensures text { (format most : ℕ) (rows : List Record) (lines : List (List ℕ)) (edits : List Update) →
        merging format most rows lines ≡ reads edits true → IsMergeText format lines edits }
    ensures read { (format most : ℕ) (m : Map) (lines : List (List ℕ)) (edits : List Update) → IsMergeText format lines edits →
        len (map_after_edits m edits) ≤ most → merging format most (entries m) lines ≡ reads edits true }
    // A wrong line is the first that no merge text can have there.
    ensures wrong { (format most n : ℕ) (rows : List Record) (lines : List (List ℕ)) → merging format most rows lines ≡ wrong n →
        IsFirstUnmerged format lines n }
    // If the lines end before the one with the number of updates, some merge text begins with them, and they are none.
    ensures unfinished { (format most : ℕ) (rows : List Record) (lines : List (List ℕ)) (edits : List Update) →
        merging format most rows lines ≡ reads edits false → IsMergeUnfinished format lines }
    // If too many records result up to the key of a line, some merge text begins with the lines up to it, up to the key of whose
    // last update more records result than the store may hold, and so after each text that begins with them.
    ensures full { (format most : ℕ) (m : Map) (lines : List (List ℕ)) → merging format most (entries m) lines ≡ full →
        IsMergedFull format most m lines }
    // If too many records result up to the key of a line, they do whatever lines follow: no line behind it is refused.
    ensures stays { (format most k : ℕ) (rows : List Record) (lines : List (List ℕ)) →
        merging format most rows (take k lines) ≡ full → merging format most rows lines ≡ full }
    // A merge text after which the map has more records than the store may hold comes to too many, up to the key of some line or
    // in all.
    ensures overfull { (format most : ℕ) (m : Map) (lines : List (List ℕ)) (edits : List Update) →
        IsMergeText format lines edits →
        most < len (map_after_edits m edits) → IsOverfull format most m lines }
{}

/// A law: a load text is a merge text that binds its records, and what it makes of the map without records is what a load makes
/// of a store without any.
pub fn load_texts_are_merge_texts()
    // A load text of fewer than `2^32` records is a merge text that binds them in order.
    ensures text { (format : ℕ) (lines : List (List ℕ)) (rows : List Record) → IsLoadText format lines rows →
        length rows < 2 ^ 32 →
        IsMergeText format lines (map bind_of rows) }
    // Ascending records that are bound in order in the map without records come to the map of these records.
    ensures map { (rows : List Record) → IsAscending rows → map_after_edits empty (map bind_of rows) ≡ from_sorted rows }
{}

/// A law: a merge text that a store admits, in a source that has fewer bytes than may be taken, meets no fault but a disk's or a
/// failed read.
pub fn admitted_texts_are_merged()
    // A merge text after which a map has no more records than the store may hold, in a source that tells it and has fewer bytes
    // than may be taken, on a station that tells that the map is its file's, meets no fault but a disk's or a read that failed,
    // with which the source's count rose.
    ensures { (format most : ℕ) (m : Map) (reader : ReaderView) (before after : SourceView) (edits : List Update)
        (fault : LoadFault) →
        IsMergeText format (raw_lines (rest reader before)) edits → len (map_after_edits m edits) ≤ most → SourceTold before →
        length before.left < reader.room → IsUpdatingFault format most true m reader before after fault →
        IsOutsideFault before after fault }
{}

/// A law: a merge text has one refusal.
pub fn merge_refusals_exclude_each_other()
    // Lines of which one is refused don't come to too many records, and of lines that come to too many none is refused.
    ensures { (format most n : ℕ) (m : Map) (lines : List (List ℕ)) → IsUnmergedLine format most (entries m) lines n →
        IsOverfull format most m lines → ⊥ }
{}

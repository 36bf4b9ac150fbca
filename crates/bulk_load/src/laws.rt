//! What holds of load texts: laws over the definitions, each the contract of a function that does nothing.

ghost use Rattle.std.specs.Prelude.{◌≡◌, ℕ, ◌+◌, ◌^◌, ◌<◌, ◌≤◌, Bool, true, false, List, length, All};
ghost use Rattle.key_slot.specs.Format.{wide};
ghost use Rattle.std.specs.List.{flat_map};
ghost use Rattle.std.specs.FinMap.{entries, from_sorted, len};
ghost use Rattle.line_source.specs.Lines.{raw_lines};
ghost use Rattle.line_source.specs.LineReaderView.{ReaderView, rest};
ghost use Rattle.line_source.specs.SourceView.{SourceView, SourceTold};
ghost use Rattle.key_slot.specs.Record.{Record};
ghost use Rattle.map_model.specs.Store.{Map};
ghost use Rattle.command_text.specs.Answers.{range_lines};
ghost use Rattle.command_text.specs.Reply.{reply_text};
ghost use Rattle.command_text.specs.ReadsBack.{MayBeRecord};
ghost use Rattle.bulk_load.specs.declared.fault.LoadFault.{LoadFault};
ghost use Rattle.bulk_load.specs.LoadFaults.{IsLoadFault, IsOutsideFault};
ghost use Rattle.bulk_load.specs.LoadText.{IsLoadText, IsFirstWrong, IsUnfinished, IsOneTooMany, IsRefusedAt, MayGoOn};
ghost use Rattle.bulk_load.specs.LoadLines.{IsWrongLine, loading, reads, wrong, full};

/// A law: what comes of lines that are read one at a time is what they are as a load text. Those that are read whole are a
/// text with these records, and a text is read whole if the store may hold as many. A wrong line is the first that no
/// text can have there; if lines end before the line with their number of records, some text begins with them, and they
/// are none. If they are too many, some text begins with lines that have one record more than the store may hold. No more
/// records than it may hold come before a line that is wrong, and of lines with which reading goes on no refusal is due.
pub fn texts_are_read_by_lines()
    // Lines that are read whole are a load text with these records. A load text is read whole if the store may hold as many
    // records as it has.
    ensures text { (format most : ℕ) (lines : List (List ℕ)) (rows : List Record) → loading format most lines ≡ reads rows true →
        IsLoadText format lines rows }
    ensures read { (format most : ℕ) (lines : List (List ℕ)) (rows : List Record) → IsLoadText format lines rows →
        length rows ≤ most → loading format most lines ≡ reads rows true }
    // If the store may hold fewer than `2^32` records: a wrong line is the first that no load text can have there.
    ensures wrong { (format most n : ℕ) (lines : List (List ℕ)) → most < 2 ^ 32 → loading format most lines ≡ wrong n →
        IsFirstWrong format lines n }
    // If the store may hold fewer than `2^32` records, and the lines end before the one with the number of records: some load
    // text begins with them, and they are none.
    ensures unfinished { (format most : ℕ) (lines : List (List ℕ)) (rows : List Record) → most < 2 ^ 32 →
        loading format most lines ≡ reads rows false → IsUnfinished format lines }
    // If the store may hold fewer than `2^32 - 1` records, and the records are too many: some load text begins with lines that
    // have one record more than it may hold.
    ensures full { (format most : ℕ) (lines : List (List ℕ)) → most + 1 < 2 ^ 32 → loading format most lines ≡ full →
        IsOneTooMany format most lines }
    // Lines that are read whole have no more records than the store may hold.
    ensures few { (format most : ℕ) (lines : List (List ℕ)) (rows : List Record) → loading format most lines ≡ reads rows true →
        length rows ≤ most }
    // If the store may hold fewer than `2^32` records: a line that is named as wrong is the first that no load text can have
    // there, or one more than there are if these end before the one with the number of records; and before it are no more records
    // than the store may hold.
    ensures refused { (format most n : ℕ) (lines : List (List ℕ)) → most < 2 ^ 32 → IsWrongLine format most lines n →
        IsRefusedAt format most lines n }
    // If the store may hold fewer than `2^32` records: lines with which reading goes on make no refusal due, that is, some load
    // text begins with them, and they have no more records than it may hold.
    ensures going { (format most : ℕ) (lines : List (List ℕ)) (rows : List Record) (ended : Bool) → most < 2 ^ 32 →
        loading format most lines ≡ reads rows ended → MayGoOn format most lines }
{}

/// A law: a text has one refusal. If a line of it is refused, no record too many comes before that; and if there is one
/// record too many, no line before it is refused.
pub fn refusals_exclude_each_other()
    // Lines of which one is refused have no record too many, and of lines that have a record too many none is refused.
    ensures { (format most n : ℕ) (lines : List (List ℕ)) → IsRefusedAt format most lines n → IsOneTooMany format most lines → ⊥ }
{}

/// A law: the lines of all records of a map, and the line with their number, as a range over all keys is answered, are a
/// load text of a format for which the records are short enough, with these records, which come back to the map.
pub fn dumps_are_load_texts()
    // The lines of all records of a map and of their number, as a range over all keys is answered, are a load text of a format
    // with these records, if each of them fits the format and they are fewer than `2^32`.
    ensures text { (format : ℕ) (m : Map) → format ≤ wide → All (λ r. MayBeRecord format r.0 r.1) (entries m) → len m < 2 ^ 32 →
        IsLoadText format (raw_lines (flat_map reply_text (range_lines (entries m)))) (entries m) }
    // All records of a map, in order, come back to it.
    ensures map { (m : Map) → from_sorted (entries m) ≡ m }
{}

/// A law: a text that a store without records admits, in a source that has fewer bytes than may be taken, meets no fault but a
/// disk's, a damaged segment or a failed read.
pub fn admitted_texts_are_loaded()
    // A text that a store without records admits, in a source that tells it and has fewer bytes than may be taken, meets no fault
    // but a disk's, a damaged segment, or a read that failed, with which the source's count rose.
    ensures { (format most : ℕ) (reader : ReaderView) (before after : SourceView) (rows : List Record) (fault : LoadFault) →
        IsLoadText format (raw_lines (rest reader before)) rows → length rows ≤ most →
        SourceTold before → length before.left < reader.room → IsLoadFault format most 0 reader before after fault → IsOutsideFault before after fault }
{}

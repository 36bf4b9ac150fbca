//! What cursors give, in every session.

ghost use Rattle.std.specs.Prelude.{◌≡◌, List, Option, Some, None, true};
ghost use Rattle.std.specs.FinMap.{get};
ghost use Rattle.key_slot.specs.Record.{Bytes, IsAscending};
ghost use Rattle.header_gate.specs.declared.layout.Layout.{Layout};
ghost use Rattle.map_model.specs.Scan.{is_within};
ghost use Rattle.command_text.specs.Session.{Session};
ghost use Rattle.command_text.specs.declared.command.Command.{Command};
ghost use Rattle.map_model.specs.Cursors.{Way, onward, back};
ghost use Rattle.cursor_set.specs.Lives.{InEach, StaysOpen, StepsOnly, Ends, HasKey, Each, AreNearest, opened, at_end, given, last_given, records_of, times};
ghost use Rattle.cursor_set.specs.Ways.{IsDescending, NoneBeyond};

/// A law of sessions: whatever commands come between, a cursor that is opened and stays open gives records within its bounds,
/// each of which is in the map at that moment. If it steps in one way alone, their keys strictly rise, or strictly fall; and
/// if it comes to its end then, each key within its bounds that was in the map in every state since its opening was given
/// exactly once.
pub fn cursors_give_each_record_once()
    // Whatever commands come between, the keys that a cursor gives while it stays open strictly rise if it only steps on, and
    // strictly fall if it only steps back.
    ensures ascending { (name : Bytes) (low high : Option Bytes) (l : Layout) (s : Session) (cs : List Command) →
        StaysOpen name low high l s cs → StepsOnly onward name cs →
        IsAscending (records_of (given name low high l s cs)) }
    ensures descending { (name : Bytes) (low high : Option Bytes) (l : Layout) (s : Session) (cs : List Command) →
        StaysOpen name low high l s cs → StepsOnly back name cs →
        IsDescending (records_of (given name low high l s cs)) }
    // Each record that a cursor gives while it stays open lies within its bounds, and is in the map at that moment, whatever
    // commands come between.
    ensures within { (name : Bytes) (low high : Option Bytes) (l : Layout) (s : Session) (cs : List Command) →
        StaysOpen name low high l s cs →
        Each (λ g. is_within low high g.row.0 ≡ true) (given name low high l s cs) }
    ensures found { (name : Bytes) (low high : Option Bytes) (l : Layout) (s : Session) (cs : List Command) →
        StaysOpen name low high l s cs →
        Each (λ g. get g.map g.row.0 ≡ Some g.row.1) (given name low high l s cs) }
    // If a cursor stays open and steps in one way alone, up to its end, it gave each key within its bounds exactly once that was
    // in the map in every state since its opening.
    ensures once { (way : Way) (name : Bytes) (low high : Option Bytes) (l : Layout) (s : Session) (cs : List Command) →
        StaysOpen name low high l s cs → StepsOnly way name cs → Ends way name low high l s cs →
        (key : Bytes) → is_within low high key ≡ true → InEach (HasKey key) l (opened name low high l s) cs →
        times key (records_of (given name low high l s cs)) ≡ 1 }
{}

/// A law of sessions: whatever commands come between, and in whatever order a cursor that stays open is told to step on and back,
/// each step gives the record whose key is nearest to the last that it gave: the least above it, or the greatest below. A cursor
/// that gave none steps on from its lower bound, and back from its upper one. It comes to its end if there is no such record.
pub fn cursors_step_to_the_nearest()
    // While a cursor stays open each step on gives the least key above the last one given, and each step back the greatest below,
    // within the bounds and in the map of that moment. A cursor that gave none begins at its bounds.
    ensures nearest { (name : Bytes) (low high : Option Bytes) (l : Layout) (s : Session) (cs : List Command) →
        StaysOpen name low high l s cs →
        AreNearest low high None (given name low high l s cs) }
    // A cursor that stayed open comes to its end only if no key of the map within its bounds lies ahead on that way.
    ensures ends { (way : Way) (name : Bytes) (low high : Option Bytes) (l : Layout) (s : Session) (cs : List Command) →
        StaysOpen name low high l s cs → Ends way name low high l s cs →
        NoneBeyond way low high (last_given None (given name low high l s cs)) (at_end name low high l s cs).store.map }
{}

//! Laws of files with an intent: what they mean through every moment of a batch.

ghost use Rattle.std.specs.Prelude.{◌≡◌, ◌⊎◌, ℕ, ◌≤◌, true, List, T, take, length, None};
ghost use Rattle.std.specs.List.{list_all};
ghost use Rattle.station.specs.Bytes.{Touched};
ghost use Rattle.header_gate.specs.declared.layout.Layout.{Layout};
ghost use Rattle.header_gate.specs.declared.layout.TheConstants.{INTENT_VERSION};
ghost use Rattle.header_gate.specs.Header.{layout_in, intent_gate};
ghost use Rattle.header_gate.specs.Places.{height_limit};
ghost use Rattle.map_model.specs.Store.{Map, Update};
ghost use Rattle.map_model.specs.After.{map_after_items};
ghost use Rattle.map_model.specs.ItemWords.{AreAdmitted};
ghost use Rattle.map_model.specs.Image.{Represents, RepresentsMap, height_of, slot_format};
ghost use Rattle.batch_intent.specs.Spelling.{IsIntent, fits_item};
ghost use Rattle.batch_intent.specs.Gate.{IsIntentGatePlace, Intends};
ghost use Rattle.batch_intent.specs.Means.{has_waiting, waiting, Means, meant_map, KeepsIntent, IsApart, InBatch, map_after_all, opening_reason};

/// A law: a file means at most one map, at the height that it names.
pub fn files_mean_one_map()
    ensures { (l : Layout) (image : List ℕ) (m : Map) (means : Means l image m) → (m ≡ meant_map image) ×
        (means.height ≡ height_of image) }
{}

/// A law: what the writing of an intent leaves of a file without one that is to be applied has the layout of before and means the
/// map of before, or is at the beginning of the batch.
pub fn batches_begin_at_once()
    // From version 2 on, what the writing of one item or more, all of which fit the slot format, leaves of a file that represents
    // a map and has no intent that is to be applied, has the layout of before and means the map of before, or is at the beginning
    // of the batch.
    ensures { (old new : List ℕ) (base : Map) (height : ℕ) (items : List Update) → Represents old base height →
        intent_gate old ≡ 0 → INTENT_VERSION ≤ (layout_in old).version →
        1 ≤ length items → IsIntent items → T (list_all (fits_item (slot_format old)) items) → Intends items old new →
        ((means : Means (layout_in old) new base) × (means.height ≡ height)) ⊎ InBatch (layout_in old) base items 0 new }
{}

/// A law: in the middle of a batch of items that meet no full store a file means the map after all of them. It stays in the
/// middle through each update, and means that map behind the last one, while the gate is closed too. A file with an intent
/// that is to be applied is at the beginning of its batch.
pub fn batches_go_on()
    // In the middle of a batch whose items meet no full store, a file has the layout of before, and means the map after all of
    // them, however many were made.
    ensures means { (layout : Layout) (base : Map) (items : List Update) → AreAdmitted (height_limit layout) base items →
        (k : ℕ) (image : List ℕ) → InBatch layout base items k image → Means layout image (map_after_all layout base items) }
    // A file stays in the middle of a batch if its intent is kept and it represents the map after some of the items, from the
    // first on.
    ensures next { (layout : Layout) (base : Map) (items : List Update) (start image : List ℕ) (k j : ℕ) →
        InBatch layout base items k start → KeepsIntent start image →
        RepresentsMap image (map_after_items (height_limit layout) base (take j items)) → InBatch layout base items j image }
    // Once its map is that behind the last item of a batch whose items meet no full store, a file goes on to mean that map while
    // the gate is closed.
    ensures closed { (layout : Layout) (base : Map) (items : List Update) → AreAdmitted (height_limit layout) base items →
        (start image : List ℕ) (k : ℕ) → InBatch layout base items k start →
        map_after_items (height_limit layout) base (take k items) ≡ map_after_all layout base items →
        Touched IsIntentGatePlace start image → Means layout image (map_after_all layout base items) }
    // A file that means a map and has an intent that is to be applied is at the beginning of its batch.
    ensures begun { (l : Layout) (image : List ℕ) (m : Map) (means : Means l image m) → has_waiting image ≡ true →
        InBatch l means.base (waiting image) 0 image }
{}

/// A law: an image that differs at no byte of identity, intent and its gate, and has the same slot format, has the same
/// intent. So an update of one key leaves the intent as it is.
pub fn updates_keep_intents()
    ensures { (old new : List ℕ) → slot_format new ≡ slot_format old → Touched IsApart old new → KeepsIntent old new }
{}

/// A law: there is no reason against a file that is to be opened exactly if it means a map.
pub fn opening_reasons_are_exact()
    ensures no_reason { (image : List ℕ) → opening_reason image ≡ None →
        (means : Means (layout_in image) image (meant_map image)) × (means.height ≡ height_of image) }
    ensures accepted { (l : Layout) (image : List ℕ) (m : Map) → Means l image m → opening_reason image ≡ None }
{}

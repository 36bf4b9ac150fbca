//! What holds of clean images.

ghost use Rattle.std.specs.Prelude.{◌≡◌, ℕ, List, Some, None};
ghost use Rattle.station.specs.Bytes.{byte, Touched};
ghost use Rattle.header_gate.specs.Header.{clean_gate, layout_in};
ghost use Rattle.header_gate.specs.Reasons.{header_reason};
ghost use Rattle.header_gate.specs.declared.reason.Reason.{Reason};
ghost use Rattle.index_file.specs.Clean.{IsClean, IsCleanPlace, IsIndexed, IsLeft, IsShut, version_of};
ghost use Rattle.index_file.specs.IndexOpening.{IsQuick};
ghost use Rattle.index_file.specs.IndexReasons.{area_reason};
ghost use Rattle.map_model.specs.Image.{height_of};

/// A law: what closes an odd clean gate, and what leaves an even one alone, keeps an image clean; and the index of a clean
/// image that is refused means nothing.
///
/// So a word that closes the gate before it writes anything else leaves clean images at every moment.
pub fn clean_images()
    // An image without an index, or with an even clean gate, is clean.
    ensures shut { (image : List ℕ) → IsShut image → IsClean image }
    // A clean image with an odd clean gate stays clean if no byte changes but the gate, whatever the gate becomes.
    ensures closing { (old new : List ℕ) → IsClean old → clean_gate old ≡ 1 → Touched IsCleanPlace old new → IsClean new }
    // An image is clean if the byte of its clean gate is that of an image with an even one, whatever else differs.
    ensures untouched { (old new : List ℕ) → clean_gate old ≡ 0 → byte new 704 ≡ byte old 704 → IsClean new }
    // A clean image with a reason against its header has no index, or an even clean gate.
    ensures refused { (image : List ℕ) (r : Reason) → IsClean image → header_reason image ≡ Some r → IsShut image }
{}

/// A law: nothing is wrong with the index of an image that was left.
pub fn left_indexes_are_sound()
    ensures { (image : List ℕ) → IsLeft image → area_reason (layout_in image) (height_of image) image ≡ None }
{}

/// A law: a clean file of version 3 or 4 whose clean gate is odd may be opened by its index, as `IsQuick` asks.
pub fn clean_files_are_quick()
    ensures { (image : List ℕ) → IsClean image → IsIndexed (version_of image) → clean_gate image ≡ 1 → IsQuick image }
{}

//! Laws on frames. Each function does nothing: its contract is the law.
ghost use Rattle.std.specs.Prelude.{◌≡◌, ℕ, ◌+◌, ◌<◌, ◌≤◌, List, ◌++◌, length};
ghost use Rattle.fix_fields.specs.Fields.{FieldValue, AreFields};
ghost use Rattle.fix_fields.specs.Frames.{FrameValue, IsFrameAt};
ghost use Rattle.fix_fields.specs.Rests.{cut_most};
ghost use Rattle.fix_fields.specs.Found.{Finds, IsSettled};
ghost use Rattle.fix_fields.specs.declared.frame.Found.{Found};
ghost use Rattle.fix_fields.specs.declared.frame.Found.TheVariants.{Cut};

/// A frame stays one, with the same fields, where bytes are added at the end.
pub fn frame_stays()
    ensures { (bytes : List ℕ) (more : List ℕ) (from : ℕ)
        (frame : FrameValue) (body_from : ℕ) (body_to : ℕ)
        → IsFrameAt bytes from frame body_from body_to
        → IsFrameAt (bytes ++ more) from frame body_from body_to }
{}

/// At most one frame stands at a place.
pub fn one_frame_stands_there()
    ensures { (bytes : List ℕ) (from : ℕ)
        (f : FrameValue) (a : ℕ) (b : ℕ) (g : FrameValue) (c : ℕ) (d : ℕ)
        → IsFrameAt bytes from f a b → IsFrameAt bytes from g c d → (f ≡ g) × (a ≡ c) × (b ≡ d) }
{}

/// At most one thing is found from a place on: the five answers exclude each other.
pub fn one_is_found()
    ensures { (bytes : List ℕ) (from : ℕ) (found : Found) (other : Found)
        → Finds bytes from found → Finds bytes from other → found ≡ other }
{}

/// A frame, a broken rest and one that is too long stay so where bytes are added at the end.
pub fn found_stays()
    ensures { (bytes : List ℕ) (more : List ℕ) (from : ℕ) (found : Found)
        → IsSettled found → Finds bytes from found → Finds (bytes ++ more) from found }
{}

/// Bytes that end within a frame are cut at its place.
pub fn bytes_in_a_frame_are_cut()
    ensures { (bytes : List ℕ) (missing : List ℕ) (from : ℕ)
        (frame : FrameValue) (body_from : ℕ) (body_to : ℕ)
        → IsFrameAt (bytes ++ missing) from frame body_from body_to
        → frame.place < length bytes → length bytes < frame.end
        → Finds bytes from (Cut frame.place) }
{}

/// A cut rest has at most 8,218 bytes.
pub fn cut_is_short()
    ensures { (bytes : List ℕ) (from : ℕ) (place : ℕ)
        → Finds bytes from (Cut place) → length bytes ≤ place + cut_most }
{}

/// A frame begins at or after the place from which it was looked for, ends after it begins, and ends
/// within the bytes.
pub fn frame_is_within()
    ensures { (bytes : List ℕ) (from : ℕ) (frame : FrameValue) (body_from : ℕ) (body_to : ℕ)
        → IsFrameAt bytes from frame body_from body_to
        → (from ≤ frame.place) × (frame.place < frame.end) × (frame.end ≤ length bytes) }
{}

/// A text is at most one list of fields.
pub fn one_list_is_spelled()
    ensures { (text : List ℕ) (fields : List FieldValue) (others : List FieldValue)
        → AreFields text fields → AreFields text others → fields ≡ others }
{}

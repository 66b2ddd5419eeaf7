//! What is written is read again.
ghost use Rattle.std.specs.Prelude.{◌≡◌, ◌≢◌, ℕ, ◌≤◌, List, [], ◌∷◌, ◌++◌, length, Some};
ghost use Rattle.std.specs.List.{AllByRecursion};
ghost use Rattle.fix_fields.specs.Fields.{FieldValue, IsField, field, fields_text};
ghost use Rattle.fix_fields.specs.Frames.{FrameValue, IsFrameAt, body_most};
ghost use Rattle.fix_fields.specs.Messages.{message_text};

/// What is written is read again at its start as one sound frame with the same fields, whatever
/// follows it. A body of more than 8,192 bytes is written but not read.
pub fn written_is_read()
    ensures { (fields : List FieldValue) (value : List ℕ) (others : List FieldValue) (more : List ℕ)
        → AllByRecursion IsField fields → fields ≡ field 35 value ∷ others → value ≢ []
        → length (fields_text fields) ≤ body_most
        → (body_from : ℕ) × (body_to : ℕ) × IsFrameAt (message_text fields ++ more) 0
        (record { place = 0; end = length (message_text fields); fields = Some fields })
        body_from body_to }
{}

//! Laws over the definitions of lines and shapes. Each is the contract of a function with an empty
//! body.
ghost use Rattle.std.specs.Prelude.{◌≡◌, ◌≢◌, ℕ, List};
ghost use Rattle.roman_model.specs.Lines.{ended_lines};
ghost use Rattle.roman_text.specs.Lines.{IsSplit, unfinished, line_head};
ghost use Rattle.roman_text.specs.Shapes.{LineShape, Words, nothing, spelling, shape_of, shape_of_words};
ghost use Rattle.roman_text.specs.declared.errors.LineError.TheVariants.{Form};

/// The bytes before each newline are the lines of a text, and this split is the only one. So the
/// lines don't depend on the pieces in which the bytes arrive.
pub fn split_lines()
    ensures are { (bytes : List ℕ) → IsSplit bytes (ended_lines bytes) (unfinished bytes) }
    ensures only { (bytes : List ℕ) (lines : List (List ℕ)) (rest : List ℕ) → IsSplit bytes lines rest →
        (lines ≡ ended_lines bytes) × (rest ≡ unfinished bytes) }
{}

/// The spelling of an event parses as that event, and no other words do. Exception: comments also
/// parse as the event that gets no reply. Words that fail to parse aren't the spelling of any
/// event.
#[tactic(auto, using(crate::proofs::ShapeLemmas::spelling_only))]
pub fn spell_events()
    ensures read { (event : LineShape) → shape_of_words (spelling event) ≡ Ok event }
    ensures only { (words : Words) (event : LineShape) → shape_of_words words ≡ Ok event → event ≢ nothing →
        words ≡ spelling event }
    ensures form { (words : Words) (event : LineShape) → shape_of_words words ≡ Err Form →
        words ≢ spelling event }
{}

/// The part of a line that a splitter holds has the same shape as the whole line.
#[tactic(auto, using(crate::proofs::ShapeLemmas::shape_of_line_head))]
pub fn keep_shapes()
    ensures kept { (line : List ℕ) → shape_of (line_head line) ≡ shape_of line }
{}

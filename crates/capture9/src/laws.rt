//! The laws of the rows of a text, each the contract of a function that does nothing.
ghost use Rattle.std.specs.Prelude.{◌≡◌, ◌↔◌, ◌∷◌, true, ℕ, ◌^◌, ◌<◌, ◌≤◌, IsTrue, List, Some, length, nat_lt, take};
ghost use Rattle.std.specs.List.{All, list_all};
ghost use Rattle.std.specs.List.Sorted.{IsNonDecreasingBy};
ghost use Rattle.capture9.specs.Error.{IsAfter, is_of_text};
ghost use Rattle.capture9.specs.Fields.{greatest_limit, is_header, most_rows};
ghost use Rattle.capture9.specs.RowRules.{HasFirstPart};
ghost use Rattle.capture9.specs.Rows.{HasHeader, Rows, rows_within};
ghost use Rattle.capture9.specs.Shown.{in_quotes, is_printable, shown_of, shown_text};
ghost use Rattle.capture9.specs.SomeText.{CanBeRows, IsOfSomeText};
ghost use Rattle.capture9.specs.declared.records.TheConstants.{GREATEST_LIMIT, MOST_ROWS};
ghost use Rattle.csv.specs.Reading.{default_config, records, strip_bom};

use crate::error::CaptureError;
use crate::shown_field::ShownField;

/// The limits that are published are those that the contracts go by.
pub fn published_limits()
    ensures most { MOST_ROWS ≡ most_rows }
    ensures greatest { GREATEST_LIMIT ≡ greatest_limit }
{}

/// A text has its header exactly where its first CSV record is one.
pub fn header_of_a_text()
    ensures { (limit : ℕ) (text : List ℕ) → HasHeader (rows_within limit text)
        ↔ ((fields : List (List ℕ)) × (rest : List (List (List ℕ)))
        × (records default_config (strip_bom text) ≡ fields ∷ rest) × (is_header fields ≡ true)) }
{}

/// A text has no more records than it may have. Their times never fall, and each is below 10^15.
pub fn records_of_a_text()
    ensures within { (limit : ℕ) (text : List ℕ) → length (rows_within limit text).records ≤ limit }
    ensures in_order { (limit : ℕ) (text : List ℕ) → IsNonDecreasingBy (λ r. r.time_us) (rows_within limit text).records }
    ensures in_range { (limit : ℕ) (text : List ℕ) → All (λ r. r.time_us < 10 ^ 15) (rows_within limit text).records }
{}

/// The fault of a text is of the text itself. The header's is at row 0, where there is no record, and every
/// other is at the row after the records: at the one after the limit exactly where that is a row too many.
pub fn fault_of_a_text()
    ensures of_text { (limit : ℕ) (text : List ℕ) (e : CaptureError) → (rows_within limit text).fault ≡ Some e
        → IsTrue (is_of_text e.kind) }
    ensures place { (limit : ℕ) (text : List ℕ) (e : CaptureError) → (rows_within limit text).fault ≡ Some e
        → IsAfter limit (rows_within limit text).records e }
{}

/// Behind its header a text holds the records that its longest first part of good rows spells, one each. Where a row
/// is left, the text's fault is the first rule in order that this row breaks, and else there is none.
pub fn longest_first_part()
    ensures { (limit : ℕ) (text : List ℕ) (header : List (List ℕ)) (rows : List (List (List ℕ)))
        → records default_config (strip_bom text) ≡ header ∷ rows → is_header header ≡ true
        → HasFirstPart limit rows (rows_within limit text) }
{}

/// The rows of a text are a list of records that keeps the limits, with no fault or one that can follow it, and each
/// such list is that of some text.
pub fn rows_of_some_text()
    ensures each_text { (limit : ℕ) (text : List ℕ) → CanBeRows limit (rows_within limit text) }
    ensures some_text { (limit : ℕ) (rows : Rows) → CanBeRows limit rows → IsOfSomeText limit rows }
{}

/// The text of a field has its first 24 bytes, and dots exactly where it has more. Whatever the bytes are, it is printable ASCII:
/// so it stays on one line, and has no control characters.
pub fn text_of_a_field()
    ensures text { (field : List ℕ) → shown_text (shown_of field) ≡ in_quotes (take 24 field) (nat_lt 24 (length field)) }
    ensures printable { (field : ShownField) → list_all is_printable (shown_text field) ≡ true }
{}

//! What holds of the grammar of lines, values and subsections. Each law is a function without a body: its
//! clauses are proved.

ghost use Rattle.std.specs.Prelude.{◌≡◌, ◌↔◌, ◌∷◌, ℕ, List, Option, Some, false};
ghost use Rattle.fetch_config.specs.Lines.{line_of};
ghost use Rattle.fetch_config.specs.Marks.{IsInParts, SaysValue};
ghost use Rattle.fetch_config.specs.Print.{value_text};
ghost use Rattle.fetch_config.specs.Shapes.{SaysEntry, SaysHeader};
ghost use Rattle.fetch_config.specs.Subsections.{IsQuotedName};
ghost use Rattle.fetch_config.specs.Values.{unquoted, value_of, subsection_of};
ghost use Rattle.fetch_config.specs.declared.line.Line.TheVariants as lines;

/// A value that is written after `= ` is read as it was.
pub fn a_written_value_is_read_back()
    ensures { (value : List ℕ) → value_of (32 ∷ value_text value) ≡ Some value }
{}

/// Quotes group, and a backslash makes an escape: a text without comment and outer blanks says a value exactly where
/// it is made of characters and quoted runs of characters that stand for it.
pub fn quotes_group_and_escapes_are_read()
    ensures { (text : List ℕ) → (value : List ℕ) → (unquoted false false text ≡ Some value) ↔ IsInParts text value }
{}

/// A value is what stands after the `=` without outer blanks, up to a `#` or `;` outside quotes.
pub fn a_value_stands_between_blanks_before_a_comment()
    ensures { (text : List ℕ) → (value : List ℕ) → (value_of text ≡ Some value) ↔ SaysValue text value }
{}

/// A subsection ends at its first quote that has no backslash before it; a backslash takes the next byte as it is, and
/// each other byte stands for itself.
pub fn a_backslash_takes_the_next_byte_of_a_subsection()
    ensures { (text : List ℕ) → (name : List ℕ) → (rest : List ℕ)
        → (subsection_of false text ≡ Some (name, rest)) ↔ IsQuotedName text name rest }
{}

/// A line is a header exactly where it is blanks, a bracket, a name, maybe blanks and a subsection between
/// quotes, a bracket, and then nothing or a comment.
pub fn a_header_is_a_name_between_brackets()
    ensures { (text : List ℕ) → (name : List ℕ) → (sub : Option (List ℕ))
        → (line_of text ≡ Some (lines.Header name sub)) ↔ SaysHeader text name sub }
{}

/// A line is an entry exactly where it is blanks, a key, blanks, and then a `=` with a value after it, or
/// nothing: an implicit entry.
pub fn an_entry_is_a_key_and_maybe_a_value()
    ensures { (text : List ℕ) → (key : List ℕ) → (value : Option (List ℕ))
        → (line_of text ≡ Some (lines.Entry key value)) ↔ SaysEntry text key value }
{}

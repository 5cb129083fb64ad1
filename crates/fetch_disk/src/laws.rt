//! What bytes of a journal stand for, in the format's own words.

ghost use Rattle.std.specs.Prelude.{◌≡◌, ◌<◌, ◌^◌, List, ℕ, length};
ghost use Rattle.fetch_base.specs.declared.id.Kind.{Kind};
ghost use Rattle.fetch_disk.specs.Records.{opened, journal_of, Stands, IsDamagedAt, IsForeign};
ghost use Rattle.fetch_disk.specs.declared.journal_error.JournalError.{JournalError};
ghost use Rattle.fetch_disk.specs.declared.record.Record.{Record};

/// A text has one reading: it is foreign, or damaged at one place, or stands for one list of records.
pub fn one_reading()
    ensures records { (hash : Kind) (bytes : List ℕ) (es fs : List Record) → Stands hash bytes es → Stands hash bytes fs → es ≡ fs }
    ensures place { (hash : Kind) (bytes : List ℕ) (p q : ℕ) → IsDamagedAt hash bytes p → IsDamagedAt hash bytes q → p ≡ q }
    ensures sound { (hash : Kind) (bytes : List ℕ) (es : List Record) (p : ℕ) → Stands hash bytes es → IsDamagedAt hash bytes p → ⊥ }
    ensures known { (hash : Kind) (bytes : List ℕ) (es : List Record) (e : JournalError) → Stands hash bytes es → IsForeign bytes e → ⊥ }
{}

/// What is written is read back, whatever stands behind the closed gate.
pub fn what_is_written_is_read()
    ensures { (hash : Kind) (es : List Record) → length (opened hash es) < 2 ^ 64 → Stands hash (journal_of hash es) es }
{}

//! What is asked, in other words. Each law is the contract of a function without a body.

ghost use Rattle.std.specs.Prelude.{◌≡◌, ◌++◌, Bool, true, List, ℕ, Ok, None};
ghost use Rattle.fetch_base.specs.declared.id.Kind.{Kind};
ghost use Rattle.fetch_asked.specs.Texts.{IsBegun, and_more, asked_in, ends_at, request_at, with_first};
ghost use Rattle.fetch_asked.specs.declared.asked.Asked.{Asked};

/// What a text asks stays when more bytes come: they are read on behind it, and behind a line that can't stand nothing is
/// read. So it doesn't matter how a text is cut into pieces.
pub fn what_is_asked_stays()
    ensures { (hash : Kind) (begun : Bool) (text more : List ℕ) →
        asked_in hash begun (text ++ more) ≡ and_more hash more (asked_in hash begun text) (asked_in hash begun text).trouble }
{}

/// A text is its first request and those behind it; of the beginning of a request nothing is whole.
pub fn requests_come_one_by_one()
    ensures first { (hash : Kind) (begun : Bool) (text rest : List ℕ) (asked : Asked) →
        request_at hash begun text ≡ Ok (asked, rest) → asked_in hash begun text ≡ with_first asked (asked_in hash true rest) }
    ensures begun { (hash : Kind) (begun : Bool) (text : List ℕ) → IsBegun hash begun text
        → asked_in hash begun text ≡ ends_at begun text None }
{}

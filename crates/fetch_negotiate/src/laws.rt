//! What the definitions say, in other words.

ghost use Rattle.std.specs.Prelude.{◌≡◌, ◌↔◌, ◌<◌, ◌≤◌, ◌*◌, true, false, List, drop, length};
ghost use Rattle.std.specs.FinMap as map;
ghost use Rattle.std.specs.FinSet as set;
ghost use Rattle.std.specs.List.{All, IsDistinct};
ghost use Rattle.std.specs.Ordering.{eq_by_cmp};
ghost use Rattle.fetch_base.specs.declared.id.ObjectId.{ObjectId};
ghost use Rattle.fetch_store.specs.Graph.{Graph};
ghost use Rattle.fetch_base.specs.Id.{id_cmp};
ghost use Rattle.fetch_negotiate.specs.declared.algorithm.Algorithm.{Algorithm};
ghost use Rattle.fetch_negotiate.specs.declared.algorithm.Round.{Round};
ghost use Rattle.fetch_negotiate.specs.declared.skip.Skip.{Skip};
ghost use Rattle.fetch_negotiate.specs.Ancestors.{is_ancestor, IsAncestor};
ghost use Rattle.fetch_negotiate.specs.Any.{begun};
ghost use Rattle.fetch_negotiate.specs.Commits.{IsStoredCommit};
ghost use Rattle.fetch_negotiate.specs.Haves.{Negotiation};
ghost use Rattle.fetch_negotiate.specs.Passing.{IsOffer};
ghost use Rattle.fetch_negotiate.specs.Rounds.{AreRounds, haves_in};
ghost use Rattle.fetch_negotiate.specs.Skips.{next_offered, pairs_of};
ghost use Rattle.fetch_negotiate.specs.Windows.{first_size};

/// An ancestor ends a line of stored commits, each a parent of the one before. None but the last of them is a border
/// commit, and neither is the commit that the line begins at.
pub fn ancestors_end_lines()
    ensures { (g : Graph) (border : set.FinSet id_cmp) (from to : ObjectId)
        → (is_ancestor g border from to ≡ true) ↔ IsAncestor g border from to }
{}

/// The haves of all rounds are stored commits, and each stands in one window alone and once there.
pub fn haves_are_told_once()
    ensures once { (g : Graph) (algorithm : Algorithm) (tips : List ObjectId) (border : set.FinSet id_cmp) (rounds : List Round)
        → AreRounds g algorithm first_size (begun algorithm tips border) rounds → IsDistinct (eq_by_cmp id_cmp) (haves_in rounds) }
    ensures stored { (g : Graph) (algorithm : Algorithm) (tips : List ObjectId) (border : set.FinSet id_cmp) (rounds : List Round)
        → AreRounds g algorithm first_size (begun algorithm tips border) rounds → All (IsStoredCommit g) (haves_in rounds) }
{}

/// A round that doesn't end the rounds tells a full window, of sixteen commits or more. So there are no more such rounds,
/// times sixteen, than stored objects.
pub fn open_rounds_are_few()
    ensures full { (g : Graph) (algorithm : Algorithm) (tips : List ObjectId) (border : set.FinSet id_cmp) (rounds : List Round)
        → AreRounds g algorithm first_size (begun algorithm tips border) rounds → All (λ r. r.done ≡ false → 16 ≤ length r.haves) rounds }
    ensures few { (g : Graph) (algorithm : Algorithm) (tips : List ObjectId) (border : set.FinSet id_cmp) (rounds : List Round)
        → AreRounds g algorithm first_size (begun algorithm tips border) rounds → All (λ r. r.done ≡ false) rounds
        → 16 * length rounds ≤ map.len g }
{}

/// Where commits are passed over, each is the next one and isn't offered. Then one is offered, or nothing is left.
pub fn skipping_ends_where_nothing_is_left()
    ensures { (g : Graph) (n : Negotiation) → IsOffer g n (next_offered g n) }
{}

/// Of the pairs that were handed out, those of the tips aside, each counts from one. So a commit whose first is 0 was
/// handed nothing but what a tip has.
pub fn pairs_handed_on_count_from_one()
    ensures { (g : Graph) (n : Negotiation) → All (λ (p : ObjectId × Skip). 0 < p.1.first) (drop (length n.tips) (pairs_of g n)) }
{}

//! A repository that threads share.

ghost use Rattle.std.specs.Prelude.{◌≡◌, ◌↔◌, ◌⊎◌, ℕ, ◌+◌, ◌<◌, ◌≤◌, [], All, IfOk, IsOk, IsOkUnless, MatchOption, Err, slice_get};
ghost use Rattle.fetch_store.specs.Missing.{unclosed};
ghost use Rattle.fetch_journal.specs.declared.error.SharedError.TheVariants as errors;
ghost use Rattle.fetch_shared.specs.declared.view.Stage.TheVariants.{Resting};
ghost use Rattle.fetch_journal.specs.Journals.{Begins, entries_of, pass_of};
ghost use Rattle.fetch_journal.specs.Machine.{held};
ghost use Rattle.fetch_shared.specs.Numbers.{span, Holds};
ghost use Rattle.fetch_journal.specs.Shared.{IsKept};
ghost use Rattle.fetch_shared.specs.LockRule.{left_part, right_part};

use crate::lock::TURN;
use crate::lock_rule::{Cut, Desk, Glue, Learn, Place, Settle, Share};
use crate::pass::Pass;
use crate::view::Span;
use fetch_conversation::Settings;
use fetch_journal::{Entry, SharedError, SharedState};
use fetch_remote::Repository;
use opening_value::Opening;
use std::alloc::Global;
use std::marker::{Brand, Model};
use std::sync::Wait;
use std::sync::atomic::AtomicU64;

/// A repository under a lock that passes take in turn; who waits for it sleeps. Contracts see which one it is, and what it
/// opened as. Its settings stand beside the lock, since they never change.
///
/// Objects can't be read while it is shared: close it, or keep a copy. The graph of what is stored is kept beside it: a plan,
/// a take and a snapshot copy it while they have the turn.
// Not copied: it is one lock, which all that share it lend.
#[derive(Drop)]
pub struct SharedRepository {
    pub(crate) table: Desk,
    settings: Settings,
    /// How many passes sleep until the turn is free.
    pub(crate) sleepers: AtomicU64,
}

impl Model for SharedRepository {
    ghost use Rattle.std.specs.Prelude.{◌≡◌};
    ghost use Rattle.fetch_shared.specs.PassCodes.{coded_which};
    ghost use Rattle.fetch_shared.specs.Passes.{IsShared, Which};

    ghost Value = { Which };

    ghost coded = { coded_which };

    ghost view = { λ s. record { table = s.table.shared.table_id; opening = s.table.shared.key.value } };

    ghost invariant = { λ s. IsShared s.table.shared.table_id s.table.shared.key.value s.settings };
}

impl SharedRepository {
    /// Shares a closed repository, with no entry yet, and gives the pass that holds every number. `NotClosed` comes exactly
    /// where the repository isn't closed, with its first missing link.
    pub fn new(alloc: Global, repo: Repository) -> Result<(SharedRepository, Pass), SharedError>
        ensures closed { MatchOption (slice_get (unclosed (held repo)) 0) (IsOkUnless result errors.NoMemory)
            (λ link. result ≡ Err (errors.NotClosed link)) }
        ensures shared { IfOk result (λ r. (r.1.shared ≡ r.0) × (r.0.opening ≡ repo)) }
        ensures numbers { IfOk result (λ r. (r.1.number ≡ 0) × (r.1.unused ≡ span 1 18446744073709551615)) }
        ensures all { IfOk result (λ r. (n : ℕ) → n < 18446744073709551615 → Holds r.1.held n) }
        ensures front { IfOk result (λ r. r.1.front ≡ []) }
    {
        let opening = Opening::of(&repo);
        let state = SharedState::new(alloc, repo)?;
        let Ok(settings) = state.settings().try_clone(alloc) else {
            return Err(SharedError::NoMemory);
        };
        let mut slots = Vec::new(alloc);
        if slots.push(Some(state)).is_err() {
            return Err(SharedError::NoMemory);
        }
        let Ok((table, seat)) = Desk::new(alloc, &[0, 0], slots, &opening) else {
            return Err(SharedError::NoMemory);
        };
        let pass = Pass {
            number: 0,
            unused: Span {
                first: 1,
                end: u64::MAX,
            },
            seat,
        };
        let shared = SharedRepository {
            table,
            settings,
            sleepers: AtomicU64::new(0),
        };
        Ok((shared, pass))
    }

    /// Configuration, leniency, git directory, hash and committer. They never change.
    pub fn settings(&self) -> &Settings
        ensures settings { result.now ≡ self.now.opening.setup.settings }
        ensures hash { result.now.kind ≡ self.now.opening.state.hash }
    {
        &self.settings
    }

    /// Gives the first `numbers` of the unused numbers to a new pass, the least of them as its own. It waits for
    /// nobody, and takes no memory. It is never refused.
    pub fn split(&self, pass: Pass, numbers: u64) -> Result<(Pass, Pass), (Pass, SharedError)>
        requires shared { pass.shared ≡ self.now }
        requires numbers { (1 ≤ numbers) × (pass.unused.first + numbers ≤ pass.unused.end) }
        ensures splits { IsOk result }
        ensures shared { IfOk result (λ r. (r.0.shared ≡ self.now) × (r.1.shared ≡ self.now)) }
        ensures left { IfOk result (λ r. (r.0.number ≡ pass.number) × (r.0.unused ≡ span (pass.unused.first + numbers) pass.unused.end)) }
        ensures right { IfOk result (λ r. (r.1.number ≡ pass.unused.first)
            × (r.1.unused ≡ span (pass.unused.first + 1) (pass.unused.first + numbers))) }
        ensures got { IfOk result (λ r. (n : ℕ) → Holds r.1.held n ↔ ((pass.unused.first ≤ n) × (n < pass.unused.first + numbers))) }
        ensures others { IfOk result (λ r. (n : ℕ) → Holds r.0.held n ↔ (Holds pass.held n × ¬ Holds r.1.held n)) }
        ensures fronts { IfOk result (λ r. (r.0.front ≡ pass.front) × (r.1.front ≡ pass.front)) }
        ensures new { IfOk result (λ r. (n : ℕ) → Holds r.1.held n → entries_of n pass.front ≡ []) }
    {
        let Pass {
            number,
            unused,
            mut seat,
        } = pass;
        self.table.shared.load::<Learn>(&mut seat, TURN);
        let right = cut::<Brand>(&self.table, &mut seat, numbers);
        let end = unused.first + numbers;
        let left_pass = Pass {
            number,
            unused: Span {
                first: end,
                end: unused.end,
            },
            seat,
        };
        let right_pass = Pass {
            number: unused.first,
            unused: Span {
                first: unused.first + 1,
                end,
            },
            seat: right,
        };
        Ok((left_pass, right_pass))
    }

    /// One pass for two. The right one's numbers are not used again. It waits for nobody.
    pub fn join(&self, left: Pass, right: Pass) -> Pass
        requires left { left.shared ≡ self.now }
        requires right { right.shared ≡ self.now }
        ensures shared { result.shared ≡ self.now }
        ensures numbers { (result.number ≡ left.number) × (result.unused ≡ left.unused) }
        ensures held { (n : ℕ) → Holds result.held n ↔ (Holds left.held n ⊎ Holds right.held n) }
        ensures begins { Begins left.front result.front × Begins right.front result.front }
        ensures left_entries { (n : ℕ) → Holds left.held n → entries_of n result.front ≡ entries_of n left.front }
        ensures right_entries { (n : ℕ) → Holds right.held n → entries_of n result.front ≡ entries_of n right.front }
        ensures longer { (result.front ≡ left.front) ⊎ (result.front ≡ right.front) }
    {
        let Pass {
            number,
            unused,
            mut seat,
        } = left;
        let Pass {
            number: _,
            unused: _,
            seat: other,
        } = right;
        self.table.shared.join_seat::<Glue>(&mut seat, other);
        self.table.shared.load::<Settle>(&mut seat, TURN);
        Pass {
            number,
            unused,
            seat,
        }
    }

    /// The repository that the journal leaves, and the journal. It waits for the turn, and takes no memory. Passes that
    /// still stand are of no further use. It is never refused.
    pub fn close<R: Wait>(
        self,
        rt: &R,
        pass: Pass,
    ) -> Result<(Repository, Vec<Entry>), (SharedRepository, Pass, SharedError)>
        requires { pass.shared ≡ self }
        ensures closes { IsOk result }
        ensures kept { IfOk result (λ r. IsKept (record { opening = self.opening; repository = r.0; journal = r.1.items })) }
        ensures begins { IfOk result (λ r. Begins pass.front r.1.items) }
        ensures entries { IfOk result (λ r. (n : ℕ) → Holds pass.held n → entries_of n r.1.items ≡ entries_of n pass.front) }
        ensures numbered { IfOk result (λ r. All (λ e. pass_of e < 18446744073709551615) r.1.items) }
        ensures whole { IfOk result (λ r. ((n : ℕ) → n < 18446744073709551615 → Holds pass.held n) → r.1.items ≡ pass.front) }
    {
        let Pass {
            number: _,
            unused: _,
            mut seat,
        } = pass;
        Ok(self.take_turn(rt, &mut seat).into_parts())
    }
}

// Cuts the first `numbers` of the unused numbers off a seat's view.
fn cut<C: Share>(table: &Desk, seat: &mut Place, numbers: u64) -> Place
    requires numbers { numbers ≡ C.numbers }
    requires table { (seat.old.table_id ≡ table.now.shared.table_id) × (0 < table.now.shared.table_id.words) }
    requires rests { seat.old.me.0.stage ≡ Resting }
    requires unused { (1 ≤ numbers) × (seat.old.me.0.unused.first + numbers ≤ seat.old.me.0.unused.end) }
    ensures table { (seat.new.table_id ≡ seat.old.table_id) × (result.table_id ≡ seat.old.table_id) }
    ensures left { seat.new.me ≡ (left_part numbers seat.old.me.0, seat.old.me.1) }
    ensures right { result.me ≡ (right_part numbers seat.old.me.0, []) }
{
    table.shared.split_seat::<Cut<C>>(seat)
}

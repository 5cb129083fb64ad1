//! Negotiators: which commits a fetch tells that it has.

ghost use Rattle.std.specs.Prelude.{◌≡◌, ◌++◌, false, List, IfOk, IfSome, OnErr};
ghost use Rattle.std.specs.Option.{option_to_list};
ghost use Rattle.fetch_base.specs.declared.id.ObjectId.{ObjectId};
ghost use Rattle.fetch_negotiate.specs.Commits.{IsStoredCommit, has};
ghost use Rattle.fetch_negotiate.specs.Reading.{IsTold, Read};

use fetch_store::{NoMemory, ObjectId, Objects};
use std::alloc::Global;

/// Tells commits one after another, each once, and takes in which of them the other side has. It keeps what it reads
/// of the objects, which have to tell that as before in each call. That each commit is stored and told once is the law
/// of the trait; which commit comes next, and that those in common don't, each type says of its own calls.
pub trait Negotiator {
    /// The ids that were read, each with the stored commit that was found.
    ghost known: { Self → Read };

    /// The commits given so far, in order.
    ghost given: { Self → List ObjectId };

    /// The next commit, if there is one. Where memory runs out, none is passed over.
    fn next<O: Objects>(&mut self, alloc: Global, objects: &O) -> Result<Option<ObjectId>, NoMemory>
        requires { IsTold (known self.old) (O.graph objects.now) }
        ensures stored { IfOk result (λ next. IfSome next (λ id. IsStoredCommit (O.graph objects.now) id)) }
        ensures fresh { IfOk result (λ next. IfSome next (λ id. has (given self.old) id ≡ false)) }
        ensures given { IfOk result (λ next. given self.new ≡ given self.old ++ option_to_list next) }
        ensures err { OnErr result (given self.new ≡ given self.old) }
        ensures told { IsTold (known self.new) (O.graph objects.now) };

    /// Takes in that the other side has a commit. Each negotiator says by clauses of its own what is told no more.
    fn in_common<O: Objects>(
        &mut self,
        alloc: Global,
        objects: &O,
        id: &ObjectId,
    ) -> Result<(), NoMemory>
        requires { IsTold (known self.old) (O.graph objects.now) }
        ensures given { given self.new ≡ given self.old }
        ensures told { IsTold (known self.new) (O.graph objects.now) };
}

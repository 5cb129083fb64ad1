//! Values with distinct keys, in the order in which they came.

ghost use Rattle.std.specs.Prelude.{◌≡◌, ◌<◌, ◌++◌, ◌∷◌, [], if◌then◌else◌, not, length, IfOk, OnErr, OnOk, vec_len, vec_capacity};
ghost use Rattle.fetch_base.specs.Distinct.{has_key, with_distinct};

use crate::error::NoMemory;
use crate::id::ObjectId;
use std::alloc::Global;
use std::collections::BTreeSet;
use std::marker::Model;

/// What has a key, by which a repeated value is known.
pub trait Keyed<K>: Drop {
    ghost key_of: { Self → K };

    /// The value's key, made anew.
    fn key(&self) -> Result<K, NoMemory>
        ensures { IfOk result (λ key. key ≡ key_of self.now) };
}

impl Keyed<ObjectId> for ObjectId {
    ghost key_of = { λ id. id };

    fn key(&self) -> Result<ObjectId, NoMemory> {
        Ok(*self)
    }
}

/// The first value of each key, in the order in which they came. Contracts see it as the list of the values. To add a
/// value takes time in the logarithm of how many there are.
// Not copied: it is a list in the making, which its maker takes out.
#[derive(Drop)]
pub struct Distinct<K: Ord + Drop, V: Keyed<K>> {
    values: Vec<V>,
    keys: BTreeSet<K>,
}

impl<K: Ord + Drop, V: Keyed<K>> Model for Distinct<K, V> {
    ghost use Rattle.std.specs.Prelude.{List};
    ghost use Rattle.fetch_base.specs.Distinct.{HasKeys};

    ghost Value = { List V };

    ghost view = { λ d. d.values.items };

    ghost invariant = { λ d. HasKeys K.cmp V.key_of d.values.items d.keys.keys };
}

impl<K: Ord + Drop, V: Keyed<K>> Distinct<K, V> {
    /// No value yet.
    pub fn new(alloc: Global) -> Distinct<K, V>
        ensures { result ≡ [] }
    {
        Distinct {
            values: Vec::new(alloc),
            keys: BTreeSet::new(alloc),
        }
    }

    /// Adds the value at the end, unless one with its key came before, and says whether it was added. After an error
    /// the values are as before.
    pub fn add(&mut self, value: V) -> Result<bool, NoMemory>
        ensures new { IfOk result (λ is_new. is_new ≡ not (has_key K.cmp V.key_of self.old (V.key_of value))) }
        ensures added { OnOk result (self.new ≡ with_distinct K.cmp V.key_of self.old value) }
        ensures err { OnErr result (self.new ≡ self.old) }
    {
        let key = value.key()?;
        self.values.reserve(1)?;
        let is_new = self.keys.insert(key)?;
        push_if(is_new, &mut self.values, value);
        Ok(is_new)
    }

    /// The values, lent.
    pub fn as_slice(&self) -> &[V]
        ensures { result.now ≡ self.now }
    {
        self.values.as_slice()
    }

    /// How many values there are.
    pub fn len(&self) -> usize
        ensures { result ≡ length self.now }
    {
        self.values.len()
    }

    /// The values, given back without a copy.
    pub fn into_vec(self) -> Vec<V>
        ensures { result.items ≡ self }
    {
        self.values
    }
}

fn push_if<V: Drop>(is_new: bool, values: &mut Vec<V>, value: V)
    requires { vec_len values.old < vec_capacity values.old }
    ensures { values.new.items ≡ if is_new then values.old.items ++ value ∷ [] else values.old.items }
{
    if is_new {
        values.push_reserved(value);
    }
}

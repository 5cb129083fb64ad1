//! Guesses at where ids stand in an ascending list.

use crate::fronts::front;
use fetch_base::ObjectId;
use std::alloc::Global;

/// How many ids of an ascending list begin below each number that so many first bits write, so that a look-up reads a few
/// entries that stand side by side. It is a guess: a look-up tests it, and nothing but time rests on it.
#[derive(Debug, Drop)]
pub(crate) struct Starts {
    counts: Vec<u32>,
    /// How many of the first 64 bits of an id aren't looked at.
    shift: u32,
}

impl Starts {
    /// Says nothing of any id. Takes no memory.
    pub(crate) fn new(alloc: Global) -> Starts {
        Starts {
            counts: Vec::new(alloc),
            shift: 0,
        }
    }

    /// From where to where the id may stand.
    pub(crate) fn near(&self, id: &ObjectId) -> (usize, usize) {
        match self.counts.get(number(id, self.shift)..) {
            Some([low, high, ..]) => (*low as usize, *high as usize),
            _ => (0, usize::MAX),
        }
    }

    /// Is made anew, for so many entries, where it is made for far fewer: then there are two to four of a number. Where
    /// there is no memory for that it says nothing.
    pub(crate) fn fit<X>(&mut self, entries: &[(ObjectId, X)], count: usize) {
        if count / 8 <= self.counts.len() {
            return;
        }
        let shift = (count / 4).leading_zeros().min(63);
        let numbers = usize::MAX >> shift;
        *self = Starts::new(*self.counts.allocator());
        if let Ok(counts) = vec![in *self.counts.allocator(); 0u32; numbers.saturating_add(2)] {
            *self = Starts { counts, shift };
            self.add(entries);
        }
    }

    /// Takes in what comes to the list, in ascending order.
    pub(crate) fn add<X>(&mut self, entries: &[(ObjectId, X)]) {
        let mut below = 0;
        for place in 0..self.counts.len() {
            while below < entries.len() && number(&entries[below].0, self.shift) < place {
                below += 1;
            }
            self.counts[place] = self.counts[place].saturating_add(narrow(below));
        }
    }
}

/// The number that the first bits of an id write.
fn number(id: &ObjectId, shift: u32) -> usize {
    (front(id) >> shift.min(63)) as usize
}

fn narrow(count: usize) -> u32 {
    u32::try_from(count).unwrap_or(u32::MAX)
}

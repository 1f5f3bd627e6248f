// Where the changes of each slot begin among a log's changes by slot.
use crate::slot::SlotChange;
use bitmap::SLOTS;
use span::names::Key;
use std::alloc::{AllocError, Global};

/// A log of at most so many changes has no table: halving finds a change there in nine steps, and
/// the table would take more than the log.
const SHORT: usize = 512;

/// For each log of more than 512 changes and each slot, how many of the log's changes by slot stand
/// before those of the slot: a kilobyte such a log. Guesses are made of it, and no answer rests on
/// it.
#[derive(Drop)]
pub struct Firsts {
    // By log, and then by slot. What four bytes can't hold is cut: the guess is then wrong.
    firsts: Vec<Vec<u32>>,
}

// Where the changes of each slot begin, of the log with these changes by slot; nothing of a short
// one.
fn firsts_of(alloc: Global, order: &[SlotChange]) -> Result<Vec<u32>, AllocError> {
    if order.len() <= SHORT {
        return Ok(Vec::new(alloc));
    }
    let mut firsts = vec![in alloc; 0u32; SLOTS]?;
    for k in 0..order.len() {
        let slot = order[k].slot;
        if k > 0 && order[k - 1].slot == slot {
            continue;
        }
        if let Some(first) = firsts.get_mut(usize::from(slot)) {
            *first = u32::try_from(k).unwrap_or(u32::MAX);
        }
    }
    Ok(firsts)
}

impl Firsts {
    /// Those of the logs of which these are the changes by slot.
    pub fn of(alloc: Global, orders: &[Vec<SlotChange>]) -> Result<Firsts, AllocError> {
        let mut firsts = Vec::with_capacity(alloc, orders.len())?;
        for order in orders {
            firsts.push(firsts_of(alloc, order.as_slice())?)?;
        }
        Ok(Firsts { firsts })
    }

    /// How many of the log's changes by slot stand up to the put of the key: in a legal log each
    /// earlier key of the slot has a put and a free. Sets are not counted, so the guess falls short
    /// where there are some. Of a short log it is past the end.
    pub fn guess(&self, log: usize, key: &Key) -> usize {
        let Some(firsts) = self.firsts.get(log) else {
            return usize::MAX;
        };
        let Some(first) = firsts.get(usize::from(key.slot)) else {
            return usize::MAX;
        };
        (*first as usize)
            .saturating_add(2 * key.generation as usize)
            .saturating_sub(1)
    }
}

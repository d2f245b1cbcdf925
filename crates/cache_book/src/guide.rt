//! An index over ranges of hashes, from which a search among many slots begins. It guesses, and no
//! clause speaks of it: the search checks the place, and without memory for ranges is only slower.
//! Begin with `Guide::guess`.

use crate::boxed_slot::BoxedSlot;
use std::alloc::Global;

/// How many slots a range of hashes has on average, where there are as many as there is room for.
const SLOTS_PER_RANGE: usize = 16;

/// At most how many slots are looked at for a guess. A range has more where somebody chose the
/// hashes, or where there was no memory for more ranges.
const MAX_LOOKED_AT: usize = 64;

/// Where the slots of each range of hashes begin, so that a search among many is one among a few.
///
/// It is a guess, and nothing but speed hangs on it: a search checks it.
#[derive(Drop)]
pub(crate) struct Guide {
    // Of each range, the place of the first slot that is in it or in a later one. The ranges are of
    // one size, in the order of their hashes.
    starts: Vec<u32>,
}

impl Guide {
    /// One without ranges, which takes no memory yet.
    pub(crate) fn new(alloc: Global) -> Guide {
        Guide {
            starts: Vec::new(alloc),
        }
    }

    /// The place of the first slot whose hash isn't lower than this one, if the starts are right
    /// and few are in its range.
    pub(crate) fn guess(&self, slots: &[BoxedSlot], hash: u64) -> usize {
        let (start, end) = self.range(hash, slots.len());
        match slots.get(start..end) {
            Some(near) if near.len() <= MAX_LOOKED_AT => {
                start.saturating_add(lower_among(near, hash))
            }
            _ => start,
        }
    }

    /// Where the range of a hash begins, and where the next one does. There are `len` slots.
    pub(crate) fn range(&self, hash: u64, len: usize) -> (usize, usize) {
        let range = range_of(hash, self.starts.len());
        let start = self.start(range).unwrap_or(0);
        (start, self.start(range.saturating_add(1)).unwrap_or(len))
    }

    fn start(&self, range: usize) -> Option<usize> {
        self.starts.get(range).map(|start| *start as usize)
    }

    /// Makes ranges for as many slots as there is room for. Where there is no memory for them, a
    /// search is only slower.
    pub(crate) fn widen(&mut self, slots: &[BoxedSlot], capacity: usize) {
        let ranges = capacity / SLOTS_PER_RANGE;
        if self.starts.len() < ranges && self.starts.resize(ranges, 0).is_ok() {
            self.rebuild(slots);
        }
    }

    /// Shifts the starts of the ranges behind that of a hash. Slots of it were stored or dropped:
    /// all slots were `before`, and are `after`.
    pub(crate) fn shift_behind(&mut self, hash: u64, before: usize, after: usize) {
        if before == after {
            return;
        }
        let behind = range_of(hash, self.starts.len()).saturating_add(1);
        if let Some(later) = self.starts.as_mut_slice().get_mut(behind..) {
            add_to_each(later, as_start(after).wrapping_sub(as_start(before)));
        }
    }

    /// Finds the starts again, in a walk over all slots.
    pub(crate) fn rebuild(&mut self, slots: &[BoxedSlot]) {
        let ranges = self.starts.len();
        let mut begun = 0;
        for i in 0..slots.len() {
            let behind = range_of(slots[i].hash(), ranges).saturating_add(1);
            self.set_starts(begun, behind, i);
            begun = behind;
        }
        self.set_starts(begun, ranges, slots.len());
    }

    /// The slots of the ranges from `from` up to `to` begin at `start`.
    fn set_starts(&mut self, from: usize, to: usize, start: usize) {
        if let Some(starts) = self.starts.as_mut_slice().get_mut(from..to) {
            starts.fill(as_start(start));
        }
    }
}

/// The range of a hash, of this number of ranges.
fn range_of(hash: u64, ranges: usize) -> usize {
    // The upper half of a hash says how far on among all it stands.
    ((hash >> 32).wrapping_mul(ranges as u64) >> 32) as usize
}

/// A place as it is kept. One that doesn't fit is guessed wrong.
fn as_start(place: usize) -> u32 {
    u32::try_from(place).unwrap_or(u32::MAX)
}

fn add_to_each(starts: &mut [u32], by: u32) {
    for start in starts {
        *start = start.wrapping_add(by);
    }
}

/// How many of these slots have a lower hash. All are compared, and without a branch: a processor
/// can't predict where the lower ones end.
fn lower_among(slots: &[BoxedSlot], hash: u64) -> usize {
    let mut lower: usize = 0;
    for slot in slots {
        lower = lower.wrapping_add(usize::from(slot.hash() < hash));
    }
    lower
}

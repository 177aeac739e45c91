//! The posted buffers.

ghost use Rattle.std.specs.Prelude.{◌≡◌, ℕ, ◌+◌, ◌-◌, ◌<◌, ◌≤◌, length, take, IfOk, IsSome, [], false, replicate};
ghost use Rattle.vt_types.specs.Limits.{LONGEST_BUFFER, MOST_PIECES};
ghost use Rattle.vq_posted.specs.Free.{free_descriptors};
ghost use Rattle.vq_posted.specs.Order.{IsInOrder};
ghost use Rattle.vq_common.specs.Queue.{slots_of_all, holds_tag, with_buffer, unreaped_with, without};
ghost use Rattle.vq_posted.specs.Table.{unreaped_of, found_of};

use crate::entry::{Found, Posted, head};
use crate::number_set::NumberSet;
use arrayvec::ArrayVec;
use std::alloc::Global;
use std::marker::Model;
use vt_types::{MOST_PIECES, Memory};

/// The buffers that a driver has posted on a ring and not yet reaped.
///
/// Contracts see the ring's size, the greatest that it may have, and the list of the buffers by rising id.
#[derive(Drop)]
pub struct PostedBuffers {
    size: u16,
    free: u16,
    descriptors: NumberSet,
    tags: NumberSet,
    locations: Vec<Option<Posted>>,
}

impl Model for PostedBuffers {
    ghost use Rattle.std.specs.Prelude.{length};
    ghost use Rattle.vq_posted.specs.Table.{PostedView, entries, IsKept};

    ghost Value = { PostedView };

    ghost view = { λ p. record { size = p.size; greatest = length p.locations.items; unreaped = entries 0 p.locations.items } };

    ghost invariant = { λ p. IsKept p.size p.free p.descriptors p.tags p.locations.items };
}

/// No location has a buffer.
fn clear(locations: &mut [Option<Posted>])
    ensures { locations.new ≡ replicate (length locations.old) None }
{
    'locations: for location in locations.iter_mut() {
        *location = None;
    }
}

impl PostedBuffers {
    /// No buffers on a ring of no slots, with room for a ring of up to `max` slots. No later call allocates.
    pub fn new(alloc: Global, max: u16) -> Result<PostedBuffers, Memory>
        ensures { IfOk result (λ p. p ≡ record { size = 0; greatest = max; unreaped = [] }) }
    {
        let mut locations = Vec::with_capacity(alloc, usize::from(max))?;
        'locations: for _location in 0..max {
            locations.push(None)?;
        }
        Ok(PostedBuffers {
            size: 0,
            free: 0,
            descriptors: NumberSet::new(alloc, max)?,
            tags: NumberSet::new(alloc, u16::MAX)?,
            locations,
        })
    }

    /// No buffers on a ring of `size` slots.
    pub fn start(&mut self, size: u16)
        requires { size ≤ self.old.greatest }
        ensures { self.new ≡ record { size = size; greatest = self.old.greatest; unreaped = [] } }
    {
        self.size = size;
        self.free = size;
        self.descriptors.fill(size);
        self.tags.clear();
        clear(self.locations.as_mut_slice());
    }

    /// How many slots of the ring are free.
    pub fn free(&self) -> u16
        ensures value { result ≡ self.now.size - slots_of_all self.now.unreaped }
        ensures order { IsInOrder self.now.size self.now.unreaped }
        ensures room { self.now.size ≤ self.now.greatest }
    {
        self.free
    }

    /// Whether a buffer has this tag.
    pub fn has_tag(&self, tag: u16) -> bool
        ensures { result ≡ holds_tag tag self.now.unreaped }
    {
        self.tags.contains(tag)
    }

    /// The lowest free descriptors, rising: up to `MOST_PIECES`, and no more than there are free slots.
    pub fn lowest_free(&self, count: usize) -> ArrayVec<u16, MOST_PIECES>
        requires few { count ≤ MOST_PIECES }
        requires room { count ≤ self.now.size - slots_of_all self.now.unreaped }
        ensures value { result.items ≡ take count (free_descriptors self.now.size self.now.unreaped) }
        ensures count { length result.items ≡ count }
    {
        let mut descriptors = ArrayVec::new();
        self.add_lowest_free(count, &mut descriptors);
        descriptors
    }

    /// Adds the lowest free descriptors, rising, to a list that has none: up to `MOST_PIECES`, and no more than there
    /// are free slots.
    #[inline]
    pub fn add_lowest_free(&self, count: usize, descriptors: &mut ArrayVec<u16, MOST_PIECES>)
        requires few { count ≤ MOST_PIECES }
        requires room { count ≤ self.now.size - slots_of_all self.now.unreaped }
        requires none { descriptors.old.items ≡ [] }
        ensures value { descriptors.new.items ≡ take count (free_descriptors self.now.size self.now.unreaped) }
        ensures count { length descriptors.new.items ≡ count }
    {
        self.descriptors.add_lowest(count, descriptors);
    }

    /// One more buffer, with a tag that no other one has. Its descriptors are the lowest that are free, and it takes no fewer
    /// slots than it has descriptors.
    pub fn add(&mut self, posted: Posted)
        requires tag { holds_tag posted.tag self.old.unreaped ≡ false }
        requires some { 1 ≤ length posted.descriptors.items }
        requires few { length posted.descriptors.items ≤ MOST_PIECES }
        requires lowest { posted.descriptors.items ≡ take (length posted.descriptors.items) (free_descriptors self.old.size self.old.unreaped) }
        requires slots { length posted.descriptors.items ≤ posted.slots }
        requires room { posted.slots ≤ self.old.size - slots_of_all self.old.unreaped }
        requires readable { posted.readable ≤ LONGEST_BUFFER }
        ensures { self.new ≡ record self.old { unreaped = with_buffer (unreaped_of posted) self.old.unreaped } }
    {
        self.free -= posted.slots;
        self.tags.insert(posted.tag);
        self.descriptors.remove_all(posted.descriptors.as_slice());
        let location = usize::from(head(posted.descriptors.as_slice()));
        self.locations[location] = Some(posted);
    }

    /// The buffer with this id, which a device may have made up; `None` where there is none.
    pub fn find(&self, id: u32) -> Option<Found>
        ensures { result ≡ found_of (unreaped_with id self.now.unreaped) }
    {
        match self.locations.get(id as usize)? {
            Some(posted) => Some(Found {
                tag: posted.tag,
                slots: posted.slots,
                readable: posted.readable,
            }),
            None => None,
        }
    }

    /// The buffer with this id is gone: its tag, its slots and its descriptors are free.
    pub fn remove(&mut self, id: u16)
        requires { IsSome (unreaped_with id self.old.unreaped) }
        ensures { self.new ≡ record self.old { unreaped = without id self.old.unreaped } }
    {
        if let Some(posted) = self.locations[usize::from(id)].take() {
            self.free += posted.slots;
            self.tags.remove(posted.tag);
            self.descriptors.insert_all(posted.descriptors.as_slice());
        }
    }
}

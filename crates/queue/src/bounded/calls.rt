// What a queue does. A place is told by its rank in the order of arrival: the oldest item stands at 0.
ghost use Rattle.std.specs.Prelude.{◌≡◌, ◌≤◌, min, [], ◌∷◌, ◌++◌, length, Ok, Err, if◌then◌else◌, is_ok, nat_le, nat_lt, slice_set};
ghost use Rattle.std.specs.List.{slice_get, remove};
ghost use Rattle.queue.specs.Items.{items, room};

use crate::bounded::Queue;

// How many places a queue uses at most.
const MOST: usize = 64;

#[tactic(auto, using(crate::proofs::Changes::changes), unfolding(crate::specs::Items::items, crate::specs::Items::room))]
impl<'a, T: Copy> Queue<'a, T> {
    // An empty queue over the first 64 of `places`, over all where there are fewer.
    pub fn new(places: &'a mut [T]) -> Queue<'a, T>
        ensures items { items result ≡ [] }
        ensures room { room result ≡ min 64 (length places.old) }
    {
        Queue { places, taken: 0 }
    }

    fn room(&self) -> usize
        ensures { result ≡ room self.now }
    {
        self.places.len().min(MOST)
    }

    pub fn len(&self) -> usize
        ensures value { result ≡ length (items self.now) }
        ensures within { result ≤ room self.now }
        ensures most { room self.now ≤ 64 }
    {
        self.as_slice().len()
    }

    pub fn is_full(&self) -> bool
        ensures { result ≡ nat_le (room self.now) (length (items self.now)) }
    {
        self.taken == self.room()
    }

    // The items, oldest first.
    pub fn as_slice(&self) -> &[T]
        ensures items { result.now ≡ items self.now }
        ensures most { length result.now ≤ 64 }
    {
        &self.places[..self.taken]
    }

    // The item at `place`; none where the place is not taken.
    pub fn get(&self, place: usize) -> Option<T>
        ensures { result ≡ slice_get (items self.now) place }
    {
        self.as_slice().get(place).copied()
    }

    // Adds `item` behind the others; where the queue is full it gives the item back, and changes nothing.
    pub fn push(&mut self, item: T) -> Result<(), T>
        ensures fits { result ≡ (if nat_lt (length (items self.old)) (room self.old) then Ok tt else Err item) }
        ensures items { items self.new ≡ (if is_ok result then items self.old ++ item ∷ [] else items self.old) }
        ensures room { room self.new ≡ room self.old }
    {
        if self.is_full() {
            return Err(item);
        }
        self.places[self.taken] = item;
        self.taken += 1;
        Ok(())
    }

    // Replaces the item at `place`; changes nothing where the place is not taken.
    pub fn set(&mut self, place: usize, item: T)
        ensures items { items self.new ≡ slice_set (items self.old) place item }
        ensures room { room self.new ≡ room self.old }
    {
        if place < self.taken {
            self.places[place] = item;
        }
    }

    // Takes the item at `place` out, and those behind it close up; none where the place is not taken.
    pub fn take(&mut self, place: usize) -> Option<T>
        ensures value { result ≡ slice_get (items self.old) place }
        ensures items { items self.new ≡ remove (items self.old) place }
        ensures room { room self.new ≡ room self.old }
    {
        let item = self.get(place)?;
        self.places.copy_within(place + 1..self.taken, place);
        self.taken -= 1;
        Some(item)
    }

    pub fn clear(&mut self)
        ensures items { items self.new ≡ [] }
        ensures room { room self.new ≡ room self.old }
    {
        self.taken = 0;
    }
}

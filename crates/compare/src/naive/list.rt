// A list of at most 64 items, oldest first.
use arrayvec::ArrayVec;

#[derive(Drop)]
pub(crate) struct List<T> {
    room: usize,
    pub(crate) items: ArrayVec<T, 64>,
}

impl<T: Default + Drop> List<T> {
    // An empty list over memory of so many places.
    pub(crate) fn new(places: usize) -> List<T> {
        List {
            room: places.min(64),
            items: ArrayVec::new(),
        }
    }

    pub(crate) fn is_full(&self) -> bool {
        self.items.len() >= self.room
    }

    // Puts an item last, unless the list is full.
    pub(crate) fn put(&mut self, item: T) {
        if !self.is_full() {
            let _ = self.items.try_push(item);
        }
    }
}

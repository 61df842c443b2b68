// Buffers that calls are lent, and what stands in them before a call, so that what the call wrote can be told
// afterwards.

// The number or the byte that stands at a place of a buffer before a call.
pub(crate) trait Canary: Copy + Default + PartialEq {
    fn canary(place: usize) -> Self;
}

impl Canary for u32 {
    fn canary(place: usize) -> u32 {
        7000000 + (place % 1000000) as u32
    }
}

impl Canary for u8 {
    fn canary(_place: usize) -> u8 {
        b'~'
    }
}

// A buffer, of which the first `lent` numbers or bytes are lent, or all if there are fewer.
#[derive(Drop)]
pub(crate) struct Buffer<T, const N: usize> {
    pub(crate) items: [T; N],
    lent: usize,
}

impl<T: Canary, const N: usize> Buffer<T, N> {
    // A buffer of zeros, all of it lent.
    pub(crate) fn new() -> Self {
        Buffer {
            items: [T::default(); N],
            lent: N,
        }
    }

    // Lends so many from now on.
    pub(crate) fn lend(&mut self, count: usize) {
        self.lent = count;
    }

    // Lends all.
    pub(crate) fn lend_all(&mut self) {
        self.lent = self.items.len();
    }

    // What is lent, to be read.
    pub(crate) fn lent(&self) -> &[T] {
        let end = self.lent.min(self.items.len());
        &self.items[..end]
    }

    // What is lent, to be written.
    pub(crate) fn lent_mut(&mut self) -> &mut [T] {
        let end = self.lent.min(self.items.len());
        &mut self.items[..end]
    }

    // Writes a number or a byte at a place, if there is such a place.
    pub(crate) fn put(&mut self, place: usize, value: T) {
        if let Some(item) = self.items.get_mut(place) {
            *item = value;
        }
    }

    // Fills the whole buffer with canaries.
    pub(crate) fn fill(&mut self) {
        for (place, item) in self.items.iter_mut().enumerate() {
            *item = T::canary(place);
        }
    }

    // Whether the canaries stand from a place on.
    pub(crate) fn is_kept(&self, from: usize) -> bool {
        self.items
            .iter()
            .enumerate()
            .skip(from)
            .all(|(place, item)| *item == T::canary(place))
    }

    // The first so many, or all if there are fewer.
    pub(crate) fn front(&self, count: usize) -> &[T] {
        let end = count.min(self.items.len());
        &self.items[..end]
    }
}

// What a script holds: the phrase file, the text and the codes that it set, and the line that was read.

// At most N numbers or bytes, the first `size` of an array. Those for which there is no room are left out.
#[derive(Drop)]
pub(crate) struct Held<T, const N: usize> {
    items: [T; N],
    size: usize,
}

impl<T: Copy + Default, const N: usize> Held<T, N> {
    // None at first.
    pub(crate) fn new() -> Self {
        Held {
            items: [T::default(); N],
            size: 0,
        }
    }

    // None from now on.
    pub(crate) fn clear(&mut self) {
        self.size = 0;
    }

    // All of them.
    pub(crate) fn all(&self) -> &[T] {
        let end = self.size.min(self.items.len());
        &self.items[..end]
    }

    // How many there are.
    pub(crate) fn len(&self) -> usize {
        self.all().len()
    }

    // How many more there is room for.
    pub(crate) fn room(&self) -> usize {
        N.saturating_sub(self.size)
    }

    // Adds those of a slice.
    pub(crate) fn append(&mut self, items: &[T]) {
        let from = self.size.min(N);
        let count = items.len().min(N - from);
        let places = &mut self.items[..];
        places[from..from + count].copy_from_slice(&items[..count]);
        self.size = from + count;
    }

    // Adds those that an iterator gives.
    pub(crate) fn extend<I: Iterator<Item = T> + Drop>(&mut self, items: I)
        requires { I.can_next items }
    {
        let mut size = self.size.min(N);
        let places = &mut self.items[..];
        for (place, item) in places[size..].iter_mut().zip(items) {
            *place = item;
            size = size.saturating_add(1);
        }
        self.size = size;
    }

    // The same one so many times, and no other.
    pub(crate) fn repeat(&mut self, item: T, times: usize) {
        for place in self.items.iter_mut().take(times) {
            *place = item;
        }
        self.size = times.min(N);
    }

    // Writes one at a place, if there is such a place.
    pub(crate) fn set(&mut self, place: usize, item: T) {
        if let Some(old) = self.items.get_mut(place) {
            *old = item;
        }
    }
}

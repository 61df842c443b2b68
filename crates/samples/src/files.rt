// The phrase file that a script writes.
use crate::fields::Unescaped;
use crate::held::Held;

// How many bytes there is room for: more than a phrase file may have.
const ROOM: usize = 66000;

// The bytes of a phrase file. Bytes for which there is no room are left out.
#[derive(Drop)]
pub(crate) struct PhraseFile {
    held: Held<u8, ROOM>,
}

impl PhraseFile {
    // No bytes at first.
    pub(crate) fn new() -> Self {
        PhraseFile { held: Held::new() }
    }

    // Begins a new file.
    pub(crate) fn clear(&mut self) {
        self.held.clear();
    }

    // The bytes, as they are now.
    pub(crate) fn bytes(&self) -> &[u8] {
        self.held.all()
    }

    // Adds escaped bytes as they are, with no mark.
    pub(crate) fn put(&mut self, line: &[u8]) {
        self.held.extend(Unescaped(line));
    }

    // Adds bytes.
    fn put_all(&mut self, bytes: &[u8]) {
        self.held.append(bytes);
    }

    // Adds so many rows of one byte: 0, 1, 2, ..
    pub(crate) fn put_letters(&mut self, count: usize) {
        for k in 0..count {
            let [.., low] = k.to_be_bytes();
            self.put_all(&[0xc7, 0x51, 1, low]);
        }
    }

    // Adds so many rows of two bytes: 0 0, 0 1, ..
    pub(crate) fn put_pairs(&mut self, count: usize) {
        for k in 0..count {
            let [.., high, low] = k.to_be_bytes();
            self.put_all(&[0xc7, 0x51, 2, high, low]);
        }
    }

    // Adds a row of escaped bytes so many times. The length byte is written once the bytes are counted.
    pub(crate) fn put_rows(&mut self, line: &[u8], count: usize) {
        for _ in 0..count {
            self.put_all(&[0xc7, 0x51]);
            let length_at = self.held.len();
            self.put_all(&[0]);
            let from = self.held.len();
            self.put(line);
            let [.., low] = self.held.len().saturating_sub(from).to_be_bytes();
            self.held.set(length_at, low);
        }
    }
}

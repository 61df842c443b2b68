// The phrase file E of document 01, the texts to type, and tables with a part of the search area.
use tables::Tables;
use typing_columns::Side;

// Writes bytes from a place on, as far as there is room, and gives the place behind them.
pub(crate) fn put(out: &mut [u8], at: usize, bytes: &[u8]) -> usize {
    let mut end = at;
    for byte in bytes {
        if end < out.len() {
            out[end] = *byte;
            end += 1;
        }
    }
    end
}

// Writes the rows of one byte, in order, and gives the place behind them.
fn put_letters(file: &mut [u8]) -> usize {
    let mut end = 0;
    for byte in 0..=u8::MAX {
        end = put(file, end, &[0xc7, 0x51, 1, byte]);
    }
    end
}

// The phrase file E: the 256 bytes in order, then bc, ab and cd.
pub(crate) fn sample_e() -> [u8; 1039] {
    let mut file = [0; 1039];
    let mut end = put_letters(&mut file);
    for [first, second] in [*b"bc", *b"ab", *b"cd"] {
        end = put(&mut file, end, &[0xc7, 0x51, 2, first, second]);
    }
    file
}

// The number after x in a list that looks drawn by lot.
fn next_drawn(x: u64) -> u64 {
    (x % 2147483648 * 1103515245 + 12345) % 2147483648
}

// A letter from a to d.
fn letter(x: u64) -> u8 {
    b'a' + (x / 65536 % 4) as u8
}

// Fills a text with such letters.
pub(crate) fn draw(text: &mut [u8], seed: u64) {
    let mut x = seed;
    for byte in text {
        x = next_drawn(x);
        *byte = letter(x);
    }
}

// Writes bytes from the end back, and gives what was written: at most as many as there is room for.
fn mirrored<'a>(bytes: &[u8], room: &'a mut [u8; 4096]) -> &'a [u8] {
    for (place, byte) in room.iter_mut().zip(bytes.iter().rev()) {
        *place = *byte;
    }
    room.get(..bytes.len()).unwrap_or(room)
}

// What at most 4,096 typed bytes read: in prepending each byte went before the others, and the room takes them from
// the end back.
pub(crate) fn reading<'a>(side: Side, typed: &'a [u8], room: &'a mut [u8; 4096]) -> &'a [u8] {
    match side {
        Side::Append => typed,
        Side::Prepend => mirrored(typed, room),
    }
}

// The tables with so many entries of the search area, or all if there are fewer.
pub(crate) fn with_area<'a>(tables: &Tables<'a>, entries: usize) -> Tables<'a> {
    let area = tables.area.get(..entries).unwrap_or(tables.area);
    Tables { area, ..*tables }
}

// The commands and the buffers, by their names.

// A command that sets something.
#[derive(Clone, Copy)]
pub(crate) enum Setting {
    Empty,
    Letters,
    Pairs,
    Row,
    Again,
    Raw,
    Lend,
    Set,
    Text,
    Repeat,
    Codes,
    Same,
}

impl Setting {
    pub(crate) fn named(name: &[u8]) -> Option<Setting> {
        match name {
            b"empty" => Some(Setting::Empty),
            b"letters" => Some(Setting::Letters),
            b"pairs" => Some(Setting::Pairs),
            b"row" => Some(Setting::Row),
            b"again" => Some(Setting::Again),
            b"raw" => Some(Setting::Raw),
            b"lend" => Some(Setting::Lend),
            b"set" => Some(Setting::Set),
            b"text" => Some(Setting::Text),
            b"repeat" => Some(Setting::Repeat),
            b"codes" => Some(Setting::Codes),
            b"same" => Some(Setting::Same),
            _ => None,
        }
    }
}

// A command that prints: a call of the library, or entries of the tables.
#[derive(Clone, Copy)]
pub(crate) enum Call {
    Bitfield,
    Backtracking,
    Table,
    Minimal,
    Greedy,
    Count,
    Limit,
    Decode,
    Bytes,
    Rows,
    Length,
    Pair,
    Build,
    Entries,
}

impl Call {
    pub(crate) fn named(name: &[u8]) -> Option<Call> {
        match name {
            b"bitfield" => Some(Call::Bitfield),
            b"backtracking" => Some(Call::Backtracking),
            b"table" => Some(Call::Table),
            b"minimal" => Some(Call::Minimal),
            b"greedy" => Some(Call::Greedy),
            b"count" => Some(Call::Count),
            b"limit" => Some(Call::Limit),
            b"decode" => Some(Call::Decode),
            b"bytes" => Some(Call::Bytes),
            b"rows" => Some(Call::Rows),
            b"length" => Some(Call::Length),
            b"pair" => Some(Call::Pair),
            b"build" => Some(Call::Build),
            b"entries" => Some(Call::Entries),
            _ => None,
        }
    }
}

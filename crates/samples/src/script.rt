// What a script has set, and its commands.
use crate::buffers::Buffer;
use crate::commands::{Call, Setting};
use crate::fields::{Unescaped, entry, number, size, split_word};
use crate::files::PhraseFile;
use crate::held::Held;
use crate::lists::Lists;
use crate::saying::{say_answer, say_bytes, say_codes, say_kept};
use causes::Cause;
use std::io;
use tables::Tables;

// How many bytes of a text and how many codes there is room for: more than a call takes.
const ROOM: usize = 4200;

// How many bytes a call that decodes is lent at first.
const BYTES: usize = 66000;

// The phrase file, the tables, the text and the codes, and the buffers that calls write to. Of the bytes that a call
// decodes to there is only how many are lent: they stand where that call is made, since no other needs the room.
#[derive(Drop)]
pub(crate) struct Script {
    file: PhraseFile,
    lists: Lists,
    text: Held<u8, ROOM>,
    codes: Held<u32, ROOM>,
    output: Buffer<u32, 4200>,
    work: Buffer<u32, 4200>,
    lent_bytes: usize,
}

impl Script {
    // Nothing is set at first, and all is lent.
    pub(crate) fn new() -> Self {
        Script {
            file: PhraseFile::new(),
            lists: Lists::new(),
            text: Held::new(),
            codes: Held::new(),
            output: Buffer::new(),
            work: Buffer::new(),
            lent_bytes: BYTES,
        }
    }

    // Does the command of a line, if it is one.
    pub(crate) fn obey(&mut self, rt: &impl Print, line: &[u8]) -> io::Result<()> {
        let (name, arguments) = split_word(line);
        if let Some(setting) = Setting::named(name) {
            self.set(setting, arguments);
        } else if let Some(call) = Call::named(name) {
            rt.write_all(name)?;
            self.call(rt, call, arguments)?;
        }
        Ok(())
    }

    // Does a command that sets something.
    fn set(&mut self, setting: Setting, arguments: &[u8]) {
        let (_, left) = split_word(arguments);
        match setting {
            Setting::Empty => self.file.clear(),
            Setting::Letters => self.file.put_letters(size(arguments)),
            Setting::Pairs => self.file.put_pairs(size(arguments)),
            Setting::Row => self.file.put_rows(arguments, 1),
            Setting::Again => self.file.put_rows(left, size(arguments)),
            Setting::Raw => self.file.put(arguments),
            Setting::Lend => self.lend(arguments),
            Setting::Set => self.lists.set(arguments),
            Setting::Text => self.set_text(arguments, 1),
            Setting::Repeat => self.set_text(left, size(arguments)),
            Setting::Codes => self.set_codes(arguments),
            Setting::Same => self.repeat_code(entry(left), size(arguments)),
        }
    }

    // `lend BUFFER SIZE` for one buffer, `lend all` for all as at first.
    fn lend(&mut self, arguments: &[u8]) {
        if arguments == b"all".as_slice() {
            self.lists.lend_all();
            self.output.lend_all();
            self.work.lend_all();
            self.lent_bytes = BYTES;
            return;
        }
        let (name, left) = split_word(arguments);
        let count = size(left);
        match name {
            b"places" => self.lists.places.lend(count),
            b"lefts" => self.lists.lefts.lend(count),
            b"rights" => self.lists.rights.lend(count),
            b"prefixes" => self.lists.prefixes.lend(count),
            b"area" => self.lists.area.lend(count),
            b"output" => self.output.lend(count),
            b"work" => self.work.lend(count),
            b"bytes" => self.lent_bytes = count,
            _ => {}
        }
    }

    // `text BYTES` or `repeat TIMES BYTES`: the bytes so many times, as far as there is room.
    fn set_text(&mut self, line: &[u8], times: usize) {
        self.text.clear();
        for _ in 0..times {
            self.text.extend(Unescaped(line));
        }
    }

    // `codes CODE ..`, as far as there is room.
    fn set_codes(&mut self, line: &[u8]) {
        self.codes.clear();
        self.codes
            .extend(line.split_inclusive(|byte| *byte == b' ').map(entry));
    }

    // `same TIMES CODE`, as far as there is room.
    fn repeat_code(&mut self, code: u32, times: usize) {
        self.codes.repeat(code, times);
    }

    // Does a command that prints.
    fn call(&mut self, rt: &impl Print, call: Call, arguments: &[u8]) -> io::Result<()> {
        match call {
            Call::Bitfield => self.send(rt, byte_pair_encoding::encode_via_bitfield),
            Call::Backtracking => self.send(rt, byte_pair_encoding::encode_via_backtracking),
            Call::Table => self.send(rt, byte_pair_encoding::encode_via_table),
            Call::Minimal => self.send(rt, byte_pair_encoding::encode_minimal),
            Call::Greedy => self.send(rt, byte_pair_encoding::encode_greedy),
            Call::Count => self.count(rt),
            Call::Limit => self.count_till_limit(rt, number(arguments)),
            Call::Decode => self.decode(rt),
            Call::Bytes => self.token_bytes(rt, entry(arguments)),
            Call::Rows => self.num_tokens(rt),
            Call::Length => self.token_len(rt, entry(arguments)),
            Call::Pair => self.check_pair(rt, arguments),
            Call::Build => self.lists.build(rt, self.file.bytes(), number(arguments)),
            Call::Entries => self.lists.say_entries(rt, size(arguments)),
        }
    }

    // An encoder of the text, over buffers that hold canaries.
    fn send<F>(&mut self, rt: &impl Print, encode: F) -> io::Result<()>
    where
        F: Fn(&Tables<'_>, &[u8], &mut [u32], &mut [u32]) -> Result<usize, Cause>,
        requires { F.IsAlwaysCallable encode }
    {
        self.output.fill();
        self.work.fill();
        let answer = encode(
            &self.lists.lent(self.file.bytes()),
            self.text.all(),
            self.output.lent_mut(),
            self.work.lent_mut(),
        );
        let end = answer.unwrap_or(0);
        say_answer(rt, answer)?;
        say_codes(rt, self.output.front(end))?;
        let scratch = self.scratch(answer);
        say_kept(rt, self.output.is_kept(end) && self.work.is_kept(scratch))
    }

    // How many work numbers a call may write: one for each byte of the text; none after a refusal.
    fn scratch<T: Copy>(&self, answer: Result<T, Cause>) -> usize {
        if answer.is_ok() { self.text.len() } else { 0 }
    }

    // `count`
    fn count(&mut self, rt: &impl Print) -> io::Result<()> {
        self.work.fill();
        let answer = byte_pair_encoding::count(
            &self.lists.lent(self.file.bytes()),
            self.text.all(),
            self.work.lent_mut(),
        );
        say_answer(rt, answer)?;
        let scratch = self.scratch(answer);
        say_kept(rt, self.work.is_kept(scratch))
    }

    // `limit LIMIT`: the count, or 4294967295 for "over".
    fn count_till_limit(&mut self, rt: &impl Print, limit: u64) -> io::Result<()> {
        self.work.fill();
        let answer = byte_pair_encoding::count_till_limit(
            &self.lists.lent(self.file.bytes()),
            self.text.all(),
            limit,
            self.work.lent_mut(),
        );
        say_answer(rt, answer)?;
        let scratch = self.scratch(answer);
        say_kept(rt, self.work.is_kept(scratch))
    }

    // Canaries for a call that decodes, of which so many are lent.
    fn bytes(&self) -> Buffer<u8, BYTES> {
        let mut bytes = Buffer::new();
        bytes.lend(self.lent_bytes);
        bytes.fill();
        bytes
    }

    // `decode` of the codes that were set.
    fn decode(&self, rt: &impl Print) -> io::Result<()> {
        let mut bytes = self.bytes();
        let answer = decoder::decode_tokens(
            &self.lists.lent(self.file.bytes()),
            self.codes.all(),
            bytes.lent_mut(),
        );
        say_bytes(rt, answer, &bytes)
    }

    // `bytes CODE`
    fn token_bytes(&self, rt: &impl Print, code: u32) -> io::Result<()> {
        let mut bytes = self.bytes();
        let answer = decoder::token_bytes(
            &self.lists.lent(self.file.bytes()),
            code,
            bytes.lent_mut(),
        );
        say_bytes(rt, answer, &bytes)
    }

    // `rows`
    fn num_tokens(&self, rt: &impl Print) -> io::Result<()> {
        let answer = tables::num_tokens(&self.lists.lent(self.file.bytes()));
        say_answer(rt, answer)?;
        println!(rt)
    }

    // `length ROW`
    fn token_len(&self, rt: &impl Print, row: u32) -> io::Result<()> {
        let answer = tables::token_len(&self.lists.lent(self.file.bytes()), row);
        say_answer(rt, answer)?;
        println!(rt)
    }

    // `pair ROW ROW`: 1 if the pair passes, else 0.
    fn check_pair(&self, rt: &impl Print, arguments: &[u8]) -> io::Result<()> {
        let (_, left) = split_word(arguments);
        let answer = byte_pair_encoding::is_valid_token_pair(
            &self.lists.lent(self.file.bytes()),
            entry(arguments),
            entry(left),
        );
        say_answer(rt, answer)?;
        println!(rt)
    }
}

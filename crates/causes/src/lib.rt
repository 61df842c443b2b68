// Why a call is refused, for all calls, and what the answers tell. A call that can be refused answers
// `Result<T, Cause>`; an answer's number is 0 if it is no refusal, and its place is then its value. Every such call
// promises by one record, `Call` in specs/, so that it states only its conditions and what it gives.
#![tactic(auto)]

ghost use Rattle.std.specs.Prelude.{◌≡◌, ℕ, cond};
ghost use Rattle.causes.specs.Causes.{refusal_of, answered, limit_place};

#[derive(Clone, Copy, Debug, PartialEq, Eq)]
pub enum Cause {
    FactorZero,
    // The offset of the first bad record, 65,536 if the file is too long.
    BadRecord(usize),
    // The count of rows.
    RowCount(usize),
    // The lowest byte value without a row.
    MissingByte(u8),
    // The lowest row with the bytes of an earlier row.
    EqualRow(u32),
    // The lowest longer row without parts.
    NoParts(u32),
    TooShort,
    OutOfForm,
    TooLong,
    // The index of the first code not below n.
    UnknownCode(usize),
    BadInterval,
    // The current length.
    Full(usize),
    // The lowest row with the hash of an earlier row of other bytes.
    SameHash(u32),
}

impl Cause {
    // The number of a cause.
    pub fn number(self) -> u32
        ensures { result ≡ (refusal_of self).number }
    {
        match self {
            Cause::FactorZero => 1,
            Cause::BadRecord(_) => 2,
            Cause::RowCount(_) => 3,
            Cause::MissingByte(_) => 4,
            Cause::EqualRow(_) => 5,
            Cause::NoParts(_) => 6,
            Cause::TooShort => 7,
            Cause::OutOfForm => 8,
            Cause::TooLong => 9,
            Cause::UnknownCode(_) => 10,
            Cause::BadInterval => 11,
            Cause::Full(_) => 12,
            Cause::SameHash(_) => 13,
        }
    }

    // The returned place of a cause.
    pub fn place(self) -> u64
        ensures { result ≡ (refusal_of self).place }
    {
        match self {
            Cause::FactorZero => 0,
            Cause::BadRecord(offset) => offset as u64,
            Cause::RowCount(n) => n as u64,
            Cause::MissingByte(byte) => byte as u64,
            Cause::EqualRow(row) => row as u64,
            Cause::NoParts(row) => row as u64,
            Cause::TooShort => 0,
            Cause::OutOfForm => 0,
            Cause::TooLong => 0,
            Cause::UnknownCode(index) => index as u64,
            Cause::BadInterval => 0,
            Cause::Full(length) => length as u64,
            Cause::SameHash(row) => row as u64,
        }
    }
}

// What an answer tells that is no refusal.
pub trait Told: Drop {
    ghost told: { Self → ℕ };

    // The value as a place.
    fn place(self) -> u64
        ensures { result ≡ told self };
}

// A number of codes, bytes or rows, or a new length.
impl Told for usize {
    ghost told = { λ n. n };

    fn place(self) -> u64 {
        self as u64
    }
}

// Whether a pair passes.
impl Told for bool {
    ghost told = { λ passes. cond passes 1 0 };

    fn place(self) -> u64 {
        u64::from(self)
    }
}

// A count with a limit: none for "over".
impl Told for Option<usize> {
    ghost told = { limit_place };

    fn place(self) -> u64 {
        match self {
            Some(count) => count as u64,
            None => 4294967295,
        }
    }
}

// The number of an answer.
pub fn answer_number<T: Told>(answer: Result<T, Cause>) -> u32
    ensures { result ≡ (answered T.told answer).number }
{
    match answer {
        Ok(_) => 0,
        Err(cause) => cause.number(),
    }
}

// The place of an answer.
pub fn answer_place<T: Told>(answer: Result<T, Cause>) -> u64
    ensures { result ≡ (answered T.told answer).place }
{
    match answer {
        Ok(value) => value.place(),
        Err(cause) => cause.place(),
    }
}

// Reads lines: where one ends, whether it is a record, and its letter and numbers.
ghost use Rattle.std.specs.Prelude.{◌≡◌, ◌+◌, ◌<◌, ◌≤◌, min, length, IfSome};

// The most numbers that a record has.
const MOST: usize = 100;

// Below this, a number takes one more hexadecimal digit.
const DIGIT_FITS_BELOW: u64 = 0x1000_0000_0000_0000;

// A record taken apart: its letter, its numbers, and whether its last number has no digit yet.
#[derive(Clone, Copy)]
pub(crate) struct Record {
    pub(crate) letter: u8,
    values: [u64; 100],
    count: usize,
    wants_digit: bool,
    ghost few: { count ≤ 100 },
}

// The place of the first newline from `start` on, or of the text's end.
pub(crate) fn line_end(text: &[u8], start: usize) -> usize
    requires { start ≤ length text.now }
    ensures { (start ≤ result) × (result ≤ length text.now) }
{
    match text[start..].iter().position(|&byte| byte == b'\n') {
        Some(length) => start + length,
        None => text.len(),
    }
}

// The place after a line that ends at `end`, past its newline if it has one.
pub(crate) fn after_line(text: &[u8], end: usize) -> usize
    requires { end ≤ length text.now }
    ensures { result ≡ min (end + 1) (length text.now) }
{
    (end + 1).min(text.len())
}

// Whether a line is neither empty nor a comment.
pub(crate) fn is_record(line: &[u8]) -> bool {
    match line.first() {
        Some(&byte) => byte != b'#',
        None => false,
    }
}

// The value of a lower-case hexadecimal digit.
fn digit_value(byte: u8) -> Option<u64>
    ensures { IfSome result (λ digit. digit < 16) }
{
    match byte {
        b'0'..=b'9' => Some((byte - b'0') as u64),
        b'a'..=b'f' => Some((byte - b'a') as u64 + 10),
        _ => None,
    }
}

impl Record {
    // The numbers that it has.
    pub(crate) fn numbers(&self) -> &[u64]
        ensures { length result.now ≤ 100 }
    {
        &self.values[..self.count]
    }

    // A space came: a number begins.
    fn begin_number(self) -> Option<Record> {
        let count = self.count;
        if self.wants_digit || MOST <= count {
            return None;
        }
        let mut values = self.values;
        values[count] = 0;
        Some(Record {
            letter: self.letter,
            values,
            count: count + 1,
            wants_digit: true,
        })
    }

    // Another byte came: the last number gets a digit.
    fn add_digit(self, digit: u64) -> Option<Record>
        requires { digit < 16 }
    {
        if self.count == 0 {
            return None;
        }
        let last = self.count - 1;
        let mut values = self.values;
        let value = values[last];
        if DIGIT_FITS_BELOW <= value {
            return None;
        }
        values[last] = value * 16 + digit;
        Some(Record {
            letter: self.letter,
            values,
            count: self.count,
            wants_digit: false,
        })
    }

    // The record after one byte more.
    fn take_byte(self, byte: u8) -> Option<Record> {
        if byte == b' ' {
            return self.begin_number();
        }
        self.add_digit(digit_value(byte)?)
    }
}

// The record that a line holds, where it is well formed.
pub(crate) fn read_record(line: &[u8]) -> Option<Record> {
    let (&letter, rest) = line.split_first()?;
    let mut record = Record {
        letter,
        values: [0; 100],
        count: 0,
        wants_digit: false,
    };
    for &byte in rest {
        record = record.take_byte(byte)?;
    }
    if record.wants_digit {
        return None;
    }
    Some(record)
}

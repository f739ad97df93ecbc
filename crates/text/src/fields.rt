// Lines read from a lent text.
ghost use Rattle.std.specs.Prelude.{◌≡◌, ◌==◌, MatchOption, position, take, drop, min, length};
ghost use Rattle.text.specs.Fields.{longest_line};
ghost use Rattle.text.specs.Groups.{got, missing, value_line, number_line, Reads};

use crate::numbers::read_number;

// The most bytes of a line, with its newline.
const LONGEST_LINE: usize = 64;

// What is left to read of a text, line after line.
#[derive(Clone, Copy)]
pub struct Lines<'a> {
    pub rest: &'a [u8],
}

// The place of the first newline; no more bytes are looked at than a line has.
fn line_end(text: &[u8]) -> Option<usize>
    ensures { result ≡ position (λ b. b == 10) (take (min (length text.now) longest_line) text.now) }
{
    text[..text.len().min(LONGEST_LINE)]
        .iter()
        .position(|&byte| byte == b'\n')
}

impl<'a> Lines<'a> {
    // What is left from a place on; past the text's end nothing is.
    pub fn at(text: &'a [u8], at: usize) -> Lines<'a>
        ensures { result.rest.now ≡ drop at text.now }
    {
        Lines {
            rest: &text[at.min(text.len())..],
        }
    }

    // The value of the next line, a part of the text, where it has that key; else nothing is read.
    pub fn value(&mut self, key: &[u8]) -> Option<&'a [u8]>
        ensures { MatchOption result ((value_line key.now self.old.rest.now ≡ missing) × (self.new ≡ self.old)) (λ v. value_line key.now self.old.rest.now ≡ got v.now self.new.rest.now) }
    {
        let rest = self.rest;
        let end = line_end(rest)?;
        let value = rest[..end].strip_prefix(key)?;
        self.rest = &rest[end + 1..];
        Some(value)
    }

    // The number of the next line, where it has that key and a decimal number of at most `most`; else nothing is read.
    pub fn number(&mut self, key: &[u8], most: u64) -> Option<u64>
        ensures { Reads (number_line (record { name = key.now; most = most }) self.old.rest.now) result self.old self.new }
    {
        let mut lines = *self;
        let digits = lines.value(key)?;
        let number = read_number(digits, most)?;
        *self = lines;
        Some(number)
    }
}

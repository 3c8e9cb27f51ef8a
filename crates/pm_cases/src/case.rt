//! A case: the words of a line, read, and what is answered to them.

use crate::argument::{read_bytes, read_text};
use crate::columns::read_columns;
use crate::refusal::print_refusal;
use pm_value_text::{parse_hex, print_hex};
use pm_values::{Column, Refusal};
use std::alloc::{AllocError, Global};

/// The answer to a line, as far as it is said. A word that isn't as it has to be, or want of memory, is known at the
/// end alone: until then a codec goes on with what stands for it, and has no path of its own for it.
pub struct Case {
    alloc: Global,
    text: String,
    is_case: bool,
    has_memory: bool,
}

impl Drop for Case {
    fn drop(self) {
        let Case {
            alloc,
            text,
            is_case,
            has_memory,
        } = self;
    }
}

impl Case {
    /// A case to which nothing is said so far.
    pub fn new(alloc: Global) -> Case {
        Case {
            alloc,
            text: String::new(alloc),
            is_case: true,
            has_memory: true,
        }
    }

    /// The allocator.
    pub fn alloc(&self) -> Global {
        self.alloc
    }

    /// What was said, or `no such case` where a word isn't as it has to be.
    pub fn into_answer(self) -> Result<String, AllocError> {
        let Case {
            alloc,
            text,
            is_case,
            has_memory,
        } = self;
        if has_memory && is_case {
            return Ok(text);
        }
        drop(text);
        if has_memory {
            String::from_str(alloc, "no such case")
        } else {
            Err(AllocError)
        }
    }

    /// Whether nothing is said so far.
    pub fn is_silent(&self) -> bool {
        self.text.is_empty()
    }

    /// The words of the line are no case.
    pub fn reject(&mut self) {
        self.is_case = false;
    }

    /// There was no memory left.
    pub fn run_out(&mut self) {
        self.has_memory = false;
    }

    /// What was made, if there was memory.
    pub fn made<T: Drop>(&mut self, made: Result<T, AllocError>) -> Option<T> {
        match made {
            Ok(value) => Some(value),
            Err(_) => {
                self.has_memory = false;
                None
            }
        }
    }

    /// Adds an item.
    pub fn push<T: Drop>(&mut self, items: &mut Vec<T>, item: T) {
        if let Err(failed) = items.push(item) {
            drop(failed);
            self.has_memory = false;
        }
    }

    /// Says a text.
    pub fn say(&mut self, text: &str) {
        if self.text.push_str(text).is_err() {
            self.has_memory = false;
        }
    }

    /// Says a text that was made.
    pub fn say_made(&mut self, text: Result<String, AllocError>) {
        match text {
            Ok(text) => self.say(text.as_str()),
            Err(_) => self.has_memory = false,
        }
    }

    /// Says the bytes of a text that was made.
    pub fn say_line(&mut self, line: Result<Vec<u8>, AllocError>) {
        match line {
            Ok(line) => self.say_bytes(&line),
            Err(_) => self.has_memory = false,
        }
    }

    /// Says the text of bytes.
    pub fn say_bytes(&mut self, bytes: &[u8]) {
        self.say_made(String::from_utf8_lossy(self.alloc, bytes));
    }

    /// Says a text in quotes.
    pub fn say_quoted(&mut self, text: &str) {
        self.say_made(format!(in self.alloc; "{text:?}"));
    }

    /// Says the text of bytes in quotes.
    pub fn say_quoted_bytes(&mut self, bytes: &[u8]) {
        match String::from_utf8_lossy(self.alloc, bytes) {
            Ok(text) => self.say_quoted(text.as_str()),
            Err(_) => self.has_memory = false,
        }
    }

    /// Says bytes in hexadecimal digits.
    pub fn say_digits(&mut self, bytes: &[u8]) {
        self.say_made(print_hex(self.alloc, bytes));
    }

    /// Says a number.
    pub fn say_number(&mut self, number: i64) {
        self.say_made(format!(in self.alloc; "{number}"));
    }

    /// Says a number, `null` where there is none.
    pub fn say_optional(&mut self, number: Option<i64>) {
        match number {
            Some(number) => self.say_number(number),
            None => self.say("null"),
        }
    }

    /// Says a truth.
    pub fn say_truth(&mut self, truth: bool) {
        self.say(if truth { "true" } else { "false" });
    }

    /// Says the status of a refusal, and its line.
    pub fn say_refusal(&mut self, refusal: &Refusal) {
        self.say_made(print_refusal(self.alloc, refusal));
    }

    /// Says a refusal that isn't needed any more.
    pub fn refuse(&mut self, refusal: Refusal) {
        self.say_refusal(&refusal);
        drop(refusal);
    }

    /// A text up to its first TAB, and what follows that. A text without one is no case.
    pub fn split<'a>(&mut self, text: &'a str) -> (&'a str, &'a str) {
        self.split_at(text, '\t')
    }

    /// A text up to the first such character, and what follows that. A text without one is no case.
    pub fn split_at<'a>(&mut self, text: &'a str, mark: char) -> (&'a str, &'a str) {
        match text.split_once(mark) {
            Some(parts) => parts,
            None => {
                self.is_case = false;
                ("", "")
            }
        }
    }

    /// The number of a word.
    pub fn number(&mut self, word: &str) -> u64 {
        let number = word.parse::<u64>();
        self.is_case = self.is_case && number.is_ok();
        number.unwrap_or(0)
    }

    /// The number of a word, which may be below 0.
    pub fn signed(&mut self, word: &str) -> i64 {
        let number = word.parse::<i64>();
        self.is_case = self.is_case && number.is_ok();
        number.unwrap_or(0)
    }

    /// The number of a word, in 32 bits.
    pub fn small(&mut self, word: &str) -> u32 {
        let number = word.parse::<u32>();
        self.is_case = self.is_case && number.is_ok();
        number.unwrap_or(0)
    }

    /// The length that a word tells.
    pub fn size(&mut self, word: &str) -> usize {
        let number = word.parse::<usize>();
        self.is_case = self.is_case && number.is_ok();
        number.unwrap_or(0)
    }

    /// The bytes that an argument spells.
    pub fn bytes(&mut self, argument: &str) -> Vec<u8> {
        let bytes = read_bytes(self.alloc, argument);
        self.bytes_of(bytes)
    }

    /// The bytes of hexadecimal digits.
    pub fn digits(&mut self, digits: &str) -> Vec<u8> {
        let bytes = parse_hex(self.alloc, digits);
        self.bytes_of(bytes)
    }

    /// Bytes that were read.
    fn bytes_of(&mut self, bytes: Result<Option<Vec<u8>>, AllocError>) -> Vec<u8> {
        match bytes {
            Ok(Some(bytes)) => return bytes,
            Ok(None) => self.is_case = false,
            Err(_) => self.has_memory = false,
        }
        Vec::new(self.alloc)
    }

    /// The text that an argument spells.
    pub fn text(&mut self, argument: &str) -> String {
        match read_text(self.alloc, argument) {
            Ok(Some(text)) => return text,
            Ok(None) => self.is_case = false,
            Err(_) => self.has_memory = false,
        }
        String::new(self.alloc)
    }

    /// Columns with commas between them.
    pub fn columns(&mut self, text: &str) -> Vec<Column> {
        match read_columns(self.alloc, text) {
            Ok(Some(columns)) => return columns,
            Ok(None) => self.is_case = false,
            Err(_) => self.has_memory = false,
        }
        Vec::new(self.alloc)
    }

    /// The parts of a text between such characters.
    pub fn parts<'a>(&mut self, text: &'a str, mark: char) -> Vec<&'a str> {
        let mut parts = Vec::new(self.alloc);
        for part in text.split(mark) {
            self.push(&mut parts, part);
        }
        parts
    }
}

//! The lines of a scenario, and the small words in them.

ghost use Rattle.std.specs.Prelude.{◌≤◌, length};
ghost use Rattle.std.specs.Bool.{OnTrue};

use crate::complaint::Complaint;
use crate::fault::LineFault;
use hash::Id;
use hex::{FromHex, FromHexError};
use std::alloc::{AllocError, Global};
use std::str;
use std::str::FromStr;

/// The numbers that a version can be.
pub const I32: &str = "-2147483648 to 2147483647";

/// The values that an output can have.
pub const I64: &str = "-9223372036854775808 to 9223372036854775807";

/// The values that a coinbase can pay.
pub const REWARD: &str = "0 to 9223372036854775807";

/// The numbers of four bytes.
pub const U32: &str = "0 to 4294967295";

/// The numbers of eight bytes.
pub const U64: &str = "0 to 18446744073709551615";

/// The hash types of a signature.
pub const U8: &str = "0 to 255";

/// A line that says something.
#[derive(Drop)]
pub struct Line<'t> {
    /// Its place in the scenario, from 1.
    pub number: usize,
    pub text: &'t str,
    /// Its words; none, where the line is no text.
    pub words: Vec<&'t str>,
}

/// The lines of a scenario, without those that say nothing: the ones with no word, and comments.
pub fn lines<'t>(alloc: Global, text: &'t [u8]) -> Result<Vec<Line<'t>>, AllocError> {
    let mut lines = Vec::new(alloc);
    for (place, line) in text.split(|byte| *byte == b'\n').enumerate() {
        if says_something(line) {
            let text = str::from_utf8(line).unwrap_or("");
            lines.push(Line {
                number: place + 1,
                text,
                words: words(alloc, text)?,
            })?;
        }
    }
    Ok(lines)
}

impl Line<'_> {
    /// Refuses a line that is no text, and one with a word that holds a tab or a carriage return.
    pub fn check(&self, alloc: Global) -> Result<(), LineFault> {
        if self.words.is_empty() {
            return Err(LineFault::of_line(Complaint::NoText));
        }
        for word in self.words.iter() {
            if holds_blank(word) {
                return Err(LineFault::of_word(alloc, word, Complaint::Blank));
            }
        }
        Ok(())
    }
}

fn holds_blank(word: &str) -> bool {
    word.bytes().any(|byte| byte == b'\t' || byte == b'\r')
}

/// The number that a line after the last would have.
pub fn number_after(text: &[u8]) -> usize {
    let ended = text.iter().filter(|byte| **byte == b'\n').count();
    match text {
        [] | [.., b'\n'] => ended + 1,
        _ => ended + 2,
    }
}

fn says_something(line: &[u8]) -> bool {
    let first = line.iter().copied().find(|byte| *byte != b' ');
    !matches!(first, None | Some(b'#'))
}

fn words<'t>(alloc: Global, line: &'t str) -> Result<Vec<&'t str>, AllocError> {
    line.split(' ')
        .filter(|word| !word.is_empty())
        .collect(alloc)
}

/// Whether a word can be a name: 1 to 32 letters, digits or `_`.
pub fn is_name(word: &str) -> bool
    ensures { OnTrue result (length word.now ≤ 32) }
{
    let is_lettered = word
        .bytes()
        .all(|byte| byte.is_ascii_alphanumeric() || byte == b'_');
    is_lettered && !word.is_empty() && word.len() <= 32
}

/// Whether a word is as long as an id, and so no name.
pub fn is_id_long(word: &str) -> bool {
    word.len() == 64
}

/// A number in decimal digits, without a sign, that its place can hold.
pub fn number<N: FromStr>(alloc: Global, word: &str, range: &'static str) -> Result<N, LineFault>
where
    N::Err: Drop,
{
    parsed(alloc, word, word, range)
}

/// A number in decimal digits, with `-` before one below zero, that its place can hold.
pub fn signed<N: FromStr>(alloc: Global, word: &str, range: &'static str) -> Result<N, LineFault>
where
    N::Err: Drop,
{
    let digits = word.strip_prefix('-').unwrap_or(word);
    parsed(alloc, word, digits, range)
}

/// The number of a word that has these digits, if they are decimal and its place can hold it.
fn parsed<N: FromStr>(
    alloc: Global,
    word: &str,
    digits: &str,
    range: &'static str,
) -> Result<N, LineFault>
where
    N::Err: Drop,
{
    if is_decimal(digits) {
        if let Ok(number) = word.parse::<N>() {
            return Ok(number);
        }
    }
    Err(LineFault::of_word(alloc, word, Complaint::Number(range)))
}

fn is_decimal(word: &str) -> bool {
    word.bytes().all(|byte| byte.is_ascii_digit())
}

/// Bytes in lower-case hexadecimal digits; `-` is no byte.
pub fn bytes(alloc: Global, word: &str) -> Result<Vec<u8>, LineFault> {
    if word == "-" {
        return Ok(Vec::new(alloc));
    }
    if word.is_empty() || !is_lower_case(word) {
        return Err(LineFault::of_word(alloc, word, Complaint::NoBytes));
    }
    match hex::decode(alloc, word) {
        Ok(bytes) => Ok(bytes),
        Err(FromHexError::OutOfMemory) => Err(LineFault::Memory),
        Err(_) => Err(LineFault::of_word(alloc, word, Complaint::NoBytes)),
    }
}

/// Four bytes in lower-case hexadecimal digits.
pub fn array(alloc: Global, word: &str) -> Result<[u8; 4], LineFault> {
    match <[u8; 4]>::from_hex(word) {
        Ok(bytes) if is_lower_case(word) => Ok(bytes),
        _ => Err(LineFault::of_word(alloc, word, Complaint::Digits(8))),
    }
}

/// An id in lower-case digits, as ids are printed.
pub fn id(alloc: Global, word: &str) -> Result<Id, LineFault> {
    match Id::read(word.as_bytes()) {
        Some(id) if is_lower_case(word) => Ok(id),
        _ => Err(LineFault::of_word(alloc, word, Complaint::Digits(64))),
    }
}

fn is_lower_case(word: &str) -> bool {
    !word.bytes().any(|byte| byte.is_ascii_uppercase())
}

//! What is wrong with a line of a scenario.

use std::alloc::{AllocError, Global};
use std::fmt;

/// The most bytes of a word that are told: a script or a block may have a million digits.
const MAX_TOLD: usize = 72;

/// What is wrong with a line of a scenario, or with one of its words.
#[derive(Clone, Copy)]
pub enum Complaint {
    /// The line's bytes are no UTF-8.
    NoText,
    /// The word holds a tab or a carriage return.
    Blank,
    /// No line begins with the word.
    Unknown,
    /// The line isn't allowed at its place.
    Misplaced,
    /// A line of the word is above the first client.
    Above,
    /// A line of the word is below a client.
    Below,
    /// A line of the word comes right after a transaction's lines.
    Loose,
    /// A line that begins with its first word is spelled so.
    Spelling(&'static str),
    /// The word can't be a name.
    NoName,
    /// The name was given before.
    Taken,
    /// The name is reserved.
    Reserved,
    /// No client may have the name.
    NoClient,
    /// There are more clients than there may be.
    Clients,
    /// The scenario has no client.
    Without,
    /// No block has the name.
    NoBlock,
    /// No transaction has the name.
    NoTransaction,
    /// The word isn't TRANSACTION:N.
    NoOutput,
    /// The word isn't a number in this range.
    Number(&'static str),
    /// The word isn't bytes in hexadecimal digits.
    NoBytes,
    /// The word isn't so many lower-case hexadecimal digits.
    Digits(usize),
    /// The option isn't known.
    NoOption,
    /// The option is given a second time.
    Twice,
    /// The transaction has no such input.
    NoInput,
    /// The parent has the greatest height.
    Height,
    /// The parent has the last time.
    Time,
    /// No nonce meets the target.
    Nonce,
}

/// What is wrong with a line: a complaint, of one of its words where it is one.
#[derive(Drop)]
pub struct Why {
    /// The front of the word.
    word: Option<String>,
    complaint: Complaint,
}

impl Why {
    /// That a word has this fault.
    pub fn of_word(alloc: Global, word: &str, complaint: Complaint) -> Result<Why, AllocError> {
        let word = Some(String::from_str(alloc, front(word))?);
        Ok(Why { word, complaint })
    }

    /// That the line as a whole has this fault.
    pub fn of_line(complaint: Complaint) -> Why {
        Why {
            word: None,
            complaint,
        }
    }
}

/// So much of a word as is told.
fn front(word: &str) -> &str {
    for length in 0..4 {
        if let Some(front) = word.get(..MAX_TOLD - length) {
            return front;
        }
    }
    word
}

impl fmt::Display for Why {
    fn fmt<W: fmt::Write>(&self, f: &mut fmt::Formatter<W>) -> fmt::Result {
        match &self.word {
            Some(word) => write!(f, "{:?} {}", word.as_str(), self.complaint),
            None => self.complaint.fmt(f),
        }
    }
}

impl fmt::Display for Complaint {
    fn fmt<W: fmt::Write>(&self, f: &mut fmt::Formatter<W>) -> fmt::Result {
        match self {
            Complaint::Spelling(spelling) => write!(f, "is spelled {spelling}"),
            Complaint::Number(range) => write!(f, "is no number from {range}"),
            Complaint::Digits(count) => { write!(f, "isn't {count} lower-case hexadecimal digits") }
            complaint => f.write_str(complaint.text()),
        }
    }
}

impl Complaint {
    /// Its text, behind the word; of those with a part of their own nothing.
    fn text(&self) -> &'static str {
        match self {
            Complaint::NoText => "the line is no text",
            Complaint::Blank => "holds a tab or a carriage return; spaces alone part words",
            Complaint::Unknown => "begins no line here",
            Complaint::Misplaced => "no such line can stand here",
            Complaint::Above => "stands above the first client",
            Complaint::Below => "stands below a client",
            Complaint::Loose => "stands right after the lines of a tx",
            Complaint::NoName => "is no name: 1 to 32 letters, digits or _",
            Complaint::Taken => "was given before, and each name is given once",
            Complaint::Reserved => "is reserved",
            Complaint::NoClient => "is the client of a blk file, and no other",
            Complaint::Clients => "there are more than 15 clients",
            Complaint::Without => "there is no client",
            Complaint::NoBlock => "is no block that was defined above",
            Complaint::NoTransaction => "is no transaction that was defined above",
            Complaint::NoOutput => "is no output, TRANSACTION:N",
            Complaint::NoBytes => "isn't bytes in lower-case hexadecimal digits, or -",
            Complaint::NoOption => "is no option of a block",
            Complaint::Twice => "is given a second time",
            Complaint::NoInput => "is no input of the transaction, counted from 0",
            Complaint::Height => "there is no block above the greatest height",
            Complaint::Time => "the parent has the last time that a header can have",
            Complaint::Nonce => "no nonce meets the target",
            Complaint::Spelling(_) | Complaint::Number(_) | Complaint::Digits(_) => "",
        }
    }
}

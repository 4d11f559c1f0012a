//! The clients of a scenario, and their commands.

use crate::complaint::Complaint;
use crate::definitions::Definitions;
use crate::fault::{LineFault, ScenarioFault};
use crate::line::{Line, U64, bytes, is_name, number};
use crate::line_forms::no_command;
use block::GENESIS_TIME;
use hash::Id;
use std::alloc::Global;
use std::fmt;
use txn::OutPoint;

/// The words of a command, as an answer repeats them.
#[derive(Clone, Copy)]
pub enum Words<'d, 't> {
    /// The bytes of this line.
    Line(&'t str),
    /// The submission of the block of this name.
    Submit(&'d str),
}

/// The bytes of a submission.
#[derive(Drop)]
pub enum Payload<'d> {
    /// The bytes of a block of the definitions, or of its front.
    Lent(&'d [u8]),
    Own(Vec<u8>),
}

/// What a client asks of its seat.
#[derive(Drop)]
pub enum Request<'d> {
    /// To submit these bytes, at this moment in seconds since 1970.
    Submit(Payload<'d>, u64),
    /// To mark the block of this id as invalid.
    Invalidate(Id),
    /// To take the marks from the block of this id, its ancestors and its descendants.
    Reconsider(Id),
    /// To prefer the block of this id to all that are as high.
    Precious(Id),
    Best,
    Tips,
    /// What coin this output is.
    Output(OutPoint),
}

/// A command that is answered.
#[derive(Drop)]
pub struct Call<'d, 't> {
    pub words: Words<'d, 't>,
    pub request: Request<'d>,
}

/// A client: its name and its commands, in order.
#[derive(Drop)]
pub struct Client<'d, 't> {
    pub name: &'t str,
    pub calls: Vec<Call<'d, 't>>,
    /// The moment of the submissions to come.
    now: u64,
}

/// The most clients that a scenario has.
const MAX_CLIENTS: usize = 15;

/// The name of the client that submits a blk file, which no other has.
pub const BLK: &str = "blk";

/// The clients of these lines, over the definitions before them: at most 15, each of another name.
pub fn read_clients<'d, 't>(
    alloc: Global,
    definitions: &'d Definitions,
    lines: &[Line<'t>],
) -> Result<Vec<Client<'d, 't>>, ScenarioFault> {
    let mut clients = Vec::new(alloc);
    for line in lines {
        if let Err(fault) = read_line(alloc, definitions, line, &mut clients) {
            return Err(fault.at(line.number));
        }
    }
    Ok(clients)
}

fn read_line<'d, 't>(
    alloc: Global,
    definitions: &'d Definitions,
    line: &Line<'t>,
    clients: &mut Vec<Client<'d, 't>>,
) -> Result<(), LineFault> {
    line.check(alloc)?;
    if let ["client", name] = line.words.as_slice() {
        return add_client(alloc, name, clients);
    }
    match clients.last_mut() {
        Some(client) => client.command(alloc, definitions, line),
        None => Err(no_command(alloc, line.words.as_slice())),
    }
}

/// Adds a client of this name, which no other has.
fn add_client<'d, 't>(
    alloc: Global,
    name: &'t str,
    clients: &mut Vec<Client<'d, 't>>,
) -> Result<(), LineFault> {
    if is_taken(clients.as_slice(), name) {
        return Err(LineFault::of_word(alloc, name, Complaint::Taken));
    }
    if clients.len() >= MAX_CLIENTS {
        return Err(LineFault::of_line(Complaint::Clients));
    }
    clients.push(Client::new(alloc, name)?)?;
    Ok(())
}

fn is_taken(clients: &[Client<'_, '_>], name: &str) -> bool {
    for client in clients {
        if client.name == name {
            return true;
        }
    }
    false
}

impl<'d, 't> Client<'d, 't> {
    fn new(alloc: Global, name: &'t str) -> Result<Client<'d, 't>, LineFault> {
        if !is_name(name) {
            return Err(LineFault::of_word(alloc, name, Complaint::NoName));
        }
        if name == BLK {
            return Err(LineFault::of_word(alloc, name, Complaint::NoClient));
        }
        Ok(Client {
            name,
            calls: Vec::new(alloc),
            now: u64::from(GENESIS_TIME),
        })
    }

    /// Adds the command of a line.
    fn command(
        &mut self,
        alloc: Global,
        definitions: &'d Definitions,
        line: &Line<'t>,
    ) -> Result<(), LineFault> {
        match line.words.as_slice() {
            ["now", moment] => self.set_moment(alloc, moment),
            ["submit", name] => self.submit(definitions, name),
            ["each", name, first, last] => self.each(alloc, definitions, name, first, last),
            ["cut", name, length] => self.cut(alloc, definitions, line.text, name, length),
            ["raw", digits] => self.raw(alloc, line.text, digits),
            words => self.ask(alloc, definitions, line.text, words),
        }
    }

    fn set_moment(&mut self, alloc: Global, word: &str) -> Result<(), LineFault> {
        self.now = number(alloc, word, U64)?;
        Ok(())
    }

    /// Submits the front of a block.
    fn cut(
        &mut self,
        alloc: Global,
        definitions: &'d Definitions,
        text: &'t str,
        name: &str,
        length: &str,
    ) -> Result<(), LineFault> {
        let whole = definitions.find(name)?.bytes.as_slice();
        let cut = Payload::Lent(front(whole, number(alloc, length, U64)?));
        self.call(Words::Line(text), Request::Submit(cut, self.now))
    }

    /// Submits these bytes.
    fn raw(&mut self, alloc: Global, text: &'t str, digits: &str) -> Result<(), LineFault> {
        let raw = Payload::Own(bytes(alloc, digits)?);
        self.call(Words::Line(text), Request::Submit(raw, self.now))
    }

    /// Asks what submits nothing.
    fn ask(
        &mut self,
        alloc: Global,
        definitions: &'d Definitions,
        text: &'t str,
        words: &[&str],
    ) -> Result<(), LineFault> {
        let question = question(alloc, definitions, words)?;
        self.call(Words::Line(text), question)
    }

    fn submit(&mut self, definitions: &'d Definitions, name: &str) -> Result<(), LineFault> {
        let block = definitions.find(name)?;
        let whole = Payload::Lent(block.bytes.as_slice());
        self.call(
            Words::Submit(block.name.as_str()),
            Request::Submit(whole, self.now),
        )
    }

    /// Submits the blocks of a name and each number from the first to the last.
    fn each(
        &mut self,
        alloc: Global,
        definitions: &'d Definitions,
        name: &str,
        first: &str,
        last: &str,
    ) -> Result<(), LineFault> {
        let first: u64 = number(alloc, first, U64)?;
        let last: u64 = number(alloc, last, U64)?;
        if !is_name(name) {
            return Err(LineFault::of_word(alloc, name, Complaint::NoName));
        }
        for place in first..=last {
            self.submit_numbered(alloc, definitions, name, place)?;
        }
        Ok(())
    }

    fn submit_numbered(
        &mut self,
        alloc: Global,
        definitions: &'d Definitions,
        name: &str,
        place: u64,
    ) -> Result<(), LineFault> {
        let numbered = format!(in alloc; "{name}{place}")?;
        self.submit(definitions, numbered.as_str())
    }

    fn call(&mut self, words: Words<'d, 't>, request: Request<'d>) -> Result<(), LineFault> {
        self.calls.push(Call { words, request })?;
        Ok(())
    }
}

/// What the words of a line ask that submits nothing.
fn question<'d>(
    alloc: Global,
    definitions: &Definitions,
    words: &[&str],
) -> Result<Request<'d>, LineFault> {
    match words {
        ["invalidate", block] => Ok(Request::Invalidate(definitions.block_id(block)?)),
        ["reconsider", block] => Ok(Request::Reconsider(definitions.block_id(block)?)),
        ["precious", block] => Ok(Request::Precious(definitions.block_id(block)?)),
        ["best"] => Ok(Request::Best),
        ["tips"] => Ok(Request::Tips),
        ["txout", output] => Ok(Request::Output(definitions.output(output)?)),
        _ => Err(no_command(alloc, words)),
    }
}

impl Payload<'_> {
    pub fn as_slice(&self) -> &[u8] {
        match self {
            Payload::Lent(bytes) => bytes,
            Payload::Own(bytes) => bytes.as_slice(),
        }
    }
}

/// This many of the bytes, or all where there are fewer.
fn front(bytes: &[u8], length: u64) -> &[u8] {
    if length < bytes.len() as u64 {
        &bytes[..length as usize]
    } else {
        bytes
    }
}

impl fmt::Display for Words<'_, '_> {
    fn fmt<W: fmt::Write>(&self, f: &mut fmt::Formatter<W>) -> fmt::Result {
        match self {
            Words::Line(line) => write_words(line, f),
            Words::Submit(name) => write!(f, "submit {name}"),
        }
    }
}

/// Writes the words of a line, with one space between two.
fn write_words<W: fmt::Write>(line: &str, f: &mut fmt::Formatter<W>) -> fmt::Result {
    let mut is_first = true;
    for word in line.split(' ') {
        if word.is_empty() {
            continue;
        }
        if !is_first {
            f.write_str(" ")?;
        }
        is_first = false;
        f.write_str(word)?;
    }
    Ok(())
}

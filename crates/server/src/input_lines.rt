//! The lines of the input, and whose turn they wait for.

use crate::outbox::Outbox;
use crate::tally::Tally;
use crate::turn::{Ask, Blank, Turn};
use console::fault::RunFault;
use console::options::STANDARD;
use crossbeam_channel::{Sender, TrySendError};
use durable::Answer;
use memchr::memchr;
use serving::{Asked, Info, Refusal, Request, RequestId, info_line, read_request, refusal_line};
use std::alloc::{AllocError, Global};
use std::io;
use std::io::{BufRead, BufReader, Error, ErrorKind, Read};
use std::sync::Wait;

/// How many bytes a line has at most: a block of 33,554,432 bytes in hexadecimal digits fits.
const MAX_LINE: usize = 70_000_000;

/// How many bytes are read at once.
pub const READ_AHEAD: usize = 65_536;

/// A line of the input.
#[derive(Drop)]
pub enum InputLine {
    Whole(Vec<u8>),
    /// More than a line may have. It is skipped.
    TooMuch(Refusal),
}

/// What was at hand of a line.
#[derive(Drop)]
enum LinePiece {
    Middle,
    Last,
    /// Nothing: the input has ended.
    None,
    /// More than a line may have.
    TooMuch(Refusal),
}

/// What comes after a line.
#[derive(Drop)]
enum Next {
    Line,
    /// Nothing, before this was done.
    WhenIdle(WhenIdle),
    /// The end, since nobody takes what comes.
    Left,
}

/// What is done when no request is under way.
#[derive(Drop)]
pub enum WhenIdle {
    /// To end, for which this request asked.
    Finish(RequestId),
    /// To save what happened so far, and to go on.
    Save(Blank),
}

/// Where requests wait for each seat, and where lines wait for being written.
#[derive(Drop)]
pub struct Doors {
    pub seats: Vec<Sender<Turn>>,
    pub to: Sender<Answer>,
    /// Whether a request is refused for whose seat as many wait as may. Else it is waited for room.
    pub is_busy: bool,
    /// Whether what happens is saved into a folder.
    pub is_saved: bool,
    /// How the node was opened.
    pub info: Info<'static>,
}

/// Where requests come from, a line each.
pub trait Requests {
    /// The next line, without its end; the last may lack it. One that has too much is skipped.
    fn next_line(&mut self, alloc: Global) -> io::Result<Option<InputLine>>;
}

impl<I: Read> Requests for BufReader<I> {
    fn next_line(&mut self, alloc: Global) -> io::Result<Option<InputLine>> {
        read_line(alloc, self)
    }
}

/// Reads requests and has each wait for its seat, to the end of the input, or to one for which nothing may be under way.
pub fn read_requests<R, I>(
    rt: &R,
    outbox: &Outbox,
    doors: &Doors,
    input: &mut I,
) -> io::Result<Option<WhenIdle>>
where
    R: AllocGlobal + Wait,
    I: Requests,
{
    for _ in 0..u64::MAX {
        match read_next(rt, outbox, doors, input)? {
            Next::Line => {}
            Next::WhenIdle(stop) => return Ok(Some(stop)),
            Next::Left => return Ok(None),
        }
    }
    Ok(None)
}

/// Reads a line, and has it wait for its seat or answers it.
fn read_next<R, I>(rt: &R, outbox: &Outbox, doors: &Doors, input: &mut I) -> io::Result<Next>
where
    R: AllocGlobal + Wait,
    I: Requests,
{
    match input.next_line(rt.alloc())? {
        Some(_) if outbox.is_over() => Ok(Next::Left),
        Some(line) => pass_on(rt, doors, line),
        None => Ok(Next::Left),
    }
}

/// The next line, without its end; the last may lack it. One that has too much is skipped.
fn read_line<I: BufRead>(alloc: Global, input: &mut I) -> io::Result<Option<InputLine>> {
    let mut line = Vec::new(alloc);
    let mut tally = Tally::new();
    for _ in 0..u64::MAX {
        match read_piece(input, &mut line, &mut tally)? {
            LinePiece::Middle => {}
            LinePiece::Last => return Ok(Some(InputLine::Whole(line))),
            LinePiece::None if line.is_empty() => return Ok(None),
            LinePiece::None => return Ok(Some(InputLine::Whole(line))),
            LinePiece::TooMuch(refusal) => {
                drop(line);
                input.skip_until(b'\n')?;
                return Ok(Some(InputLine::TooMuch(refusal)));
            }
        }
    }
    Ok(None)
}

/// Adds what is at hand of a line, without its end.
fn read_piece<I: BufRead>(
    input: &mut I,
    line: &mut Vec<u8>,
    tally: &mut Tally,
) -> io::Result<LinePiece> {
    let bytes = match input.fill_buf() {
        Ok(bytes) => bytes,
        Err(error) if error.kind() == ErrorKind::Interrupted => return Ok(LinePiece::Middle),
        Err(error) => return Err(error),
    };
    if bytes.is_empty() {
        return Ok(LinePiece::None);
    }
    let (front, taken, piece) = match memchr(b'\n', bytes) {
        Some(end) => (&bytes[..end], end + 1, LinePiece::Last),
        None => (bytes, bytes.len(), LinePiece::Middle),
    };
    if front.len() > MAX_LINE.saturating_sub(line.len()) {
        return Ok(LinePiece::TooMuch(Refusal::TooLong));
    }
    tally.add(front);
    if tally.is_above() {
        return Ok(LinePiece::TooMuch(Refusal::TooMany));
    }
    line.extend_from_slice(front)?;
    input.consume(taken);
    Ok(piece)
}

/// Has a line wait for its seat, or answers it.
fn pass_on<R>(rt: &R, doors: &Doors, line: InputLine) -> io::Result<Next>
where
    R: AllocGlobal + Wait,
{
    let Request { id, asked } = match line {
        InputLine::Whole(line) => read_request(rt.alloc(), line.as_slice(), doors.seats.len())?,
        InputLine::TooMuch(refusal) => Request {
            id: RequestId::Null,
            asked: Asked::Refused(None, refusal),
        },
    };
    match asked {
        Asked::Seat(seat, call) => {
            let turn = Turn::new(rt.alloc(), id, Ask::Call(call))?;
            Ok(doors.wait(rt, seat, turn)?)
        }
        Asked::Refused(Some(seat), refusal) => {
            let turn = Turn::new(rt.alloc(), id, Ask::Refused(refusal))?;
            Ok(doors.wait(rt, seat, turn)?)
        }
        Asked::Save if doors.is_saved => Ok(Next::WhenIdle(WhenIdle::Save(Blank::new(
            rt.alloc(),
            id,
        )?))),
        Asked::Save => {
            let turn = Turn::new(rt.alloc(), id, Ask::Save)?;
            Ok(doors.wait(rt, 0, turn)?)
        }
        Asked::Finish => Ok(Next::WhenIdle(WhenIdle::Finish(id))),
        Asked::Info => {
            let line = info_line(Vec::new(rt.alloc()), &id, &doors.info)?;
            Ok(doors.tell(rt, line))
        }
        Asked::Refused(None, refusal) => {
            let line = refusal_line(Vec::new(rt.alloc()), &id, refusal)?;
            Ok(doors.tell(rt, line))
        }
    }
}

impl Doors {
    /// Has a request wait for its seat, or refuses it.
    fn wait<R: Wait>(&self, rt: &R, seat: usize, turn: Turn) -> Result<Next, AllocError> {
        let Some(door) = self.seats.get(seat) else {
            return Ok(Next::Left);
        };
        if !self.is_busy {
            return Ok(passed(door.send(rt, turn).is_ok()));
        }
        match door.try_send(rt, turn) {
            Ok(()) => Ok(Next::Line),
            Err(TrySendError::Full(turn)) => {
                Ok(self.tell(rt, turn.blank.refuse(Refusal::Busy)?))
            }
            Err(_) => Ok(Next::Left),
        }
    }

    /// Has a line wait for being written that tells of no step.
    fn tell<R: Wait>(&self, rt: &R, line: Vec<u8>) -> Next {
        passed(self.to.send(rt, Answer { stamp: 0, line }).is_ok())
    }
}

fn passed(is_taken: bool) -> Next {
    if is_taken { Next::Line } else { Next::Left }
}

/// Why no more is read.
pub fn unread(error: Error) -> RunFault<'static> {
    match error.kind() {
        ErrorKind::OutOfMemory => RunFault::Memory,
        _ => RunFault::CannotRead(STANDARD, error),
    }
}

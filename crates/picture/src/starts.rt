//! Where pieces begin, and in which order they come.

use crate::block_tree::{BlockTree, PlacedBlock};
use crate::status::BlockStatus;
use std::alloc::{AllocError, Global};

/// In which order pieces come: a piece, and then those on it.
#[derive(Clone, Copy)]
pub enum Order {
    /// What goes on in the same line comes first, and then the other branches, the highest first.
    MainFirst,
    /// The other branches come first, as on a terminal.
    MainLast,
}

/// What begins.
#[derive(Clone, Copy)]
pub enum What {
    /// The blocks from that of this place on.
    Blocks(usize),
    /// The stub of the branch of this place, with the branch.
    Stub(usize),
    /// The stub of the active branch from this place on, which comes by itself.
    ActiveStub(usize),
}

/// A piece that is to come.
#[derive(Drop)]
pub struct PieceStart {
    pub what: What,
    /// The place of the piece that it is built on.
    pub below: Option<usize>,
    /// None where it begins a line.
    pub line: Option<usize>,
    pub lead: String,
    /// What is written before the pieces of its line that follow.
    pub rest: String,
}

/// Where the pieces on one begin.
#[derive(Clone, Copy)]
pub struct Branching {
    /// The place of that piece.
    pub below: usize,
    pub line: usize,
    pub main: Option<usize>,
    pub is_active: bool,
    pub order: Order,
}

/// Adds the pieces on one to those to come; the last that is added comes first.
pub fn add_starts(
    alloc: Global,
    branching: &Branching,
    children: &[usize],
    rest: &str,
    starts: &mut Vec<PieceStart>,
) -> Result<(), AllocError> {
    if matches!(branching.order, Order::MainLast) {
        add_main(alloc, branching, rest, starts)?;
    }
    let mut is_last = branching.main.is_none();
    for child in children.iter().rev() {
        if branching.main != Some(*child) {
            let (turn, line) = columns(branching.is_active, is_last);
            starts.push(PieceStart {
                what: What::Blocks(*child),
                below: Some(branching.below),
                line: None,
                lead: format!(in alloc; "{rest}{turn}")?,
                rest: format!(in alloc; "{rest}{line}")?,
            })?;
            is_last = false;
        }
    }
    if matches!(branching.order, Order::MainFirst) {
        add_main(alloc, branching, rest, starts)?;
    }
    Ok(())
}

/// Adds what goes on in the same line.
fn add_main(
    alloc: Global,
    branching: &Branching,
    rest: &str,
    starts: &mut Vec<PieceStart>,
) -> Result<(), AllocError> {
    if let Some(place) = branching.main {
        starts.push(PieceStart {
            what: What::Blocks(place),
            below: Some(branching.below),
            line: Some(branching.line),
            lead: String::from_str(alloc, rest)?,
            rest: String::from_str(alloc, rest)?,
        })?;
    }
    Ok(())
}

/// What is written on a terminal before a branch, and before what follows in it: thick on the active branch, and open
/// where nothing more is built on the block.
fn columns(is_active: bool, is_last: bool) -> (&'static str, &'static str) {
    match (is_active, is_last) {
        (true, false) => ("┠─", "┃ "),
        (true, true) => ("┖─", "  "),
        (false, false) => ("├─", "│ "),
        (false, true) => ("└─", "  "),
    }
}

/// Adds the branches that have a block of this height, the first that is drawn: each but genesis begins with a stub.
/// That of the active branch comes first, and is the line 0.
pub fn add_roots(
    alloc: Global,
    tree: &BlockTree,
    from: usize,
    order: Order,
    starts: &mut Vec<PieceStart>,
) -> Result<(), AllocError> {
    if from == 0 {
        starts.push(root(alloc, What::Blocks(0), "", "")?)?;
        return Ok(());
    }
    let main = active_at(tree, from);
    if let (Some(place), Order::MainLast) = (main, order) {
        starts.push(active_root(alloc, place)?)?;
    }
    let (lead, rest) = match main {
        Some(_) => ("┠┄", "┃ "),
        None => ("", ""),
    };
    for place in (0..tree.len()).rev() {
        if main != Some(place) && is_at(tree.node(place), from) {
            starts.push(root(alloc, What::Stub(place), lead, rest)?)?;
        }
    }
    if let Some(place) = main {
        if matches!(order, Order::MainFirst) {
            starts.push(active_root(alloc, place)?)?;
        }
        starts.push(root(alloc, What::ActiveStub(place), "", "")?)?;
    }
    Ok(())
}

/// A line of pieces that is built on none.
fn root(alloc: Global, what: What, lead: &str, rest: &str) -> Result<PieceStart, AllocError> {
    Ok(PieceStart {
        what,
        below: None,
        line: None,
        lead: String::from_str(alloc, lead)?,
        rest: String::from_str(alloc, rest)?,
    })
}

/// What goes on behind the active branch's stub, the first piece.
fn active_root(alloc: Global, place: usize) -> Result<PieceStart, AllocError> {
    Ok(PieceStart {
        below: Some(0),
        line: Some(0),
        ..root(alloc, What::Blocks(place), "", "")?
    })
}

/// The active block of a height.
fn active_at(tree: &BlockTree, height: usize) -> Option<usize> {
    (0..tree.len()).find(|place| is_active_at(tree.node(*place), height))
}

fn is_active_at(node: Option<&PlacedBlock>, height: usize) -> bool {
    match node {
        Some(node) => node.height == height && node.block.status == BlockStatus::Active,
        None => false,
    }
}

fn is_at(node: Option<&PlacedBlock>, height: usize) -> bool {
    match node {
        Some(node) => node.height == height,
        None => false,
    }
}

/// The active block that the branch of a place begins on: the highest that is active below it.
pub fn stub_of(tree: &BlockTree, place: usize) -> Option<&PlacedBlock> {
    let mut node = tree.node(place)?;
    for _ in 0..tree.len() {
        node = tree.node(node.parent?)?;
        if node.block.status == BlockStatus::Active {
            break;
        }
    }
    Some(node)
}

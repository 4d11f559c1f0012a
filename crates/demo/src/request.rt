//! What a line asks for.

use hash::Id;
use std::alloc::{AllocError, Global};
use txn::OutPoint;

/// What a line asks for.
#[derive(Drop)]
pub enum Request<'t> {
    /// To take the block of this name and these bytes.
    Submit(&'t str, Vec<u8>),
    /// The coin at this outpoint, which the line calls so.
    Coin(&'t str, OutPoint),
    /// The tips of the tree.
    Tips,
}

impl<'t> Request<'t> {
    /// A line of `submit NAME HEX`, `coin NAME TXID INDEX` or `tips`; nothing where it is another.
    pub fn read(alloc: Global, line: &'t str) -> Result<Option<Request<'t>>, AllocError> {
        let words: Vec<&str> = line.split_whitespace().collect(alloc)?;
        Ok(match words.as_slice() {
            ["submit", name, digits] => hex::decode(alloc, *digits)
                .ok()
                .map(|bytes| Request::Submit(*name, bytes)),
            ["coin", name, id, index] => outpoint(id, index).map(|at| Request::Coin(*name, at)),
            ["tips"] => Some(Request::Tips),
            _ => None,
        })
    }
}

fn outpoint(id: &str, index: &str) -> Option<OutPoint> {
    Some(OutPoint {
        id: Id::read(id.as_bytes())?,
        index: index.parse().ok()?,
    })
}

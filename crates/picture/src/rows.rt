//! The rows of a picture, which its lines of pieces share.

use std::alloc::{AllocError, Global};

/// The rows in use. Lines come from the right to the left: what is in a row by then lies behind a column.
#[derive(Drop)]
pub struct Rows {
    /// Of each row the first column that isn't free, with the gap before it.
    taken: Vec<usize>,
}

impl Rows {
    pub fn new(alloc: Global) -> Rows {
        Rows {
            taken: Vec::new(alloc),
        }
    }

    /// How many there are.
    pub fn len(&self) -> usize {
        self.taken.len()
    }

    /// The first row from one on in which all columns up to the last of a line are free. What leads to the line from
    /// the row above takes each row between.
    pub fn place(&mut self, from: usize, columns: (usize, usize)) -> Result<usize, AllocError> {
        let (first, last) = columns;
        let row = self.first_free(from, last);
        for _ in self.taken.len()..row.saturating_add(1) {
            self.taken.push(usize::MAX)?;
        }
        for taken in self.taken.iter_mut().take(row.saturating_add(1)).skip(from) {
            *taken = first;
        }
        Ok(row)
    }

    fn first_free(&self, from: usize, last: usize) -> usize {
        for row in from..self.taken.len() {
            match self.taken.get(row) {
                Some(taken) if *taken <= last => {}
                _ => return row,
            }
        }
        self.taken.len().max(from)
    }
}

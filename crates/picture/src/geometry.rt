//! Where pieces are in a picture.

use crate::arrangement::Piece;
use crate::rows::Rows;
use std::alloc::{AllocError, Global};

/// How far one row lies below the next, in pixels.
const ROW: usize = 68;

/// What lies above the first row, and beside the first and the last column, in pixels.
const MARGIN: usize = 60;

/// The height of a line of the legend, in pixels.
pub const LEGEND_LINE: usize = 24;

/// The width of the legend, in pixels.
const LEGEND_WIDTH: usize = 860;

/// A picture with more columns is drawn narrow, or folded.
const MAX_COLUMNS: usize = 64;

/// A picture with more rows is folded.
const MAX_ROWS: usize = 6;

/// How wide what is in a column is, in pixels and letters.
#[derive(Clone, Copy)]
pub struct Scale {
    /// How far one height lies behind the next that is drawn.
    pub column: usize,
    /// Half of what shows several blocks in one column.
    pub half: usize,
    /// How many letters of a name are written.
    pub letters: usize,
    /// How many of each of two names over one column; none where the second isn't written.
    pub of_two: Option<usize>,
}

const WIDE: Scale = Scale {
    column: 104,
    half: 34,
    letters: 13,
    of_two: Some(5),
};

const NARROW: Scale = Scale {
    column: 64,
    half: 22,
    letters: 7,
    of_two: None,
};

/// The columns, one for each height at which a piece begins or ends, and the rows.
#[derive(Drop)]
pub struct Layout {
    /// In order.
    heights: Vec<usize>,
    /// The row of each line of pieces.
    rows: Vec<usize>,
    row_count: usize,
    pub scale: Scale,
}

impl Layout {
    pub fn new(alloc: Global, pieces: &[Piece<'_>]) -> Result<Layout, AllocError> {
        let heights = heights(alloc, pieces)?;
        let scale = if heights.len() > MAX_COLUMNS {
            NARROW
        } else {
            WIDE
        };
        let mut layout = Layout {
            heights,
            rows: Vec::new(alloc),
            row_count: 0,
            scale,
        };
        layout.place_lines(alloc, pieces)?;
        Ok(layout)
    }

    /// Gives each line of pieces its row: the highest line on a piece comes first, and each takes the first row below its
    /// parent's that is free as far as it goes.
    fn place_lines(&mut self, alloc: Global, pieces: &[Piece<'_>]) -> Result<(), AllocError> {
        let ends = self.ends(alloc, pieces)?;
        let mut rows = Rows::new(alloc);
        for piece in pieces {
            if let (true, Some(end)) = (piece.at.line == self.rows.len(), ends.get(piece.at.line)) {
                let from = self.row_below(piece, pieces);
                let row = rows.place(from, (self.column(piece.at.first), *end))?;
                self.rows.push(row)?;
            }
        }
        self.row_count = rows.len();
        Ok(())
    }

    /// The last column of each line of pieces.
    fn ends(&self, alloc: Global, pieces: &[Piece<'_>]) -> Result<Vec<usize>, AllocError> {
        let mut ends = Vec::new(alloc);
        for piece in pieces {
            let end = self.column(piece.at.last);
            match ends.get_mut(piece.at.line) {
                Some(before) => *before = end,
                None => ends.push(end)?,
            }
        }
        Ok(ends)
    }

    /// The row below the one of the piece that this one is built on; the first, where that is none.
    fn row_below(&self, piece: &Piece<'_>, pieces: &[Piece<'_>]) -> usize {
        let Some(place) = piece.at.below else {
            return 0;
        };
        match pieces.get(place) {
            Some(below) => self.row(below).saturating_add(1),
            None => 0,
        }
    }

    /// Whether it is too wide or too high to show each block by itself.
    pub fn is_large(&self) -> bool {
        self.heights.len() > MAX_COLUMNS || self.row_count > MAX_ROWS
    }

    fn row(&self, piece: &Piece<'_>) -> usize {
        self.rows.get(piece.at.line).copied().unwrap_or_default()
    }

    fn column(&self, height: usize) -> usize {
        match self.heights.binary_search(&height) {
            Ok(column) => column,
            Err(column) => column,
        }
    }

    /// Where a height that is drawn lies, from the left.
    pub fn x(&self, height: usize) -> usize {
        self.column(height)
            .saturating_mul(self.scale.column)
            .saturating_add(MARGIN)
    }

    /// Where a piece lies, from above.
    pub fn y(&self, piece: &Piece<'_>) -> usize {
        self.row(piece).saturating_mul(ROW).saturating_add(MARGIN)
    }

    /// Where the first line of the legend lies, from above.
    pub fn legend(&self) -> usize {
        self.row_count.saturating_mul(ROW).saturating_add(MARGIN)
    }

    /// How wide the picture is.
    pub fn width(&self) -> usize {
        self.heights
            .len()
            .saturating_sub(1)
            .saturating_mul(self.scale.column)
            .saturating_add(2 * MARGIN)
            .max(LEGEND_WIDTH)
    }

    /// How high the picture is, with so many lines of a legend.
    pub fn height(&self, lines: usize) -> usize {
        self.legend()
            .saturating_add(lines.saturating_mul(LEGEND_LINE))
    }
}

/// The heights at which pieces begin and end. A run's others have no column.
fn heights(alloc: Global, pieces: &[Piece<'_>]) -> Result<Vec<usize>, AllocError> {
    let mut heights = Vec::new(alloc);
    for piece in pieces {
        heights.push(piece.at.first)?;
        heights.push(piece.at.last)?;
    }
    heights.sort()?;
    heights.dedup();
    Ok(heights)
}

//! The shapes of pieces in SVG: full circles on the active branch, rings, squares, and diamonds; bars for several blocks; a
//! cross where one is marked.

use crate::status::Look;
use std::alloc::{AllocError, Global};

/// Half of a block's width, in pixels.
pub const HALF: usize = 9;

/// A shape round a point; of several blocks it is as wide as from one point to another.
#[derive(Clone, Copy)]
pub struct Shape {
    pub look: Look,
    pub is_marked: bool,
    pub is_best: bool,
    /// How many blocks it shows.
    pub count: usize,
    pub x: usize,
    /// The last of its points; `x` where it is one.
    pub end: usize,
    pub y: usize,
    /// How far it goes beside its points.
    pub half: usize,
    /// Whether there is room for a word beside the number of blocks.
    pub is_wide: bool,
}

impl Shape {
    /// As elements of SVG.
    pub fn write(&self, svg: &mut String) -> Result<(), AllocError> {
        if self.count > 1 {
            return self.write_bar(svg);
        }
        self.write_block(svg)?;
        if self.is_marked {
            write_cross(self.x, self.y, svg)?;
        }
        self.write_ring(svg)
    }

    /// A block, without what is drawn over it.
    fn write_block(&self, svg: &mut String) -> Result<(), AllocError> {
        let Shape { x, y, .. } = *self;
        match self.look {
            Look::Active => write!(svg, "<circle cx=\"{x}\" cy=\"{y}\" r=\"{HALF}\"/>"),
            Look::ValidFork | Look::Stub => write!(
                svg,
                "<circle class=\"open\" cx=\"{x}\" cy=\"{y}\" r=\"{HALF}\"/>"
            ),
            Look::ValidHeaders | Look::Mixed => {
                let (left, top) = (x.saturating_sub(HALF), y.saturating_sub(HALF));
                let side = 2 * HALF;
                write!(
                    svg,
                    "<rect class=\"open\" x=\"{left}\" y=\"{top}\" width=\"{side}\" height=\"{side}\"/>"
                )
            }
            Look::Invalid => {
                let class = if self.is_marked { "full" } else { "open" };
                let left = x.saturating_sub(12);
                write!(
                    svg,
                    "<path class=\"{class}\" d=\"M{left} {y}l12 -12 12 12 -12 12z\"/>"
                )
            }
        }
    }

    /// The ring round the best block, or the frame round a bar that ends with it.
    fn write_ring(&self, svg: &mut String) -> Result<(), AllocError> {
        if !self.is_best {
            return Ok(());
        }
        let Shape { x, y, .. } = *self;
        write!(
            svg,
            "<circle class=\"best\" cx=\"{x}\" cy=\"{y}\" r=\"14\"/>"
        )
    }

    /// Several blocks, with their number.
    fn write_bar(&self, svg: &mut String) -> Result<(), AllocError> {
        let class = match self.look {
            Look::Active => "full",
            _ => "open",
        };
        let corner = match self.look {
            Look::Active | Look::ValidFork => HALF,
            _ => 1,
        };
        let left = self.x.saturating_sub(self.half);
        let width = self
            .end
            .saturating_sub(self.x)
            .saturating_add(self.half.saturating_mul(2));
        write_box(class, corner, (left, self.y), (width, HALF), svg)?;
        if self.is_best {
            let (left, width) = (left.saturating_sub(5), width.saturating_add(10));
            write_box("best", 14, (left, self.y), (width, 14), svg)?;
        }
        let middle = self.x.saturating_add(self.end) / 2;
        let base = self.y.saturating_add(4);
        let (cross, words) = (
            if self.is_marked { "× " } else { "" },
            if self.is_wide { " blocks" } else { "" },
        );
        write!(
            svg,
            "<text class=\"in-{class}\" x=\"{middle}\" y=\"{base}\">{cross}{}{words}</text>",
            self.count
        )
    }
}

/// A box from the left, round a height, of a width and half of a height.
fn write_box(
    class: &str,
    corner: usize,
    at: (usize, usize),
    size: (usize, usize),
    svg: &mut String,
) -> Result<(), AllocError> {
    let ((left, y), (width, half)) = (at, size);
    let (top, height) = (y.saturating_sub(half), half.saturating_mul(2));
    write!(
        svg,
        "<rect class=\"{class}\" x=\"{left}\" y=\"{top}\" rx=\"{corner}\" "
    )?;
    write!(svg, "width=\"{width}\" height=\"{height}\"/>")
}

/// The cross in a block that is marked.
fn write_cross(x: usize, y: usize, svg: &mut String) -> Result<(), AllocError> {
    let (left, top) = (x.saturating_sub(4), y.saturating_sub(4));
    write!(
        svg,
        "<path class=\"cross\" d=\"M{left} {top}l8 8m0 -8l-8 8\"/>"
    )
}

//! A tree as SVG.

use crate::arrangement::{Piece, PieceSearch, pieces};
use crate::block_tree::BlockTree;
use crate::geometry::{LEGEND_LINE, Layout};
use crate::legend::{MEANINGS, Meaning};
use crate::shapes::{HALF, Shape};
use crate::starts::Order;
use crate::status::Look;
use crate::view::{Fold, TreeView};
use crate::xml_text::write_escaped;
use std::alloc::{AllocError, Global};

/// How far one meaning of the legend lies behind the next in its line, in pixels.
const MEANING: usize = 420;

/// How many meanings have a line of the legend.
const IN_LINE: usize = 2;

/// The colours on a light page, and on a dark one.
const STYLE: &str = "<style>\
text{font:12px 'DejaVu Sans',Verdana,sans-serif;text-anchor:middle;fill:#1f2328;stroke:none}\
.page{fill:#ffffff;stroke:none}\
.heights,.meaning{fill:#59636e;font-size:11px}\
.pair{font-size:10px}\
.meaning{text-anchor:start}\
.line,.dotted{fill:none;stroke:#8c959f;stroke-width:1.5}\
.dotted{stroke-dasharray:2 4}\
.thick{fill:none;stroke:#1a7f37;stroke-width:6}\
.active{fill:#1a7f37;stroke:#1a7f37;stroke-width:2}\
.valid-fork{fill:#0969da;stroke:#0969da;stroke-width:2.5}\
.valid-headers{fill:#59636e;stroke:#59636e;stroke-width:2;stroke-dasharray:4 2}\
.invalid{fill:#cf222e;stroke:#cf222e;stroke-width:2.5}\
.mixed{fill:#8250df;stroke:#8250df;stroke-width:2.5;stroke-dasharray:6 2}\
.below{fill:#59636e;stroke:#59636e;stroke-width:1.5;stroke-dasharray:2 3}\
.open{fill:#ffffff}\
.cross{fill:none;stroke:#ffffff;stroke-width:2.5}\
.best{fill:none;stroke-width:2}\
.in-full{fill:#ffffff;font-size:11px}\
.in-open{font-size:11px}\
@media (prefers-color-scheme:dark){\
text{fill:#e6edf3}\
.page,.open{fill:#0d1117}\
.heights,.meaning{fill:#9198a1}\
.line,.dotted{stroke:#656c76}\
.thick{stroke:#3fb950}\
.active{fill:#3fb950;stroke:#3fb950}\
.valid-fork{fill:#58a6ff;stroke:#58a6ff}\
.valid-headers{fill:#9198a1;stroke:#9198a1}\
.invalid{fill:#f85149;stroke:#f85149}\
.mixed{fill:#ab7df8;stroke:#ab7df8}\
.below{fill:#9198a1;stroke:#9198a1}\
.open{fill:#0d1117}\
.cross{stroke:#0d1117}\
.in-full{fill:#0d1117}\
.in-open{fill:#e6edf3}\
.best{fill:none}\
}</style>\n";

/// A tree as a picture: heights from left to right, the active branch above and thick, the others below it, and what the
/// shapes mean.
pub fn to_svg(alloc: Global, tree: &BlockTree, view: &TreeView) -> Result<String, AllocError> {
    let open = PieceSearch {
        from: view.first_height(tree),
        is_folded: false,
        order: Order::MainFirst,
    };
    let finding = PieceSearch {
        is_folded: is_folded(alloc, tree, open, view.fold)?,
        ..open
    };
    let pieces = pieces(alloc, tree, finding)?;
    let layout = Layout::new(alloc, pieces.as_slice())?;
    let mut svg = String::new(alloc);
    write_tree(pieces.as_slice(), &layout, &mut svg)?;
    for (place, meaning) in MEANINGS.iter().enumerate() {
        write_meaning(place, meaning, layout.legend(), &mut svg)?;
    }
    writeln!(svg, "</svg>")?;
    Ok(svg)
}

/// Whether branches are folded: where that is left open, the picture would be large otherwise.
fn is_folded(
    alloc: Global,
    tree: &BlockTree,
    open: PieceSearch,
    fold: Fold,
) -> Result<bool, AllocError> {
    match fold {
        Fold::Always => Ok(true),
        Fold::Never => Ok(false),
        Fold::Auto => {
            let pieces = pieces(alloc, tree, open)?;
            Ok(Layout::new(alloc, pieces.as_slice())?.is_large())
        }
    }
}

/// All but the legend and the end.
fn write_tree(pieces: &[Piece<'_>], layout: &Layout, svg: &mut String) -> Result<(), AllocError> {
    write_page(layout, svg)?;
    // Lines lie below all shapes, and the active branch lies over the others.
    write_lines(pieces, layout, false, svg)?;
    write_lines(pieces, layout, true, svg)?;
    for piece in pieces {
        write_piece(piece, layout, svg)?;
    }
    Ok(())
}

/// The page that all is drawn on.
fn write_page(layout: &Layout, svg: &mut String) -> Result<(), AllocError> {
    let lines = MEANINGS.len().div_ceil(IN_LINE);
    let (width, height) = (layout.width(), layout.height(lines));
    write!(
        svg,
        "<svg xmlns=\"http://www.w3.org/2000/svg\" width=\"{width}\" height=\"{height}\" "
    )?;
    writeln!(svg, "viewBox=\"0 0 {width} {height}\" role=\"img\">")?;
    writeln!(
        svg,
        "<title>Block tree</title>\n{STYLE}<rect class=\"page\" width=\"{width}\" height=\"{height}\"/>"
    )
}

/// The lines that lead to the pieces of the active branch, or to all others.
fn write_lines(
    pieces: &[Piece<'_>],
    layout: &Layout,
    is_active: bool,
    svg: &mut String,
) -> Result<(), AllocError> {
    for piece in pieces {
        if (piece.look == Look::Active) == is_active {
            if let Some(below) = below(piece, pieces) {
                write_line(piece, below, layout, svg)?;
            }
        }
    }
    Ok(())
}

/// The piece that one is built on.
fn below<'p, 't>(piece: &Piece<'t>, pieces: &'p [Piece<'t>]) -> Option<&'p Piece<'t>> {
    pieces.get(piece.at.below?)
}

/// The line to a piece from the one below. It turns right before the piece's column, so it lies where no shape is.
fn write_line(
    piece: &Piece<'_>,
    below: &Piece<'_>,
    layout: &Layout,
    svg: &mut String,
) -> Result<(), AllocError> {
    let class = match (below.look, piece.look) {
        (Look::Stub, _) => "dotted",
        (_, Look::Active) => "thick",
        _ => "line",
    };
    let (x, y) = (layout.x(below.at.last), layout.y(below));
    let (end, bottom) = (layout.x(piece.at.first), layout.y(piece));
    write!(svg, "<path class=\"{class}\" d=\"M{x} {y}")?;
    if bottom == y {
        return writeln!(svg, "H{end}\"/>");
    }
    let turn = end.saturating_sub(layout.scale.column / 2);
    writeln!(svg, "H{turn}V{bottom}H{end}\"/>")
}

/// A piece with its names, heights, and what a pointer over it is told.
fn write_piece(piece: &Piece<'_>, layout: &Layout, svg: &mut String) -> Result<(), AllocError> {
    let word = piece.look.word();
    let (x, end) = (layout.x(piece.at.first), layout.x(piece.at.last));
    let shape = Shape {
        look: piece.look,
        is_marked: piece.is_marked,
        is_best: piece.is_best,
        count: piece.count,
        x,
        end,
        y: layout.y(piece),
        half: if end == x { layout.scale.half } else { HALF },
        is_wide: end > x || layout.scale.of_two.is_some(),
    };
    write!(svg, "<g class=\"{word}\"><title>")?;
    write_title(piece, svg)?;
    write!(svg, "</title>")?;
    shape.write(svg)?;
    write_labels(piece, &shape, layout, svg)
}

/// What a pointer over a piece is told.
fn write_title(piece: &Piece<'_>, svg: &mut String) -> Result<(), AllocError> {
    write_names(piece, usize::MAX, svg)?;
    if piece.tips > 1 {
        write!(svg, ", {} tips", piece.tips)?;
    }
    let marked = if piece.is_marked { ", marked" } else { "" };
    write!(svg, ", {}{marked}", piece.look.word())
}

/// The names above a piece, and the heights below it.
fn write_labels(
    piece: &Piece<'_>,
    shape: &Shape,
    layout: &Layout,
    svg: &mut String,
) -> Result<(), AllocError> {
    let middle = shape.x.saturating_add(shape.end) / 2;
    write_names_above(piece, shape, layout, svg)?;
    let below = shape.y.saturating_add(28);
    write!(
        svg,
        "</text><text class=\"heights\" x=\"{middle}\" y=\"{below}\">"
    )?;
    let (first, last) = (piece.first.height, piece.last.height);
    if piece.count > 1 && shape.is_wide {
        return writeln!(svg, "{first} to {last}</text></g>");
    }
    writeln!(svg, "{first}</text></g>")
}

/// The names above a piece, smaller where two stand over one column; without the second where there is no room.
fn write_names_above(
    piece: &Piece<'_>,
    shape: &Shape,
    layout: &Layout,
    svg: &mut String,
) -> Result<(), AllocError> {
    let (x, y) = (
        shape.x.saturating_add(shape.end) / 2,
        shape.y.saturating_sub(20),
    );
    let letters = layout.scale.letters;
    match layout.scale.of_two {
        _ if piece.count == 1 || shape.end > shape.x => {
            write!(svg, "<text x=\"{x}\" y=\"{y}\">")?;
            write_names(piece, letters, svg)
        }
        Some(letters) => {
            write!(svg, "<text class=\"pair\" x=\"{x}\" y=\"{y}\">")?;
            write_names(piece, letters, svg)
        }
        None => {
            write!(svg, "<text x=\"{x}\" y=\"{y}\">")?;
            write_escaped(piece.first.block.label.as_str(), letters, svg)
        }
    }
}

/// The name of a block, or the first and the last of several, of each so many letters.
fn write_names(piece: &Piece<'_>, most: usize, svg: &mut String) -> Result<(), AllocError> {
    write_escaped(piece.first.block.label.as_str(), most, svg)?;
    if piece.count > 1 {
        write!(svg, " .. ")?;
        return write_escaped(piece.last.block.label.as_str(), most, svg);
    }
    Ok(())
}

/// What the shape at a place of the legend means, which begins so far from above.
fn write_meaning(
    place: usize,
    meaning: &Meaning,
    top: usize,
    svg: &mut String,
) -> Result<(), AllocError> {
    let x = (place % IN_LINE).saturating_mul(MEANING).saturating_add(40);
    let y = top.saturating_add((place / IN_LINE).saturating_mul(LEGEND_LINE));
    let shape = Shape {
        look: meaning.look,
        is_marked: meaning.is_marked,
        is_best: meaning.is_best,
        count: meaning.count,
        x,
        end: x,
        y,
        half: 18,
        is_wide: false,
    };
    let (left, base) = (x.saturating_add(28), y.saturating_add(4));
    write!(svg, "<g class=\"{}\">", meaning.look.word())?;
    shape.write(svg)?;
    let words = meaning.words;
    writeln!(
        svg,
        "<text class=\"meaning\" x=\"{left}\" y=\"{base}\">{words}</text></g>"
    )
}

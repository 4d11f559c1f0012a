//! A tree on a terminal.

use crate::arrangement::{Piece, PieceSearch, pieces};
use crate::block_tree::BlockTree;
use crate::legend::write_legend;
use crate::starts::Order;
use crate::view::{Fold, TreeView};
use std::alloc::{AllocError, Global};

/// A tree as lines, from the lowest height on: a line for each block or run, with its shape, names, heights and status.
/// Branches beside the active one stand to the right.
pub fn to_text(alloc: Global, tree: &BlockTree, view: &TreeView) -> Result<String, AllocError> {
    let mut text = String::new(alloc);
    let finding = PieceSearch {
        from: view.first_height(tree),
        is_folded: matches!(view.fold, Fold::Always),
        order: Order::MainLast,
    };
    for piece in pieces(alloc, tree, finding)?.as_slice() {
        let (on, off) = piece.look.color(view.is_colored);
        let symbol = piece.look.symbol(piece.is_marked);
        write!(text, "{}{on}{symbol}{off} ", piece.lead)?;
        write_names(piece, &mut text)?;
        write_heights(piece, &mut text)?;
        write!(text, " {on}")?;
        write_status(piece, &mut text)?;
        writeln!(text, "{off}")?;
    }
    if view.has_legend {
        write_legend(view.is_colored, &mut text)?;
    }
    Ok(text)
}

/// The name of a piece, or the first and the last of several blocks.
fn write_names(piece: &Piece<'_>, text: &mut String) -> Result<(), AllocError> {
    write!(text, "{}", piece.first.block.label)?;
    if piece.count > 1 {
        return write!(text, " .. {}", piece.last.block.label);
    }
    Ok(())
}

fn write_heights(piece: &Piece<'_>, text: &mut String) -> Result<(), AllocError> {
    let (first, last, count) = (piece.first.height, piece.last.height, piece.count);
    if piece.tips > 1 {
        return write!(
            text,
            " ({first} to {last}, {count} blocks, {} tips)",
            piece.tips
        );
    }
    if count > 1 {
        return write!(text, " ({first} to {last}, {count} blocks)");
    }
    write!(text, " ({first})")
}

/// What is known of a piece.
fn write_status(piece: &Piece<'_>, text: &mut String) -> Result<(), AllocError> {
    let word = piece.look.word();
    let marked = if piece.is_marked { ", marked" } else { "" };
    let best = if piece.is_best { ", best" } else { "" };
    write!(text, "{word}{marked}{best}")
}

//! What the shapes and colours mean, in words.

use crate::status::Look;
use std::alloc::AllocError;

/// What a shape means.
#[derive(Clone, Copy)]
pub struct Meaning {
    pub look: Look,
    pub is_marked: bool,
    pub is_best: bool,
    /// How many blocks are drawn.
    pub count: usize,
    pub words: &'static str,
}

/// What the shapes mean.
pub const MEANINGS: [Meaning; 9] = [
    ACTIVE,
    Meaning {
        is_best: true,
        words: "best (ring): the active block",
        ..ACTIVE
    },
    Meaning {
        look: Look::ValidFork,
        words: "valid-fork (blue): found valid, on another branch",
        ..ACTIVE
    },
    Meaning {
        look: Look::ValidHeaders,
        words: "valid-headers (grey): its branch was never checked whole",
        ..ACTIVE
    },
    INVALID,
    Meaning {
        is_marked: true,
        words: "marked (cross; full in text): the lowest such block of a branch",
        ..INVALID
    },
    Meaning {
        count: 5,
        words: "bar: so many blocks of one status, drawn as one",
        ..ACTIVE
    },
    Meaning {
        look: Look::Mixed,
        count: 5,
        words: "folded (violet): a branch of blocks of more than one status",
        ..ACTIVE
    },
    Meaning {
        look: Look::Stub,
        words: "stub (dotted): the active block below on which a branch begins",
        ..ACTIVE
    },
];

const ACTIVE: Meaning = Meaning {
    look: Look::Active,
    is_marked: false,
    is_best: false,
    count: 1,
    words: "active (green, thick line): on the active branch",
};

const INVALID: Meaning = Meaning {
    look: Look::Invalid,
    words: "invalid (red): it or a block below it is marked",
    ..ACTIVE
};

/// The meanings of the shapes that a text has, a line each.
pub fn write_legend(is_colored: bool, text: &mut String) -> Result<(), AllocError> {
    for meaning in &MEANINGS {
        if !meaning.is_best && (meaning.count == 1 || meaning.look == Look::Mixed) {
            let (on, off) = meaning.look.color(is_colored);
            let symbol = meaning.look.symbol(meaning.is_marked);
            writeln!(text, "{on}{symbol}{off} {}", meaning.words)?;
        }
    }
    Ok(())
}

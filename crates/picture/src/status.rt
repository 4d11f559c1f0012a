//! What is known of a block.

/// What is known of a block (Bitcoin Core's words, as in `getchaintips`).
#[derive(Clone, Copy, PartialEq, Eq)]
pub enum BlockStatus {
    /// It is on the active branch.
    Active,
    /// It was found valid, and isn't on the active branch.
    ValidFork,
    /// Its branch was never looked at whole.
    ValidHeaders,
    /// A block of its branch is marked.
    Invalid,
}

/// What a piece of a picture looks like.
#[derive(Clone, Copy, PartialEq, Eq)]
pub(crate) enum Look {
    Active,
    ValidFork,
    ValidHeaders,
    Invalid,
    /// Blocks of more than one status.
    Mixed,
    /// An active block below what is drawn, on which a branch begins.
    Stub,
}

impl Look {
    /// That of a status, or of blocks of several.
    pub fn of(status: Option<BlockStatus>) -> Look {
        match status {
            Some(BlockStatus::Active) => Look::Active,
            Some(BlockStatus::ValidFork) => Look::ValidFork,
            Some(BlockStatus::ValidHeaders) => Look::ValidHeaders,
            Some(BlockStatus::Invalid) => Look::Invalid,
            None => Look::Mixed,
        }
    }

    /// Its word; in SVG the name of its class.
    pub fn word(self) -> &'static str {
        match self {
            Look::Active => "active",
            Look::ValidFork => "valid-fork",
            Look::ValidHeaders => "valid-headers",
            Look::Invalid => "invalid",
            Look::Mixed => "mixed",
            Look::Stub => "below",
        }
    }

    /// Its shape on a terminal.
    pub fn symbol(self, is_marked: bool) -> &'static str {
        match self {
            Look::Active => "●",
            Look::ValidFork => "○",
            Look::ValidHeaders => "□",
            Look::Invalid if is_marked => "◆",
            Look::Invalid => "◇",
            Look::Mixed => "▣",
            Look::Stub => "┊",
        }
    }

    /// What turns its colour on and off on a terminal (ECMA-48), where there are colours.
    pub fn color(self, is_colored: bool) -> (&'static str, &'static str) {
        if !is_colored {
            return ("", "");
        }
        let on = match self {
            Look::Active => "\x1b[32m",
            Look::ValidFork => "\x1b[94m",
            Look::ValidHeaders | Look::Stub => "\x1b[90m",
            Look::Invalid => "\x1b[31m",
            Look::Mixed => "\x1b[35m",
        };
        (on, "\x1b[0m")
    }
}

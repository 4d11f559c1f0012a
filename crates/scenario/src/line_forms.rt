//! How the lines of a scenario are spelled, told where one isn't.

use crate::complaint::Complaint;
use crate::fault::LineFault;
use std::alloc::Global;

/// Why a line above the first client isn't read, by its words.
pub fn no_definition(alloc: Global, words: &[&str]) -> LineFault {
    let word = words.first().copied().unwrap_or("");
    let complaint = match (definition(word), command(word)) {
        (Some(spelling), _) => Complaint::Spelling(spelling),
        (None, Some(_)) => Complaint::Below,
        (None, None) => Complaint::Unknown,
    };
    LineFault::of_word(alloc, word, complaint)
}

/// Why a line from the first client on isn't read, by its words.
pub fn no_command(alloc: Global, words: &[&str]) -> LineFault {
    let word = words.first().copied().unwrap_or("");
    let complaint = match (command(word), definition(word)) {
        (Some(spelling), _) => Complaint::Spelling(spelling),
        (None, Some(_)) => Complaint::Above,
        (None, None) => Complaint::Unknown,
    };
    LineFault::of_word(alloc, word, complaint)
}

/// How a definition is spelled that begins with this word.
fn definition(word: &str) -> Option<&'static str> {
    Some(match word {
        "tx" => "tx NAME VERSION LOCKTIME",
        "in" => "in OUTPOINT BYTES [SEQUENCE]",
        "out" => "out VALUE BYTES",
        "block" => "block NAME PARENT [OPTION ..] [TRANSACTION ..]",
        "chain" => "chain NAME COUNT PARENT",
        "verdict" => "verdict KEY SIG TRANSACTION INPUT CODE TYPE",
        _ => return None,
    })
}

/// How the line of a client or a command is spelled that begins with this word.
fn command(word: &str) -> Option<&'static str> {
    Some(match word {
        "client" => "client NAME",
        "now" => "now N",
        "submit" => "submit B",
        "each" => "each NAME FROM TO",
        "cut" => "cut B N",
        "raw" => "raw BYTES",
        "invalidate" => "invalidate B",
        "reconsider" => "reconsider B",
        "precious" => "precious B",
        "best" => "best",
        "tips" => "tips",
        "txout" => "txout OUTPUT",
        _ => return None,
    })
}

//! The options that say what is drawn of a block tree, and how.

use clap::ArgMatches;
use picture::{Fold, Part, TreeView};

/// What these options ask for.
pub fn read_view(matches: &ArgMatches<'_>, is_terminal: bool) -> TreeView {
    TreeView {
        part: part_of(matches),
        fold: match matches.get_str("fold") {
            Some("always") => Fold::Always,
            Some("never") => Fold::Never,
            _ => Fold::Auto,
        },
        is_colored: match matches.get_str("color") {
            Some("always") => true,
            Some("never") => false,
            _ => is_terminal,
        },
        has_legend: matches.get_flag("legend"),
    }
}

fn part_of(matches: &ArgMatches<'_>) -> Part {
    if let Some(height) = matches.get_one("from") {
        return Part::From(height);
    }
    match matches.get_one("last") {
        Some(count) => Part::Last(count),
        None => Part::All,
    }
}

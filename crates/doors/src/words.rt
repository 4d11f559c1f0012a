//! The words of the command line.

/// What the words ask for.
#[derive(Clone, Copy)]
pub struct Options<'w> {
    /// At whose calls the list is played.
    pub door: &'w str,
    /// The list: `-`, `random`, or the name of a scenario of the table.
    pub list: &'w str,
    settings: &'w [String],
    /// The words behind `--`.
    pub rest: &'w [String],
}

/// The heights of soft forks, four numbers parted by commas.
pub const HEIGHTS: &str = "heights";

/// What a word `NAME=NUMBER` may set beside them.
const NAMES: [&str; 22] = [
    "seed", "below", "count", "seats", "workers", "need", "in-a-row", "threads", "moved", "untold",
    "ring", "meet", "passed", "close", "each", "wanted", "looks", "writes", "errors", "skipped",
    "first", "refused",
];

impl<'w> Options<'w> {
    /// What the words say, without the program's name.
    pub fn read(words: &'w [String]) -> Option<Options<'w>> {
        let end = words.iter().position(|word| word.as_str() == "--");
        let (words, rest) = words.split_at(end.unwrap_or(words.len()));
        let [door, list, settings @ ..] = words else {
            return None;
        };
        let options = Options {
            door: door.as_str(),
            list: list.as_str(),
            settings,
            rest: rest.get(1..).unwrap_or(&[]),
        };
        options.are_known().then_some(options)
    }

    /// Whether each of the settings has a name that there is, and a number.
    fn are_known(&self) -> bool {
        self.settings.iter().all(|word| match word.as_str().split_once('=') {
            Some((HEIGHTS, _)) => true,
            Some((name, value)) => NAMES.contains(&name) && value.parse::<u64>().is_ok(),
            None => false,
        })
    }

    /// What is set under this name.
    pub fn text(&self, name: &str) -> Option<&'w str> {
        for word in self.settings {
            match word.as_str().split_once('=') {
                Some((set, value)) if set == name => return Some(value),
                _ => {}
            }
        }
        None
    }

    /// The number that is set under this name, or this one.
    pub fn number(&self, name: &str, other: u64) -> u64 {
        match self.text(name) {
            Some(value) => value.parse().unwrap_or(other),
            None => other,
        }
    }

    /// The same, of things that are counted.
    pub fn count(&self, name: &str, other: usize) -> usize {
        self.number(name, other as u64) as usize
    }

    /// Whether this is set to a number that isn't 0.
    pub fn is(&self, name: &str) -> bool {
        self.number(name, 0) != 0
    }
}

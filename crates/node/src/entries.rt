//! A seat's own entries among others.

ghost use Rattle.std.specs.Prelude.{◌≡◌, ◌≤◌, ◌++◌, ◌∷◌, [], Decides, MatchOption, length, map, take};
ghost use mathlib.Core.List.{IsPrefix};
ghost use Rattle.model.specs.History.{own_of};
ghost use Rattle.node.specs.Pass.{owed_entry};

use model::{Command, Entry};

/// Whether the entries of a seat among these are owed, and of these commands.
pub(crate) fn own_are(entries: &[Entry], number: usize, owed: &[Command]) -> bool
    ensures { Decides result (own_of number entries.now ≡ map (owed_entry number) owed.now) }
{
    let mut count = 0;
    for entry in entries {
        let Some(next) = next_own(entry, number, owed, count) else {
            return false;
        };
        count = next;
    }
    count == owed.len()
}

/// How many of the commands were met with this entry too, if it is another seat's or the next of them.
fn next_own(entry: &Entry, number: usize, owed: &[Command], count: usize) -> Option<usize>
    requires { count ≤ length owed.now }
    ensures { let before = map (owed_entry number) (take count owed.now) in
        let with = before ++ own_of number (entry.now ∷ []) in
        MatchOption result
        (IsPrefix with (map (owed_entry number) owed.now) → ⊥)
        (λ n. (n ≤ length owed.now) × (map (owed_entry number) (take n owed.now) ≡ with)) }
{
    if entry.seat != number {
        return Some(count);
    }
    if entry.reply.is_some() || !is_same_command(&entry.command, owed.get(count)?) {
        return None;
    }
    Some(count + 1)
}

/// Whether two commands are the same.
fn is_same_command(command: &Command, other: &Command) -> bool
    ensures { Decides result (command.now ≡ other.now) }
{
    match (command, other) {
        (Command::Submit(bytes, now), Command::Submit(others, then)) => {
            bytes.as_slice() == others.as_slice() && now == then
        }
        (Command::Invalidate(id), Command::Invalidate(other)) => id == other,
        (Command::Reconsider(id), Command::Reconsider(other)) => id == other,
        (Command::Precious(id), Command::Precious(other)) => id == other,
        (Command::Learn(triple, valid), Command::Learn(other, value)) => {
            triple.is(other) && valid == value
        }
        _ => false,
    }
}

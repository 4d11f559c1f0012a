//! The lines of a file, read back.

ghost use Rattle.std.specs.Prelude.{◌≡◌, ◌≢◌, ◌≤◌, ◌<◌, ◌+◌, ◌∷◌, [], ◌++◌, true, false, List, ℕ, length};
ghost use Rattle.std.specs.Prelude.{take, drop, OnOk, OnErr, MatchOption};
ghost use Rattle.durable.specs.Crash.{Synced, file_after};
ghost use Rattle.durable.specs.Lines.{lines, AreWhole, IsLine, is_spoiled, first_zero, has_whole_line};
ghost use Rattle.durable.specs.KeptSteps.{told, KeepsNow, KeepsBetween, HasFailed};
ghost use Rattle.durable.specs.Log.{file_of, IsUncut};

use crate::host::Host;

/// The whole lines at the front of a file: how many there are, and where they end.
#[derive(Clone, Copy, Debug, PartialEq, Eq)]
pub struct Found {
    pub count: u64,
    pub end: u64,
}

/// Cuts off what follows the whole lines of a file of this length, which was only opened. It may crash too.
pub fn recover<H: Host>(host: &mut H, found: Found, len: u64) -> Result<(), H::Failure>
    requires { IsUncut H.calls host.old found.count found.end len }

    ensures file { OnOk result (file_after (H.calls host.new)
        ≡ Synced (take found.end (file_of H.calls host.old))) }
    ensures told { told (H.calls host.new) ≡ told (H.calls host.old) }

    // Whatever history the file keeps, a crash at any moment leaves what keeps it.
    ensures any_moment { (history : List (List ℕ)) → KeepsNow history (H.calls host.old)
        → KeepsBetween history (H.calls host.old) (H.calls host.new) }

    ensures failed { OnErr result (HasFailed (H.calls host.new)) }
{
    if found.end < len {
        host.cut(found.end)?;
        host.sync()?;
    }
    Ok(())
}

/// Where the first zero byte is, if a whole line stands behind it.
pub fn spoiled_at(bytes: &[u8]) -> Option<u64>
    ensures { MatchOption result (is_spoiled bytes.now ≡ false)
        (λ place. (is_spoiled bytes.now ≡ true) × (place ≡ first_zero bytes.now)) }
{
    for place in 0..bytes.len() {
        if bytes[place] == 0 {
            return if has_whole_line(&bytes[place + 1..]) {
                Some(place as u64)
            } else {
                None
            };
        }
    }
    None
}

/// Whether a line is ended that began behind an end of line and has no zero byte.
fn has_whole_line(bytes: &[u8]) -> bool
    ensures { result ≡ has_whole_line false bytes.now }
{
    let mut is_begun = false;
    for place in 0..bytes.len() {
        let byte = bytes[place];
        if byte == b'\n' && is_begun {
            return true;
        }
        is_begun = is_begun_behind(is_begun, byte);
    }
    false
}

/// Whether a line without a zero byte is begun behind this byte, by whether one was before.
fn is_begun_behind(is_begun: bool, byte: u8) -> bool
    ensures zero { byte ≡ 0 → result ≡ false }
    ensures end { byte ≡ 10 → result ≡ true }
    ensures other { byte ≢ 0 → byte ≢ 10 → result ≡ is_begun }
{
    if byte == 0 {
        return false;
    }
    if byte == b'\n' {
        return true;
    }
    is_begun
}

/// The whole lines at the front of these bytes.
pub fn whole_lines(bytes: &[u8]) -> Found
    ensures count { result.count ≡ length (lines bytes.now) }
    ensures end { result.end ≤ length bytes.now }
    ensures whole { AreWhole false (take result.end bytes.now) }
    ensures rest { lines (drop result.end bytes.now) ≡ [] }
{
    let mut count = 0;
    let mut end = 0;
    let mut rest = bytes;
    while let Some(len) = line_len(rest) {
        count += 1;
        end += len as u64 + 1;
        rest = &rest[len + 1..];
    }
    Found { count, end }
}

/// The first line of a text, without its end, and the text behind it. None where the text stands for no line.
pub fn first_line(text: &[u8]) -> Option<(&[u8], &[u8])>
    ensures { MatchOption result (lines text.now ≡ [])
        (λ r. lines text.now ≡ r.0.now ∷ lines r.1.now) }
{
    let len = line_len(text)?;
    Some((&text[..len], &text[len + 1..]))
}

/// How long the first line is, without its end.
fn line_len(text: &[u8]) -> Option<usize>
    ensures { MatchOption result (lines text.now ≡ []) (λ len. (len < length text.now)
        × IsLine (take len text.now)
        × (text.now ≡ take len text.now ++ 10 ∷ drop (len + 1) text.now)) }
{
    for place in 0..text.len() {
        let byte = text[place];
        if byte == 0 {
            return None;
        }
        if byte == b'\n' {
            return Some(place);
        }
    }
    None
}

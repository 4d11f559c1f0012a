//! The lines of a table's text.

ghost use Rattle.std.specs.Prelude.{◌≡◌, ◌==◌, not, ◌<◌, ◌∷◌, [], ◌↔◌, ℕ, List, length, IsTrue, IfOk, IfErr, MatchOption};
ghost use Rattle.std.specs.List.{AllPass, position};
ghost use Rattle.signatures.specs.Triple.{Triple};
ghost use Rattle.signatures.specs.Lines.{words, is_digit, is_skipped, IsDigest, IsLineFault, StandsFor, Spells};

use crate::fault::TableFault;
use crate::triple::KeptTriple;
use hex::{FromHex, FromHexError};
use std::alloc::{AllocError, Global};

/// The triple of a table's line, or nothing where the line has no word or begins with `#`. The number is told where the
/// line can't be read.
pub fn read(alloc: Global, line: &[u8], number: usize) -> Result<Option<KeptTriple>, TableFault>
    ensures found { IfOk result (λ triple. let ws = words line.now in
        MatchOption triple (IsTrue (is_skipped ws)) (Spells ws)) }
    ensures refused { IfErr result (IsLineFault line.now number) }
{
    let unreadable = Err(TableFault::BadLine(number));
    let Some((key, rest)) = first_word(line) else {
        return Ok(None);
    };
    if key[0] == b'#' {
        return Ok(None);
    }
    let Some((signature, rest)) = first_word(rest) else {
        return unreadable;
    };
    let Some((digest, rest)) = first_word(rest) else {
        return unreadable;
    };
    if first_word(rest).is_some() {
        return unreadable;
    }
    match read_triple(alloc, key, signature, digest)? {
        Some(triple) => Ok(Some(triple)),
        None => unreadable,
    }
}

/// The triple that three words spell, if they do.
fn read_triple(
    alloc: Global,
    key: &[u8],
    signature: &[u8],
    digest: &[u8],
) -> Result<Option<KeptTriple>, AllocError>
    ensures { IfOk result (λ triple. let ws = key.now ∷ signature.now ∷ digest.now ∷ [] in
        MatchOption triple ((t : Triple) → ¬ Spells ws t) (Spells ws)) }
{
    let Some(digest) = read_digest(digest) else {
        return Ok(None);
    };
    let Some(key) = read_bytes(alloc, key)? else {
        return Ok(None);
    };
    let Some(signature) = read_bytes(alloc, signature)? else {
        return Ok(None);
    };
    let (key, signature) = (key.as_slice(), signature.as_slice());
    Ok(Some(KeptTriple::from_parts(alloc, key, signature, &digest)?))
}

/// The first word of a line, and what follows it.
fn first_word(line: &[u8]) -> Option<(&[u8], &[u8])>
    ensures { MatchOption result (words line.now ≡ [])
        (λ parts. (0 < length parts.0.now) × (words line.now ≡ parts.0.now ∷ words parts.1.now)) }
{
    let line = &line[word_start(line)?..];
    let end = word_end(line).unwrap_or(line.len());
    Some(line.split_at(end))
}

/// The place of the first byte that is no space.
fn word_start(line: &[u8]) -> Option<usize>
    ensures { result ≡ position (λ byte. not (byte == 32)) line.now }
{
    line.iter().position(|byte| *byte != b' ')
}

/// The place of the first space.
fn word_end(line: &[u8]) -> Option<usize>
    ensures { result ≡ position (λ byte. byte == 32) line.now }
{
    line.iter().position(|byte| *byte == b' ')
}

/// The bytes that a word spells, if it spells some.
fn read_bytes(alloc: Global, word: &[u8]) -> Result<Option<Vec<u8>>, AllocError>
    ensures { IfOk result (λ read. MatchOption read
        ((bytes : List ℕ) → ¬ StandsFor word.now bytes) (λ v. StandsFor word.now v.items)) }
{
    if matches!(word, b"-") {
        return Ok(Some(Vec::new(alloc)));
    }
    if !is_lower_hex(word) {
        return Ok(None);
    }
    match hex::decode(alloc, word) {
        Ok(bytes) => Ok(Some(bytes)),
        Err(FromHexError::OutOfMemory) => Err(AllocError),
        Err(_) => Ok(None),
    }
}

/// The digest that a word of 64 digits spells.
fn read_digest(word: &[u8]) -> Option<[u8; 32]>
    ensures { MatchOption result ((digest : List ℕ) → ¬ IsDigest word.now digest)
        (IsDigest word.now) }
{
    if !is_lower_hex(word) {
        return None;
    }
    <[u8; 32]>::from_hex(word).ok()
}

/// Whether a word has lower-case digits alone.
fn is_lower_hex(word: &[u8]) -> bool
    ensures { IsTrue result ↔ AllPass is_digit word.now }
{
    word.iter()
        .all(|digit| matches!(*digit, b'0'..=b'9' | b'a'..=b'f'))
}

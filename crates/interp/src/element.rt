//! The elements of the stacks.

ghost use Rattle.std.specs.Prelude.{◌≡◌, ℕ, List, min, IfOk};
ghost use Rattle.script.specs.Num.{shortest_bytes};
ghost use Rattle.interp.specs.Elements.{truth, truth_bytes, natural_of};

use script::Num;
use std::alloc::Global;
use std::marker::Model;
use wire::Memory;

/// A string of bytes on a stack.
#[derive(Drop)]
pub struct Element {
    bytes: Vec<u8>,
}

impl Model for Element {
    ghost Value = { List ℕ };

    ghost view = { λ e. e.bytes.items };
}

impl Element {
    pub fn from_vec(bytes: Vec<u8>) -> Element
        ensures { result ≡ bytes.items }
    {
        Element { bytes }
    }

    pub fn from_slice(alloc: Global, bytes: &[u8]) -> Result<Element, Memory>
        ensures { IfOk result (λ e. e ≡ bytes.now) }
    {
        Ok(Element {
            bytes: Vec::from_slice(alloc, bytes)?,
        })
    }

    /// The shortest spelling of a number.
    pub fn from_number(alloc: Global, z: i64) -> Result<Element, Memory>
        ensures { IfOk result (λ e. e ≡ shortest_bytes z) }
    {
        Ok(Element {
            bytes: Num(z).spell(alloc)?,
        })
    }

    /// The byte 01 for true, no byte for false.
    pub fn from_truth(alloc: Global, truth: bool) -> Result<Element, Memory>
        ensures { IfOk result (λ e. e ≡ truth_bytes truth) }
    {
        if truth {
            Element::from_slice(alloc, &[1])
        } else {
            Element::from_slice(alloc, &[])
        }
    }

    /// An equal element.
    pub fn copy(&self, alloc: Global) -> Result<Element, Memory>
        ensures { IfOk result (λ e. e ≡ self.now) }
    {
        Element::from_slice(alloc, self.bytes.as_slice())
    }

    pub fn as_slice(&self) -> &[u8]
        ensures { result.now ≡ self.now }
    {
        self.bytes.as_slice()
    }

    /// Whether some byte isn't 0, but for a last one of 80.
    pub fn is_true(&self) -> bool
        ensures { result ≡ truth self.now }
    {
        is_true(self.bytes.as_slice())
    }
}

fn is_true(bytes: &[u8]) -> bool
    ensures { result ≡ truth bytes.now }
{
    for i in 0..bytes.len() {
        if bytes[i] != 0 {
            return i + 1 < bytes.len() || bytes[i] != 0x80;
        }
    }
    false
}

/// The number of at most so many bytes, and of at most 8, unless it is negative.
pub fn natural(bytes: &[u8], most: usize) -> Option<u64>
    ensures { result ≡ natural_of (min most 8) bytes.now }
{
    let Num(z) = Num::read(bytes, most)?;
    if z < 0 {
        return None;
    }
    Some(z.unsigned_abs())
}

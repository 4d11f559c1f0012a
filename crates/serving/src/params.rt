//! The parameters of a request.

ghost use Rattle.std.specs.Prelude.{◌≡◌, ◌⊎◌, ℕ, List, Option, option_map, IfOk, IfErr, OnOk};
ghost use Rattle.std.specs.List.{All};
ghost use Rattle.signatures.specs.Lines.{lines, IsFaultOf, IsReadable};
ghost use Rattle.json.specs.Value.{value_view};
ghost use Rattle.hash.specs.declared.id.Id.{Id as AnyId};
ghost use Rattle.txn.specs.declared.outpoint.OutPoint.{OutPoint as AnyOutPoint};
ghost use Rattle.serving.specs.Requests.{param, IsNumber, IsSeat, IsId, IsAbove, AreBytes, AreLines, AreOutPoint};
ghost use Rattle.serving.specs.inside.Given.{given, IsParam};
ghost use Rattle.serving.specs.declared.refusal.Refusal.TheVariants as refusals;

use crate::refusal::Refusal;
use hash::Id;
use hex::FromHexError;
use json::Value;
use signatures::{TableFault, read_line};
use std::alloc::Global;
use txn::OutPoint;

/// The parameters of a request, by their names; where there are none, no name is found.
#[derive(Clone, Copy)]
pub(crate) struct Params<'p, 'l>(pub(crate) Option<&'p Value<'l>>);

impl<'p, 'l> Params<'p, 'l> {
    fn get(&self, name: &str) -> Option<&'p Value<'l>>
        ensures { option_map (λ v. value_view v.now) result ≡ param name.now (given self.now) }
    {
        self.0?.get(name)
    }

    /// A number of 64 bits.
    pub(crate) fn number(&self, name: &'static str) -> Result<u64, Refusal>
        ensures ok { IfOk result (λ n. IsNumber name.now (given self.now) n) }
        ensures err { IfErr result (λ why. (why ≡ refusals.Param name.entry)
            × ((n : ℕ) → ¬ IsNumber name.now (given self.now) n)) }
    {
        let found = self.get(name).ok_or(Refusal::Param(name))?;
        found.as_u64().ok_or(Refusal::Param(name))
    }

    /// The number of one of so many seats.
    pub(crate) fn seat(&self, name: &'static str, seats: usize) -> Result<usize, Refusal>
        ensures ok { IfOk result (λ n. IsSeat seats name.now (given self.now) n) }
        ensures err { IfErr result (λ why. (why ≡ refusals.Param name.entry)
            × ((n : ℕ) → ¬ IsSeat seats name.now (given self.now) n)) }
    {
        match self.number(name) {
            Ok(number) if number < seats as u64 => Ok(number as usize),
            Ok(_) => Err(Refusal::Param(name)),
            Err(refusal) => Err(refusal),
        }
    }

    /// An id in 64 hexadecimal digits, as it is printed.
    pub(crate) fn id(&self, name: &'static str) -> Result<Id, Refusal>
        ensures ok { IfOk result (λ id. IsId name.now (given self.now) id) }
        ensures err { IfErr result (λ why. (why ≡ refusals.Param name.entry)
            × ((id : AnyId) → ¬ IsId name.now (given self.now) id)) }
    {
        let found = self.get(name).ok_or(Refusal::Param(name))?;
        let digits = found.as_str().ok_or(Refusal::Param(name))?;
        match Id::read(digits.as_bytes()) {
            Some(id) => Ok(id),
            None => Err(Refusal::Param(name)),
        }
    }

    /// Bytes in hexadecimal digits.
    pub(crate) fn bytes(&self, alloc: Global, name: &'static str) -> Result<Vec<u8>, Refusal>
        ensures ok { IfOk result (λ bytes. AreBytes name.now (given self.now) bytes.items) }
        ensures err { IfErr result (λ why. (why ≡ refusals.Memory)
            ⊎ ((why ≡ refusals.Param name.entry)
            × ((bytes : List ℕ) → ¬ AreBytes name.now (given self.now) bytes))) }
    {
        let found = self.get(name).ok_or(Refusal::Param(name))?;
        let digits = found.as_str().ok_or(Refusal::Param(name))?;
        match hex::decode(alloc, digits) {
            Ok(bytes) => Ok(bytes),
            Err(FromHexError::OutOfMemory) => Err(Refusal::Memory),
            Err(_) => Err(Refusal::Param(name)),
        }
    }

    /// A text each of whose lines can be read as one of a table.
    pub(crate) fn lines(&self, alloc: Global, name: &'static str) -> Result<Vec<u8>, Refusal>
        ensures ok { IfOk result (λ text. AreLines name.now (given self.now) text.items) }
        ensures err { IfErr result (λ why. (why ≡ refusals.Memory)
            ⊎ ((why ≡ refusals.Param name.entry)
            × ((text : List ℕ) → ¬ AreLines name.now (given self.now) text))) }
    {
        let found = self.get(name).ok_or(Refusal::Param(name))?;
        let text = found.as_str().ok_or(Refusal::Param(name))?;
        match check_lines(alloc, text.as_bytes()) {
            Ok(()) => match Vec::from_slice(alloc, text.as_bytes()) {
                Ok(bytes) => Ok(bytes),
                Err(_) => Err(Refusal::Memory),
            },
            Err(TableFault::Memory) => Err(Refusal::Memory),
            Err(TableFault::BadLine(_)) => Err(Refusal::Param(name)),
        }
    }

    /// An outpoint: a transaction's id, and the place of an output in it, from 0.
    pub(crate) fn outpoint(&self) -> Result<OutPoint, Refusal>
        ensures ok { IfOk result (λ o. AreOutPoint (given self.now) o) }
        ensures err { IfErr result (λ why. IsParam why
            × ((o : AnyOutPoint) → ¬ AreOutPoint (given self.now) o)) }
    {
        let id = match self.id("txid") {
            Ok(id) => id,
            Err(refusal) => return Err(refusal),
        };
        match self.number("n") {
            Ok(place) if place <= u64::from(u32::MAX) => Ok(OutPoint {
                id,
                index: place as u32,
            }),
            Ok(_) => Err(Refusal::Param("n")),
            Err(refusal) => Err(refusal),
        }
    }

    /// An outpoint, where a transaction is named.
    pub(crate) fn above(&self) -> Result<Option<OutPoint>, Refusal>
        ensures ok { IfOk result (λ above. IsAbove (given self.now) above) }
        ensures err { IfErr result (λ why. IsParam why
            × ((o : Option AnyOutPoint) → ¬ IsAbove (given self.now) o)) }
    {
        if self.get("txid").is_none() {
            return Ok(None);
        }
        match self.outpoint() {
            Ok(outpoint) => Ok(Some(outpoint)),
            Err(refusal) => Err(refusal),
        }
    }
}

/// Checks that each line of a text can be read as a line of a table. It makes no table, since the node takes the lines one by one.
fn check_lines(alloc: Global, text: &[u8]) -> Result<(), TableFault>
    ensures readable { OnOk result (All IsReadable (lines text.now)) }
    ensures refused { IfErr result (IsFaultOf (lines text.now)) }
{
    let mut number = 0;
    for line in text.split(|byte| *byte == b'\n') {
        number += 1;
        read_line(alloc, line, number)?;
    }
    Ok(())
}

//! Scripts.

ghost use Rattle.std.specs.Prelude.{◌≡◌, ◌↔◌, ◌≤◌, [], take, length, Decides, IfOk, IsTrue};

use std::alloc::{AllocError, Global};
use std::fmt;
use std::marker::Model;

/// How many bytes stand in place (Bitcoin Core's `prevector`): a script that pays to the hash of a key has 25.
const IN_PLACE: usize = 28;

/// A script, as its bytes. One of at most 28 takes no memory beside its own place.
#[derive(Drop)]
pub struct Script {
    stored: Stored,
}

/// Where the bytes of a script stand.
#[derive(Drop)]
enum Stored {
    InPlace(Short),
    Apart(Vec<u8>),
}

/// The bytes of a short script, with zeros behind them.
#[derive(Clone, Copy)]
struct Short {
    bytes: [u8; IN_PLACE],
    len: u8,
    ghost inside: { len ≤ 28 },
}

impl Short {
    /// These bytes.
    fn of(bytes: &[u8]) -> Short
        requires { length bytes.now ≤ 28 }
        ensures { take result.len result.bytes ≡ bytes.now }
    {
        let mut place = [0; IN_PLACE];
        place[..bytes.len()].copy_from_slice(bytes);
        Short {
            bytes: place,
            len: bytes.len() as u8,
        }
    }

    fn as_slice(&self) -> &[u8]
        ensures { result.now ≡ take self.now.len self.now.bytes }
    {
        &self.bytes[..usize::from(self.len)]
    }
}

impl Model for Script {
    ghost use Rattle.std.specs.Prelude.{List, ℕ};
    ghost use Rattle.txn.specs.inside.ScriptBytes.{bytes_of};

    ghost Value = { List ℕ };

    ghost view = { λ s. bytes_of s.stored };
}

// A clone is the same value, which a type that contains scripts can build on.
impl Clone for Script {
    ghost is_clone = { λ old new. new ≡ old };

    fn clone(&self) -> Result<Script, AllocError> {
        let stored = match &self.stored {
            Stored::InPlace(short) => Stored::InPlace(*short),
            Stored::Apart(bytes) => Stored::Apart(bytes.clone()?),
        };
        Ok(Script { stored })
    }
}

impl fmt::Debug for Script {
    fn fmt<W: fmt::Write>(&self, f: &mut fmt::Formatter<W>) -> fmt::Result {
        self.as_slice().fmt(f)
    }
}

impl PartialEq for Script {
    ghost use Rattle.std.specs.Cmp.{decided, partial_equiv_from_equiv};
    ghost use Rattle.txn.specs.Equality.{same_script};
    ghost use Rattle.txn.specs.laws.Equality.{same_script-decides};

    ghost eq = { same_script };

    ghost laws = { partial_equiv_from_equiv (decided same_script same_script-decides) };

    fn eq(&self, other: &Script) -> bool
        ensures bytes { result ≡ same_script self.now other.now }
        ensures equal { IsTrue result ↔ (self.now ≡ other.now) }
    {
        self.as_slice() == other.as_slice()
    }
}

impl Eq for Script {
    ghost use Rattle.std.specs.Cmp.{decided};
    ghost use Rattle.txn.specs.Equality.{same_script};
    ghost use Rattle.txn.specs.laws.Equality.{same_script-decides};

    ghost laws = { decided same_script same_script-decides };
}

impl Script {
    /// The script of these bytes, copied.
    pub fn from_slice(alloc: Global, bytes: &[u8]) -> Result<Script, AllocError>
        ensures { IfOk result (λ script. script ≡ bytes.now) }
    {
        let stored = if bytes.len() <= IN_PLACE {
            Stored::InPlace(Short::of(bytes))
        } else {
            Stored::Apart(Vec::from_slice(alloc, bytes)?)
        };
        Ok(Script { stored })
    }

    /// The script of these bytes, which takes no memory.
    pub fn from_vec(bytes: Vec<u8>) -> Script
        ensures { result ≡ bytes.items }
    {
        let stored = if bytes.len() <= IN_PLACE {
            Stored::InPlace(Short::of(bytes.as_slice()))
        } else {
            Stored::Apart(bytes)
        };
        Script { stored }
    }

    /// The bytes, lent.
    pub fn as_slice(&self) -> &[u8]
        ensures { result.now ≡ self.now }
    {
        match &self.stored {
            Stored::InPlace(short) => short.as_slice(),
            Stored::Apart(bytes) => bytes.as_slice(),
        }
    }

    /// How many bytes there are.
    pub fn len(&self) -> usize
        ensures { result ≡ length self.now }
    {
        self.as_slice().len()
    }

    /// Whether there is none.
    pub fn is_empty(&self) -> bool
        ensures { IsTrue result ↔ (self.now ≡ []) }
    {
        self.as_slice().is_empty()
    }
}

//! What a replay says of a journal.

ghost use Rattle.std.specs.Prelude.{◌≡◌, ℕ, ◌≤◌};
ghost use Rattle.journal.specs.declared.audit.Finding.TheVariants as findings;

use std::fmt;

/// What a replay says of a journal.
#[derive(Clone, Copy, Debug, PartialEq, Eq)]
pub enum Finding {
    Agrees,
    /// The reply of this line, counted from 1, is the first that differs.
    Differs(usize),
}

impl Finding {
    /// The status with which an audit ends.
    pub fn status(self) -> u8
        ensures bound { result ≤ 1 }
        ensures agrees { self ≡ findings.Agrees → result ≡ 0 }
        ensures differs { (line : ℕ) → self ≡ findings.Differs line → result ≡ 1 }
    {
        match self {
            Finding::Agrees => 0,
            Finding::Differs(_) => 1,
        }
    }
}

impl fmt::Display for Finding {
    ghost use Rattle.std.specs.Prelude.{Some};
    ghost use Rattle.journal.specs.Found.{text_of_finding};

    ghost output = { λ finding. Some (text_of_finding finding) };

    fn fmt<W: fmt::Write>(&self, f: &mut fmt::Formatter<W>) -> fmt::Result {
        match self {
            Finding::Agrees => f.write_str("agrees\n"),
            Finding::Differs(line) => writeln!(f, "line {line}"),
        }
    }
}

//! From which heights the rules of soft forks are in force.

ghost use Rattle.std.specs.Prelude.{◌≡◌};
ghost use Rattle.rules.specs.Params.{at, height_of, in_force, of_heights, regtest, with_height};

use crate::deployment::Deployment;
use crate::in_force::InForce;

/// For each soft fork the height from which its rules are in force (Bitcoin Core's `Consensus::Params`, its
/// `BIP34Height` and the others).
///
/// A rule is in force for a block whose height is at least the number; none is never. The rules of BIPs 16 and 30 are
/// in force at every height. The four heights by themselves are [`Params::of_heights`]; as a literal they need the
/// others too: `Params { bip34, bip65, bip66, csv, ..Params::regtest() }`.
#[derive(Clone, Copy, Debug, PartialEq, Eq)]
pub struct Params {
    pub bip34: u32,
    pub bip65: u32,
    pub bip66: u32,
    /// BIPs 68, 112 and 113.
    pub csv: u32,
    /// BIP 147.
    pub nulldummy: Option<u32>,
}

impl Params {
    /// Regtest's: BIPs 34, 65, 66, 68, 112 and 113 from height 1 on, and no other.
    pub fn regtest() -> Params
        ensures { result ≡ regtest }
    {
        Params::of_heights(1, 1, 1, 1)
    }

    /// These heights of BIP 34, BIP 65, BIP 66 and of BIPs 68, 112 and 113; no other soft fork is ever in force.
    pub fn of_heights(bip34: u32, bip65: u32, bip66: u32, csv: u32) -> Params
        ensures { result ≡ of_heights bip34 bip65 bip66 csv }
    {
        Params {
            bip34,
            bip65,
            bip66,
            csv,
            nulldummy: None,
        }
    }

    /// The same, but with this height of one soft fork.
    pub fn with(self, deployment: Deployment, height: u32) -> Params
        ensures { result ≡ with_height self deployment height }
    {
        let mut params = self;
        match deployment {
            Deployment::Bip34 => params.bip34 = height,
            Deployment::Bip65 => params.bip65 = height,
            Deployment::Bip66 => params.bip66 = height,
            Deployment::Csv => params.csv = height,
            Deployment::NullDummy => params.nulldummy = Some(height),
        }
        params
    }

    /// From which height on a soft fork's rules are in force, or none where they never are (Bitcoin Core's
    /// `DeploymentHeight`).
    pub fn height(&self, deployment: Deployment) -> Option<u32>
        ensures { result ≡ height_of self.now deployment }
    {
        match deployment {
            Deployment::Bip34 => Some(self.bip34),
            Deployment::Bip65 => Some(self.bip65),
            Deployment::Bip66 => Some(self.bip66),
            Deployment::Csv => Some(self.csv),
            Deployment::NullDummy => self.nulldummy,
        }
    }

    /// Whether a soft fork's rules are in force for a block at this height (Bitcoin Core's `DeploymentActiveAt`).
    pub fn in_force(&self, height: u32, deployment: Deployment) -> bool
        ensures { result ≡ in_force self.now height deployment }
    {
        match self.height(deployment) {
            Some(from) => height >= from,
            None => false,
        }
    }

    /// The rules in force for a block at this height.
    pub fn at(&self, height: u32) -> InForce
        ensures { result ≡ at self.now height }
    {
        InForce {
            bip34: self.in_force(height, Deployment::Bip34),
            bip65: self.in_force(height, Deployment::Bip65),
            bip66: self.in_force(height, Deployment::Bip66),
            csv: self.in_force(height, Deployment::Csv),
            nulldummy: self.in_force(height, Deployment::NullDummy),
        }
    }
}

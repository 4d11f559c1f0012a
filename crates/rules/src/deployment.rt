//! Soft forks by name.

ghost use Rattle.std.specs.Prelude.{◌≡◌};
ghost use Rattle.rules.specs.Deployment.{deployment_named, name_of};

/// A soft fork whose rules are in force from a height on (Bitcoin Core's `Consensus::BuriedDeployment`).
///
/// A further one is a row here, in [`Params`](crate::Params) and in [`InForce`](crate::InForce).
#[derive(Clone, Copy, Debug, PartialEq, Eq)]
pub enum Deployment {
    /// The height in the coinbase (BIP 34).
    Bip34,
    /// CHECKLOCKTIMEVERIFY (BIP 65).
    Bip65,
    /// Strictly encoded signatures (BIP 66).
    Bip66,
    /// Relative locks, CHECKSEQUENCEVERIFY and the median time past for finality (BIPs 68, 112 and 113).
    Csv,
    /// An empty extra element for CHECKMULTISIG (BIP 147).
    NullDummy,
}

impl Deployment {
    /// The name by which a setting is printed.
    pub fn name(self) -> &'static str
        ensures { result.now ≡ name_of self }
    {
        match self {
            Deployment::Bip34 => "bip34",
            Deployment::Bip65 => "bip65",
            Deployment::Bip66 => "bip66",
            Deployment::Csv => "csv",
            Deployment::NullDummy => "nulldummy",
        }
    }

    /// The one that has this name, or the one that Bitcoin Core's `-testactivationheight` gives it (`cltv` for BIP 65,
    /// `dersig` for BIP 66), or the BIP's number (`bip147`).
    pub fn named(name: &str) -> Option<Deployment>
        ensures { result ≡ deployment_named name.now }
    {
        Some(match name {
            "bip34" => Deployment::Bip34,
            "bip65" | "cltv" => Deployment::Bip65,
            "bip66" | "dersig" => Deployment::Bip66,
            "csv" => Deployment::Csv,
            "nulldummy" | "bip147" => Deployment::NullDummy,
            _ => return None,
        })
    }
}

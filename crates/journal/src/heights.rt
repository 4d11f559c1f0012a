//! The heights of soft forks, as a word of the command line gives them.

ghost use Rattle.std.specs.Prelude.{◌≡◌, ◌++◌, ◌∷◌, ℕ, List, IfSome, MatchOption, Some};
ghost use Rattle.journal.specs.Heights.{IsNumber, IsNamed, IsSpelling};
ghost use Rattle.journal.specs.inside.HeightSets.{AreSets};
ghost use Rattle.rules.specs.declared.deployment.Deployment.{Deployment};
ghost use Rattle.rules.specs.declared.params.Params.{Params};
ghost use Rattle.rules.specs.Params.{with_height};

use rules::{Deployment, Params};

/// The heights of BIP 34, BIP 65, BIP 66 and of BIPs 68, 112 and 113, as four decimal numbers of 32 bits, and behind them
/// further soft forks as `NAME@HEIGHT` ([`Deployment::named`], as in Bitcoin Core's `-testactivationheight`), all parted by
/// commas. A soft fork that isn't named is never in force. None where the word is anything else.
pub fn read_heights(word: &str) -> Option<Params>
    ensures spelled { IfSome result (IsSpelling word.now) }
    ensures reads { (heights : Params) → IsSpelling word.now heights → result ≡ Some heights }
{
    let (bip34, rest) = front_height(word)?;
    let (bip65, rest) = front_height(rest)?;
    let (bip66, rest) = front_height(rest)?;
    let Some((csv, others)) = rest.split_once(',') else {
        let csv = height(rest)?;
        return Some(Params::of_heights(bip34, bip65, bip66, csv));
    };
    let csv = height(csv)?;
    set_each(Params::of_heights(bip34, bip65, bip66, csv), others)
}

/// The heights with those that a text sets by name, parted by commas.
fn set_each(before: Params, text: &str) -> Option<Params>
    ensures spelled { IfSome result (AreSets text.now before) }
    ensures reads { (after : Params) → AreSets text.now before after → result ≡ Some after }
{
    let mut params = before;
    let mut rest = text;
    while let Some((front, behind)) = rest.split_once(',') {
        params = set_one(params, front)?;
        rest = behind;
    }
    set_one(params, rest)
}

/// The heights with the one that `NAME@HEIGHT` sets.
fn set_one(before: Params, text: &str) -> Option<Params>
    ensures spelled { IfSome result (λ after. (deployment : Deployment) × (n : ℕ)
        × IsNamed text.now deployment n × (with_height before deployment n ≡ after)) }
    ensures reads { (deployment : Deployment) (n : ℕ) → IsNamed text.now deployment n
        → result ≡ Some (with_height before deployment n) }
{
    let (name, digits) = text.split_once('@')?;
    let deployment = Deployment::named(name)?;
    let n = height(digits)?;
    Some(before.with(deployment, n))
}

/// The height before the first comma, and the text behind it.
fn front_height(word: &str) -> Option<(u32, &str)>
    ensures spelled { IfSome result (λ found. (digits : List ℕ)
        × (word.now ≡ digits ++ 0x2c ∷ found.1.now) × IsNumber digits found.0) }
    ensures reads { (digits rest : List ℕ) (n : ℕ)
        → word.now ≡ digits ++ 0x2c ∷ rest → IsNumber digits n
        → MatchOption result ⊥ (λ found. (found.0 ≡ n) × (found.1.now ≡ rest)) }
{
    let (front, rest) = word.split_once(',')?;
    Some((height(front)?, rest))
}

fn height(word: &str) -> Option<u32>
    ensures spelled { IfSome result (IsNumber word.now) }
    ensures reads { (n : ℕ) → IsNumber word.now n → result ≡ Some n }
{
    // `parse` reads a sign too.
    if word.starts_with('+') {
        return None;
    }
    word.parse().ok()
}

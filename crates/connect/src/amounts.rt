//! What a transaction spends and pays, in satoshis.

ghost use Rattle.std.specs.Prelude.{◌≡◌, ◌≤◌, ◌^◌, ◌≤ℤ◌, neg_ℤ, pos, length};
ghost use Rattle.txn.specs.Check.{total};
ghost use Rattle.coins.specs.Coins.{sum_of_values};

use coins::Coin;
use txn::TxOut;

/// What coins are worth.
pub(crate) fn worth(coins: &[Coin]) -> i128
    requires { length coins.now ≤ 1000000 }
    ensures sum { result ≡ sum_of_values coins.now }
    ensures low { neg_ℤ (pos (2 ^ 83)) ≤ℤ result }
    ensures high { result ≤ℤ pos (2 ^ 83) }
{
    let mut sum = 0;
    for coin in coins {
        sum += i128::from(coin.value);
    }
    sum
}

/// What outputs are worth.
pub(crate) fn paid(outputs: &[TxOut]) -> i128
    requires { length outputs.now ≤ 1000000 }
    ensures sum { result ≡ total outputs.now }
    ensures low { neg_ℤ (pos (2 ^ 83)) ≤ℤ result }
    ensures high { result ≤ℤ pos (2 ^ 83) }
{
    let mut sum = 0;
    for output in outputs {
        sum += i128::from(output.value);
    }
    sum
}

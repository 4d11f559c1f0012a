//! Coins without their scripts.

ghost use Rattle.std.specs.Prelude.{◌≡◌};
ghost use Rattle.undo.specs.inside.PackedCoins.{head_of};

use coins::Coin;

/// A coin without its script, of which it has the length.
#[derive(Clone, Copy, Debug)]
pub(crate) struct CoinHead {
    pub(crate) value: i64,
    pub(crate) script_len: usize,
    pub(crate) height: u32,
    pub(crate) coinbase: bool,
}

impl CoinHead {
    pub(crate) fn of(coin: &Coin) -> CoinHead
        ensures { result ≡ head_of coin.now }
    {
        CoinHead {
            value: coin.value,
            script_len: coin.script.len(),
            height: coin.height,
            coinbase: coin.coinbase,
        }
    }
}

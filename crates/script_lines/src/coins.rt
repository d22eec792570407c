//! The coins of a `node` line.
ghost use Rattle.std.specs.Prelude.{◌≡◌, ◌^◌, ◌≤◌, length, true};
ghost use Rattle.std.specs.List.{list_all};
ghost use Rattle.script_lines.specs.Coins.{is_coin, are_coins, coin_word};

/// Whether each character is a coin.
fn all_coins(text: &[u8]) -> bool
    ensures { result ≡ list_all is_coin text.now }
{
    text.iter().all(|c| *c == b'0' || *c == b'1')
}

/// Whether a word is 1 to 64 coins.
pub(crate) fn are_coins(text: &[u8]) -> bool
    ensures { result ≡ are_coins text.now }
{
    !text.is_empty() && text.len() <= 64 && all_coins(text)
}

/// The number that has this one bit.
fn weight(place: usize) -> u64
    requires { place ≤ 63 }
    ensures { result ≡ 2 ^ place }
{
    1 << place
}

/// The number that has coin k as its bit k.
pub(crate) fn coin_word(coins: &[u8]) -> u64
    requires few { length coins.now ≤ 64 }
    requires coins { list_all is_coin coins.now ≡ true }
    ensures { result ≡ coin_word coins.now }
{
    let mut word = 0u64;
    for (i, coin) in coins.iter().enumerate() {
        if *coin == b'1' {
            word += weight(i);
        }
    }
    word
}

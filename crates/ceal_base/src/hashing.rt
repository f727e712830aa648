// Numbers of which hashes are made.

ghost use Rattle.std.specs.Prelude.{◌≡◌};
ghost use Rattle.ceal_base.specs.Hashing.{mixed as one_more, scrambled};

/// One more number after a digest. Values of a program are hashed, and it chooses them: a digest that is a sum of
/// products gives keys by a product one hash, and this one does not (the finaliser of SplitMix64).
pub fn mixed(digest: u64, number: u64) -> u64
    ensures mixed { result ≡ one_more digest number }
{
    scrambled(digest.wrapping_add(number))
}

// Products between shifts, so that each bit has its say in all others.
fn scrambled(number: u64) -> u64
    ensures scrambled { result ≡ scrambled number }
{
    let first = (number ^ (number >> 30)).wrapping_mul(13_787_848_793_156_543_929);
    let second = (first ^ (first >> 27)).wrapping_mul(10_723_151_780_598_845_931);
    second ^ (second >> 31)
}

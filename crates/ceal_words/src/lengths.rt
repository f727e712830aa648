// Lengths round up to powers of two.

ghost use Rattle.std.specs.Prelude.{◌≡◌, ◌<◌, ◌≤◌, ◌^◌};
ghost use Rattle.ceal_words.specs.Lengths.{size_class, RoundsTo};

pub(crate) const CLASSES: u32 = 17;

pub(crate) fn size_class(len: u32) -> u32
    requires { (1 ≤ len) × (len ≤ 65536) }
    ensures value { result ≡ size_class len }
    ensures small { result < 17 }
    ensures rounds { RoundsTo len (2 ^ result) }
{
    32 - (len - 1).leading_zeros()
}

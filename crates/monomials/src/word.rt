//! Lanes: four numbers of 16 bits in a word, of which monomials leave the top bit free.

ghost use Rattle.std.proofs.Math.ListN.{set};
ghost use Rattle.std.specs.Prelude.{◌≡◌, ◌+◌, ◌-◌, ◌≤◌, ◌<◌, ◌^◌, max, sum, slice_index, length, ℕ, [], ◌∷◌};
ghost use Rattle.monomials.specs.Monomials.{divides, zip_with};
ghost use Rattle.monomials.specs.Words.{lanes, joined, spread, AreSmall};

// The top bit of each lane, which no exponent has.
const TOPS: u64 = 0x8000_8000_8000_8000;

// Whether each lane is at most the other's.
pub(crate) fn lanes_divide(x: u64, y: u64) -> bool
    requires left { AreSmall (lanes 4 x) }
    requires right { AreSmall (lanes 4 y) }
    ensures { result ≡ divides (lanes 4 x) (lanes 4 y) }
{
    ((y + TOPS - x) & TOPS) == TOPS
}

// The greater lanes.
pub(crate) fn greater_lanes(x: u64, y: u64) -> u64
    requires left { AreSmall (lanes 4 x) }
    requires right { AreSmall (lanes 4 y) }
    ensures below { result < 2 ^ 64 }
    ensures value { lanes 4 result ≡ zip_with (λ a b. max a b) (lanes 4 x) (lanes 4 y) }
{
    let gaps = y + TOPS - x;
    let tops = gaps & TOPS;
    x + (gaps & (tops - (tops >> 15)))
}

// One lane.
pub(crate) fn lane(x: u64, place: u8) -> u16
    requires { place < 4 }
    ensures { result ≡ slice_index (lanes 4 x) place }
{
    ((x >> (16 * u32::from(place))) & 0xffff) as u16
}

// The sum of all lanes.
pub(crate) fn total(words: &[u64; 4]) -> u16
    requires { sum (spread words.now) ≤ 32767 }
    ensures { result ≡ sum (spread words.now) }
{
    ((words[0] + words[1] + words[2] + words[3]) % 65535) as u16
}

// The word with this in one lane, and zero in the others.
pub(crate) fn at_lane(x: u16, place: u8) -> u64
    requires { place < 4 }
    ensures below { result < 2 ^ 64 }
    ensures value { lanes 4 result ≡ set (0 ∷ 0 ∷ 0 ∷ 0 ∷ []) place x }
{
    u64::from(x) << (16 * u32::from(place))
}

// The word of four lanes.
fn word(a: u16, b: u16, c: u16, d: u16) -> u64
    ensures below { result < 2 ^ 64 }
    ensures value { result ≡ joined (a ∷ b ∷ c ∷ d ∷ []) }
{
    ((u64::from(d) * 65536 + u64::from(c)) * 65536 + u64::from(b)) * 65536 + u64::from(a)
}

// The words of sixteen lanes.
pub(crate) fn pack(places: &[u16; 16]) -> [u64; 4]
    ensures four { length result ≡ 4 }
    ensures whole { (k : ℕ) → slice_index result k < 2 ^ 64 }
    ensures value { spread result ≡ places.now }
{
    [
        word(places[0], places[1], places[2], places[3]),
        word(places[4], places[5], places[6], places[7]),
        word(places[8], places[9], places[10], places[11]),
        word(places[12], places[13], places[14], places[15]),
    ]
}

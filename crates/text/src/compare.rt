// Bytes compared, the highest of them, and the first of them. Neither `same` nor `highest` has an exit on the way, so that
// both are vectorised.
ghost use Rattle.std.specs.Prelude.{◌≡◌, take};
ghost use Rattle.text.specs.Same.{same as same_bytes, highest as highest_byte};

// Kept: a loop, not `a == b`, which costs 57 instructions for 28 against a constant of 12 bytes. (Of two texts of 20 bytes
// that are no constants it costs 71 for 101.)
pub fn same(a: &[u8], b: &[u8]) -> bool
    ensures { result ≡ same_bytes a.now b.now }
{
    if a.len() != b.len() {
        return false;
    }
    let mut ok = true;
    for (x, y) in a.iter().zip(b) {
        ok &= *x == *y;
    }
    ok
}

// 0 where there is no byte.
#[tactic(auto, using(crate::proofs::SameLaws::highest_fold))]
pub fn highest(s: &[u8]) -> u8
    ensures { result ≡ highest_byte 0 s.now }
{
    s.iter().copied().fold(0, u8::max)
}

// The first `n`, or all where there are fewer.
pub fn front(s: &[u8], n: usize) -> &[u8]
    ensures { result.now ≡ take n s.now }
{
    &s[..n.min(s.len())]
}

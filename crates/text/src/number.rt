ghost use Rattle.std.specs.Prelude.{◌≡◌, ◌<◌, IfSome};
ghost use Rattle.text.specs.Words.{below};

// The decimal number that the word writes, where it is below the limit. A loop by hand: it stops at the first
// byte that is no digit, and a fold that can stop asks for more lemmas than the loop's one line.
pub fn number(word: &[u8], limit: u64) -> Option<u64>
    ensures value { result ≡ below limit word.now }
    ensures bound { IfSome result (λ n. n < limit) }
{
    if word.is_empty() {
        return None;
    }
    let mut n: u64 = 0;
    for digit in word {
        if !digit.is_ascii_digit() {
            return None;
        }
        n = n.saturating_mul(10).saturating_add(u64::from(digit - b'0'));
    }
    (n < limit).then_some(n)
}

ghost use Rattle.std.specs.Prelude.{◌≡◌, ◌≤◌, length};
ghost use Rattle.lines.specs.Decimal.{decimal};

// How many digits the number has, as `decimal` has them. `ilog10` speaks of powers of ten, so it would take a lemma more to
// say the same. Components have at most three, and tests cost less than a division.
#[tactic(auto, using(crate::proofs::Decimals::decimal_digit, crate::proofs::Decimals::decimal_two, crate::proofs::Decimals::decimal_three, crate::proofs::Decimals::length_step))]
pub(crate) fn digit_count(n: usize) -> usize
    ensures value { result ≡ length (decimal n) }
    ensures few { result ≤ 20 }
{
    if n < 10 {
        1
    } else if n < 100 {
        2
    } else if n < 1000 {
        3
    } else {
        digit_count(n / 10) + 1
    }
}

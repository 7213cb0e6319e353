//! Numbers of any length.
ghost use Rattle.std.specs.Prelude.{◌≡◌, ◌≤◌, ◌≤ℤ◌, pos, neg_ℤ, IfSome};
ghost use Rattle.std.specs.Option.{option_map};
ghost use Rattle.t3_asm_line.specs.Numbers.{natural_of, number_of};
ghost use Rattle.t3_asm_line.specs.Inner.Clipped.{clipped, near};

/// A number that is further from 0 than this is kept as this.
const FAR: u64 = 1 << 40;

/// The number that a word says, exact where it is at most 2 to the power 40 from 0, and else that
/// limit with its sign.
#[tactic(auto, using(crate::proofs::Clipping::clipped_pos, crate::proofs::Clipping::clipped_negated), unfolding(crate::specs::Numbers::number_of))]
pub(crate) fn number(word: &[u8]) -> Option<i64>
    ensures { result ≡ option_map clipped (number_of word.now) }
{
    if word.starts_with(b"0x") {
        natural(16, &word[2..])
    } else if word.starts_with(b"-") {
        negative(natural(10, &word[1..]))
    } else {
        natural(10, word)
    }
}

/// The number below 0 that is as far from it as this one is above.
fn negative(size: Option<i64>) -> Option<i64>
    requires { IfSome size (λ z. pos 0 ≤ℤ z) }
    ensures { result ≡ option_map neg_ℤ size }
{
    match size {
        Some(size) => Some(-size),
        None => None,
    }
}

/// The number that digits of the base say, or the limit where it is greater.
fn natural(base: u32, digits: &[u8]) -> Option<i64>
    requires low { 2 ≤ base }
    requires high { base ≤ 16 }
    ensures { result ≡ option_map near (natural_of base digits.now) }
{
    if digits.is_empty() {
        return None;
    }
    let mut value = 0u64;
    for digit in digits {
        let Some(digit) = char::from(*digit).to_digit(base) else {
            return None;
        };
        value = FAR.min(value * u64::from(base) + u64::from(digit));
    }
    Some(value as i64)
}

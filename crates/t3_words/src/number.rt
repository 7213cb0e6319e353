//! The numbers of words.
ghost use Rattle.std.specs.Prelude.{◌≡◌, ◌≤◌, IfSome};
ghost use Rattle.t3_words.specs.Number.{number_within as number_of, spelled_number as spelled};
ghost use Rattle.t3_words.specs.Inner.Parsing.{positive_of};

/// The number that a text spells in decimal, without a sign or a leading zero, from `least` to `most`.
pub(crate) fn number_within(text: &str, least: u32, most: u32) -> Option<u32>
    ensures number { result ≡ number_of least most text.now }
    ensures least { IfSome result (λ number. least ≤ number) }
    ensures most { IfSome result (λ number. number ≤ most) }
{
    let number = spelled_number(text)?;
    (least <= number && number <= most).then_some(number)
}

/// The number that a text spells.
fn spelled_number(text: &str) -> Option<u32>
    ensures { result ≡ spelled text.now }
{
    if text == "0" {
        return Some(0);
    }
    positive_number(text)
}

/// The number that a text spells from 1 on.
#[tactic(auto, using(crate::proofs::Spelled::none_below, crate::proofs::Spelled::none_above, crate::proofs::Spelled::parsed))]
fn positive_number(text: &str) -> Option<u32>
    ensures { result ≡ positive_of text.now }
{
    match text.as_bytes() {
        [b'1'..=b'9', ..] => text.parse::<u32>().ok(),
        _ => None,
    }
}

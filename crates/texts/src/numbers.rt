ghost use Rattle.std.specs.Prelude.{◌≡◌, ◌≤◌, IfSome};
ghost use Rattle.texts.specs.Parts.{number_in};

use cps_base::read_number;

/// The number that a text of decimal digits is, where it is one of those from `least` to `most`.
#[tactic(auto, unfolding(crate::specs::Parts::number_in))]
pub fn number_in(text: &[u8], least: u64, most: u64) -> Option<u64>
    ensures value { result ≡ number_in text.now least most }
    ensures range { IfSome result (λ n. (least ≤ n) × (n ≤ most)) }
{
    match read_number(text, least, most) {
        Ok(n) => Some(n),
        Err(_) => None,
    }
}

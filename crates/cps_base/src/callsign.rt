ghost use Rattle.std.specs.Prelude.{◌≡◌, ◌∷◌, [], true, Some, None, if◌then◌else◌};
ghost use Rattle.std.specs.Prelude.{nat_eq, refl};
ghost use Rattle.std.specs.Ordering.{nat_cmp};
ghost use Rattle.std.specs.Cmp.{partial_equiv_from_equiv};
ghost use Rattle.std.specs.Cmp.Lexicographic.{pointwise, slice_cmp, nat_list_eq_equiv, nat_list_cmp_total, texts_po, texts_ties};
ghost use Rattle.std.specs.Cmp.Rules.{hashing};
ghost use Rattle.std.specs.Hash as fed;
ghost use Rattle.std.proofs.Common.{rules};
ghost use Rattle.std.specs.List.{list_all};
ghost use Rattle.cps_base.specs.Text.{is_callsign_byte, is_callsign};

use std::cmp::Ordering;
use std::fmt;
use std::hash::{Hash, Hasher};
use std::marker::Model;

/// A callsign: 2 to 8 bytes, each a capital letter `A` to `Z` or a digit. Contracts see the list of its bytes, and
/// callsigns compare as these lists do.
#[derive(Clone, Copy)]
pub struct Callsign {
    bytes: [u8; 8],
    len: usize,
}

impl Model for Callsign {
    ghost use Rattle.std.specs.Prelude.{◌≡◌, ℕ, List, take, length, IsTrue};
    ghost use Rattle.std.proofs.Common.{sym};
    ghost use Rattle.cps_base.specs.Text.{is_callsign};
    ghost use Rattle.cps_base.specs.Padded.{padded};

    ghost Value = { List ℕ };

    ghost view = { λ c. take c.len c.bytes };

    ghost invariant = { λ c. (c.bytes ≡ padded 0 8 (take c.len c.bytes))
        × (length (take c.len c.bytes) ≡ c.len) × IsTrue (is_callsign (take c.len c.bytes)) };

    ghost inverse = { λ text. record { bytes = padded 0 8 text; len = length text } };

    ghost inverse_ok = { λ c h i. record { bytes = sym h.0 i; len = h.1 i } };
}

fn are_callsign_bytes(text: &[u8]) -> bool
    ensures { result ≡ list_all is_callsign_byte text.now }
{
    text.iter()
        .all(|b| b.is_ascii_uppercase() || b.is_ascii_digit())
}

fn is_callsign(text: &[u8]) -> bool
    ensures { result ≡ is_callsign text.now }
{
    text.len() >= 2 && text.len() <= 8 && are_callsign_bytes(text)
}

impl Callsign {
    /// The callsign that a text is, and `None` for any text that is none.
    pub fn read(text: &[u8]) -> Option<Callsign>
        ensures { result ≡ (if is_callsign text.now then Some text.now else None) }
    {
        if !is_callsign(text) {
            return None;
        }
        let len = text.len();
        let mut bytes = [0u8; 8];
        bytes[..len].copy_from_slice(text);
        Some(Callsign { bytes, len })
    }

    /// Its bytes, 2 to 8 of them.
    pub fn bytes(&self) -> &[u8]
        ensures value { result.now ≡ self.now }
        ensures callsign { is_callsign self.now ≡ true }
    {
        &self.bytes[..self.len]
    }
}

/// The callsign `00`, which fills places where no callsign is.
impl Default for Callsign {
    ghost is_default = { λ c. c ≡ 48 ∷ 48 ∷ [] };

    fn default() -> Callsign {
        Callsign {
            bytes: [b'0', b'0', 0, 0, 0, 0, 0, 0],
            len: 2,
        }
    }
}

impl PartialEq for Callsign {
    ghost eq = { pointwise nat_eq };

    ghost laws = { partial_equiv_from_equiv nat_list_eq_equiv };

    fn eq(&self, other: &Callsign) -> bool {
        self.len == other.len && self.bytes == other.bytes
    }
}

impl Eq for Callsign {
    ghost laws = { nat_list_eq_equiv };
}

impl PartialOrd for Callsign {
    ghost partial_cmp = { λ x y. Some (slice_cmp nat_cmp x y) };

    ghost laws = { texts_po };

    fn partial_cmp(&self, other: &Callsign) -> Option<Ordering> {
        Some(self.cmp(other))
    }
}

impl Ord for Callsign {
    ghost cmp = { slice_cmp nat_cmp };

    ghost total = { nat_list_cmp_total };

    ghost matches_partial_cmp = { λ x y. refl };

    ghost matches_eq = { texts_ties };

    fn cmp(&self, other: &Callsign) -> Ordering {
        self.bytes().cmp(other.bytes())
    }
}

impl Hash for Callsign {
    ghost hash_input = { fed.slice fed.u8 };

    ghost respects_eq = { Prim.search (hashing, rules) };

    fn hash<H: Hasher>(&self, state: &mut H) {
        self.bytes().hash(state);
    }
}

impl fmt::Debug for Callsign {
    fn fmt<W: fmt::Write>(&self, f: &mut fmt::Formatter<W>) -> fmt::Result {
        for byte in self.bytes() {
            f.write_char(char::from(*byte))?;
        }
        Ok(())
    }
}

ghost use Rattle.std.specs.Prelude.{◌≡◌, length};
ghost use Rattle.aerodrome_file.specs.KeyText.{visible, key_text};

use std::fmt;
use std::marker::Model;

/// A key as a message shows it: its first 32 bytes at most, each outside `!` to `~` as `?`. Contracts see its bytes.
#[derive(Clone, Copy, PartialEq, Eq)]
pub struct KeyText {
    bytes: [u8; 32],
    len: usize,
}

impl Model for KeyText {
    ghost use Rattle.std.specs.Prelude.{◌≡◌, ℕ, List, take, length};
    ghost use Rattle.std.proofs.Common.{sym};
    ghost use Rattle.cps_base.specs.Padded.{padded};

    ghost Value = { List ℕ };

    ghost view = { λ t. take t.len t.bytes };

    ghost invariant = { λ t. (t.bytes ≡ padded 0 32 (take t.len t.bytes))
        × (length (take t.len t.bytes) ≡ t.len) };

    ghost inverse = { λ text. record { bytes = padded 0 32 text; len = length text } };

    ghost inverse_ok = { λ t h i. record { bytes = sym h.0 i; len = h.1 i } };
}

// The byte as a message shows it.
fn visible(byte: u8) -> u8
    ensures { result ≡ visible byte }
{
    if byte >= 0x21 && byte <= 0x7E {
        byte
    } else {
        b'?'
    }
}

impl KeyText {
    // The text of a key.
    pub(crate) fn of(key: &[u8]) -> KeyText
        ensures { result ≡ key_text key.now }
    {
        let len = key.len().min(32);
        let mut bytes = [0u8; 32];
        for i in 0..len {
            bytes[i] = visible(key[i]);
        }
        KeyText { bytes, len }
    }

    /// Its bytes.
    pub fn bytes(&self) -> &[u8]
        ensures { result.now ≡ self.now }
    {
        &self.bytes[..self.len]
    }
}

impl fmt::Debug for KeyText {
    fn fmt<W: fmt::Write>(&self, f: &mut fmt::Formatter<W>) -> fmt::Result {
        fmt::Debug::fmt(self.bytes(), f)
    }
}

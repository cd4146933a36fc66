//! Texts that are appended whole, or not at all.

ghost use Rattle.std.specs.Prelude.{flat_map};
ghost use Rattle.texts.specs.Appends.{Appends};

use std::alloc::AllocError;

/// Appends the pieces in their order; after a refusal, for want of memory, `into` is as before.
pub fn append_all(pieces: &[&[u8]], into: &mut Vec<u8>) -> Result<(), AllocError>
    ensures { Appends into.old.items into.new.items (flat_map (λ p. p.now) pieces.now) result }
{
    let before = into.len();
    let mut rest = pieces;
    while let [piece, after @ ..] = rest {
        if into.extend_from_slice(piece).is_err() {
            into.truncate(before);
            return Err(AllocError);
        }
        rest = after;
    }
    Ok(())
}

// The lines of an effort.
ghost use Rattle.std.specs.Prelude.{◌≡◌, IfOk, None};
ghost use Rattle.replays.specs.Efforts.{answer_line, begun_line, total_line};

use itoa::Buffer;
use std::alloc::{AllocError, Global};

// The line of the opening.
pub(crate) fn begun(alloc: Global, steps: u64) -> Result<Vec<u8>, AllocError>
    ensures { IfOk result (λ text. text.items ≡ begun_line steps) }
{
    let mut digits = Buffer::new();
    let mut text = Vec::from_slice(alloc, b"event 0 begun steps ")?;
    text.extend_from_slice(digits.format(steps).as_bytes())?;
    text.push(b'\n')?;
    Ok(text)
}

// The line of an accepted event.
pub(crate) fn accepted(alloc: Global, number: u32, steps: u64) -> Result<Vec<u8>, AllocError>
    ensures { IfOk result (λ text. text.items ≡ answer_line number None steps) }
{
    let mut digits = Buffer::new();
    let mut text = Vec::from_slice(alloc, b"event ")?;
    text.extend_from_slice(digits.format(number).as_bytes())?;
    text.extend_from_slice(b" accepted steps ")?;
    text.extend_from_slice(digits.format(steps).as_bytes())?;
    text.push(b'\n')?;
    Ok(text)
}

// The line of all steps together.
pub(crate) fn total(alloc: Global, steps: u64) -> Result<Vec<u8>, AllocError>
    ensures { IfOk result (λ text. text.items ≡ total_line steps) }
{
    let mut digits = Buffer::new();
    let mut text = Vec::from_slice(alloc, b"total ")?;
    text.extend_from_slice(digits.format(steps).as_bytes())?;
    text.push(b'\n')?;
    Ok(text)
}

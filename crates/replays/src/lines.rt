// The text of the opening and of one answer.
ghost use Rattle.std.specs.Prelude.{◌≡◌, ◌≢◌, IfOk, OnOk, None};
ghost use Rattle.landing_rules.specs.Text.{answer_text, begun_text};
ghost use Rattle.plan_text.specs.Kept.{written_text};
ghost use Rattle.plan_text.specs.Refused.{refused_text};
ghost use Rattle.situations.specs.Answers.{refusal_of};
ghost use Rattle.situations.specs.declared.refusal.Refusal.TheVariants.{Memory};

use cps_problem::Planner;
use itoa::Buffer;
use plan_text::{KeptText, plan_block, refusal_line};
use sequencer::Sequencer;
use situations::Refusal;
use std::alloc::{AllocError, Global};

// What is said of the state in which a replay begins.
pub(crate) fn begun<P: Planner>(
    alloc: Global,
    sequencer: &Sequencer<P>,
) -> Result<Vec<u8>, AllocError>
    ensures { IfOk result (λ text. text.items ≡ begun_text sequencer.now.state) }
{
    let mut text = Vec::from_slice(alloc, b"event 0 begun\n")?;
    plan_block(sequencer.objective(), sequencer.plan(), &mut text)?;
    Ok(text)
}

// Writes what is said of an accepted event and the state after it.
pub(crate) fn write_accepted<P: Planner>(
    alloc: Global,
    sequencer: &Sequencer<P>,
    number: u32,
    answer: &mut KeptText,
) -> Result<(), AllocError>
    ensures { OnOk result (written_text answer.new ≡ answer_text number None sequencer.now.state) }
{
    let mut buffer = Buffer::new();
    let mut head = Vec::with_capacity(alloc, 64)?;
    head.extend_from_slice(b"event ")?;
    head.extend_from_slice(buffer.format(number).as_bytes())?;
    head.extend_from_slice(b" accepted\n")?;
    answer.write(head, sequencer.objective(), sequencer.plan())
}

// What is said of a refused event.
pub(crate) fn refused(alloc: Global, number: u32, refusal: &Refusal) -> Result<Vec<u8>, AllocError>
    requires { refusal.now ≢ Memory }
    ensures { IfOk result (λ text. text.items ≡ refused_text number (refusal_of refusal.now)) }
{
    let mut text = Vec::new(alloc);
    refusal_line(number, refusal, &mut text)?;
    Ok(text)
}

//! Slots: where the pairs of a node of a stage are put together, and in which order the nodes of a stage stand.

ghost use Rattle.std.specs.Prelude.{◌≡◌, ◌+◌, ◌*◌, ◌^◌, ◌<◌, ◌≤◌};
ghost use Rattle.cps_base.specs.Limits.{greatest_k, most_waiting};
ghost use Rattle.cert_check.specs.PlacedBits.{digits_of};
ghost use Rattle.certificate.specs.Patterns.{bits, number_of};
ghost use Rattle.cert_writer.specs.Slots.{HasSlot};

use cert_check::patterns_are_bits;
use cps_network::Node;

// The digits of a stage, as bits, digit 1 the lowest: the ranks from stage + 1 - k to stage + k that are placed, and those
// below 1.
fn marks_of(k: u8, stage: u8, placed: u64) -> u64
    requires near { k ≤ greatest_k }
    requires stage { stage ≤ most_waiting }
    ensures { digits_of k stage placed ≡ bits (2 * k) result }
{
    patterns_are_bits();
    if stage < k {
        // Bit y is that of rank y - k.
        ((placed << k) | ((1 << (k + 1)) - 1)) >> (stage + 1)
    } else {
        placed >> (stage + 1 - k)
    }
}

// The slot of a node of a stage.
pub(crate) fn slot_of(k: u8, stage: u8, node: Node) -> usize
    requires near { k ≤ greatest_k }
    requires stage { stage ≤ most_waiting }
    requires last { (stage ≤ node.last + k) × (node.last ≤ stage + k) }
    ensures { HasSlot k (stage, digits_of k stage node.placed, node.last) result }
{
    let ones = marks_of(k, stage, node.placed) % (1 << (2 * k));
    ones as usize * 8 + (node.last + k - stage) as usize
}

// The digits, digit 1 the lowest, that are this number with digit 1 as the highest.
pub(crate) fn turned(k: u8, number: u8) -> u8
    requires near { k ≤ greatest_k }
    requires below { number < 2 ^ (2 * k) }
    ensures digits { number_of (bits (2 * k) result) ≡ number }
    ensures below { result < 2 ^ (2 * k) }
{
    // one bit up first, as a byte can't be shifted back by 8, where k is 0
    (number << 1).reverse_bits() >> (7 - 2 * k)
}

// Draws from a state of 64 bits.
ghost use Rattle.std.specs.Prelude.{◌≡◌, ◌<◌};
ghost use Rattle.traffic_gen.specs.Draws.{next, drawn};

// The state after a draw.
#[tactic(auto, unfolding(crate::specs::Draws::next))]
pub(crate) fn next(state: u64) -> u64
    ensures { result ≡ next state }
{
    state
        .wrapping_mul(6_364_136_223_846_793_005)
        .wrapping_add(1_442_695_040_888_963_407)
}

// What a draw gives, of the numbers below `most`, where this is the state after it.
#[tactic(auto, unfolding(crate::specs::Draws::drawn))]
pub(crate) fn drawn(most: u64, state: u64) -> u64
    requires { 0 < most }
    ensures value { result ≡ drawn most state }
    ensures below { result < most }
{
    (state / 0x2_0000_0000) % most
}

//! Draws: numbers that follow from a seed.
ghost use Rattle.std.specs.Prelude.{◌≡◌, ◌<◌};
ghost use Rattle.tm_gen.specs.Draws.{next_state, drawn};

const FACTOR: u64 = 6_364_136_223_846_793_005;

const INCREMENT: u64 = 1_442_695_040_888_963_407;

/// The state after a draw.
#[tactic(auto, using(crate::proofs::DrawLaws::wrapped_state))]
pub fn next_state(state: u64) -> u64
    ensures { result ≡ next_state state }
{
    state.wrapping_mul(FACTOR).wrapping_add(INCREMENT)
}

/// The number below `limit` that is drawn in this state.
pub fn drawn(limit: u64, state: u64) -> u64
    requires { 0 < limit }
    ensures exact { result ≡ drawn limit state }
{
    next_state(state) / 8_589_934_592 % limit
}

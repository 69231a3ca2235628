// Compose, inverse and the chain on blocks of eleven values, whose definitions the byte entries are proved to meet. What `binary64` says of a block the theorems on
// times ask of it.

ghost use Rattle.std.specs.Prelude.{◌≡◌, ◌/◌, length};
ghost use Rattle.sgal3_calls.specs.Composition as Composition;

use checks::Refusal;
use manifold::LieGroup;
use sgal3::{Element, REP_SIZE};

// The most blocks of a chain.
pub const MOST_BLOCKS: usize = 4096;

#[tactic(auto, using(crate::proofs::Generic::composed))]
pub fn compose(left: &[f64], right: &[f64], tolerance: f64) -> Result<Element, Refusal>
    ensures value { result ≡ Composition.compose left.now right.now tolerance }
    ensures binary64 { Composition.Binary64 right.now }
{
    manifold_calls::compose(left, right, tolerance)
}

#[tactic(auto, using(crate::proofs::Generic::inverted))]
pub fn inverse(block: &[f64], tolerance: f64) -> Result<Element, Refusal>
    ensures { result ≡ Composition.inverse block.now tolerance }
{
    manifold_calls::inverse(block, tolerance)
}

// The element of a block, or why it is refused.
#[tactic(auto, using(crate::proofs::Generic::taken, crate::proofs::Generic::refused))]
pub fn check_element(block: &[f64], tolerance: f64) -> Result<Element, Refusal>
    ensures { result ≡ Composition.check_element block.now tolerance }
{
    checks::check_param_block(block, REP_SIZE, 3, tolerance)?;
    Element::from_param_slice(block)
}

// What stands before the first block. A tolerance that is not permitted is refused even if there is no block.
#[tactic(auto, unfolding(crate::specs::Composition::starts))]
fn starts(tolerance: f64) -> Result<Element, Refusal>
    ensures { result ≡ Composition.starts tolerance }
{
    checks::check_tolerance(tolerance)?;
    Ok(Element::identity())
}

// The blocks of s, composed one after the other from the identity. One pass: a block's refusal comes before an overflow, wherever
// it stands.
fn chain_blocks(s: &[f64], tolerance: f64) -> Result<Element, Refusal>
    ensures { result ≡ Composition.chain_blocks tolerance (length s.now / REP_SIZE) s.now }
{
    let mut held = starts(tolerance);
    for block in s.chunks_exact(REP_SIZE) {
        held = manifold_calls::compose_answers(held, check_element(block, tolerance));
    }
    held
}

// Up to MOST_BLOCKS blocks, laid end to end.
#[tactic(auto, unfolding(crate::specs::Composition::chain))]
pub fn chain(blocks: &[f64], tolerance: f64) -> Result<Element, Refusal>
    ensures value { result ≡ Composition.chain blocks.now tolerance }
    ensures binary64 { Composition.Binary64 blocks.now }
{
    checks::check_chain_length(blocks.len(), REP_SIZE, MOST_BLOCKS * REP_SIZE)?;
    chain_blocks(blocks, tolerance)
}

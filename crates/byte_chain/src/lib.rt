// The chain on byte blocks, an element being 88 little-endian bytes: for the C entries and for the program.
#![tactic(auto)]

ghost use Rattle.std.specs.Prelude.{◌≡◌, ◌/◌, length, Ok, Err};
ghost use Rattle.std.specs.Slice.Iter.{chunks_exact_rest, chunks_exact_size};
ghost use Rattle.byte_chain.specs.Blocks as Blocks;
ghost use Rattle.byte_chain.specs.Steps.{chain_after, chain_on};

use checks::Refusal;
use element_bytes::ELEMENT_SIZE;
use manifold::LieGroup;
use sgal3::Element;
use std::slice::ChunksExact;

// Of a refusal and those of the blocks, the one that is tried first.
#[tactic(auto, using(crate::proofs::ByteBlocks::blocks))]
fn earliest(first: Refusal, blocks: ChunksExact<u8>, tolerance: f64) -> Refusal
    requires { chunks_exact_size blocks ≡ ELEMENT_SIZE }
    ensures { Err result ≡ chain_on tolerance (Err first) (chunks_exact_rest blocks.entry) }
{
    let mut held = first;
    for block in blocks {
        if let Err(r) = element_bytes::check_bytes(block, 0, tolerance) {
            held = held.earlier(r);
        }
    }
    held
}

// The byte blocks of s, composed one after the other with `start`. Once a block is refused or an element overflows no value
// counts any more, only an earlier refusal.
#[tactic(auto, using(crate::proofs::ByteBlocks::blocks))]
fn compose_blocks(start: Element, s: &[u8], tolerance: f64) -> Result<Element, Refusal>
    ensures { result ≡ chain_on tolerance (Ok start) s.now }
{
    let mut held = start;
    let mut blocks = s.chunks_exact(ELEMENT_SIZE);
    while let Some(block) = blocks.next() {
        if let Err(r) = element_bytes::check_bytes(block, 0, tolerance) {
            return Err(earliest(r, blocks, tolerance));
        }
        held = held.compose(element_bytes::element(block, 0));
        // Value by value: `is_finite` of the element, by a sum, made the entries slower.
        let values = held.coeffs();
        if !checks::all_finite(&values) {
            return Err(earliest(Refusal::Overflow, blocks, tolerance));
        }
    }
    Ok(held)
}

// The byte blocks of s, composed one after the other with the block `first`, a slice as those are.
#[tactic(auto, using(crate::proofs::ByteBlocks::first))]
pub fn chain_blocks(first: &[u8], s: &[u8], tolerance: f64) -> Result<Element, Refusal>
    requires { length first.now ≡ ELEMENT_SIZE }
    ensures { result ≡ chain_after tolerance first.now (length s.now / ELEMENT_SIZE) s.now }
{
    if let Err(r) = element_bytes::check_bytes(first, 0, tolerance) {
        return Err(earliest(r, s.chunks_exact(ELEMENT_SIZE), tolerance));
    }
    compose_blocks(element_bytes::element(first, 0), s, tolerance)
}

// The chain of at most `most` bytes of blocks.
#[tactic(auto, unfolding(crate::specs::Blocks::chain, crate::specs::Blocks::chain_blocks, crate::specs::Steps::chain_on, sgal3_calls::specs::Composition::chain_blocks, sgal3_calls::specs::Composition::starts))]
pub fn chain(s: &[u8], most: usize, tolerance: f64) -> Result<Element, Refusal>
    ensures { result ≡ Blocks.chain most s.now tolerance }
{
    checks::check_chain_length(s.len(), ELEMENT_SIZE, most)?;
    // even if there is no block
    if let Err(r) = checks::check_tolerance(tolerance) {
        return Err(earliest(r, s.chunks_exact(ELEMENT_SIZE), tolerance));
    }
    compose_blocks(Element::identity(), s, tolerance)
}

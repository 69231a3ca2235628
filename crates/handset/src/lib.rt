// What the firmware calls, by way of handset_c: compose, also in place, inverse and the chain on little-endian byte blocks, an element being
// 88 bytes. An entry answers 0, or the number of a refusal, and then the output is as it was. Each stands here twice: with the tolerance of the
// norm check, and at 1e-6.
#![tactic(auto)]

ghost use Rattle.std.specs.Prelude.{◌≡◌, ◌/◌, length};
ghost use Rattle.checks.specs.Checks as Checks;
ghost use Rattle.byte_chain.specs.Steps.{chain_after};
ghost use Rattle.element_bytes.specs.Bytes.{values_at};
ghost use Rattle.sgal3_calls.specs.Composition.{check_element, inverse_answer};
ghost use Rattle.handset.specs.Entries as Entries;
ghost use Rattle.handset.specs.Steps as Steps;

use checks::Refusal;
use element_bytes::ELEMENT_SIZE;
use manifold::LieGroup;
use sgal3::{Element, REP_SIZE};
use sgal3_calls::composition::MOST_BLOCKS;

// 0 for an answer, or the refusal's number. An element is stored, and a refusal leaves out as it is. That out is as long as an element is a clause, since C's
// blocks are slices. Inlined, so that the answer isn't copied on its way, on ARM by a call of memcpy.
#[inline(always)]
#[tactic(auto, unfolding(crate::specs::Steps::Finite), using(crate::proofs::Outputs::stored))]
fn finish(answer: Result<Element, Refusal>, out: &mut [u8]) -> u32
    requires out_len { length out.old ≡ ELEMENT_SIZE }
    requires finite { Steps.Finite answer }
    ensures { Steps.Stored answer out.old out.new result }
{
    match answer {
        Ok(e) => {
            element_bytes::put_element(out, 0, e);
            0
        }
        Err(r) => r.number(),
    }
}

// The block `first`, or the one held where that is empty.
#[tactic(auto, using(crate::proofs::Outputs::firsts))]
fn first_or<'a>(first: &'a [u8], held: &'a [u8]) -> &'a [u8]
    ensures { result.now ≡ Steps.first_or first.now held.now }
{
    if first.is_empty() {
        return held;
    }
    first
}

// The number of what `chain_blocks` answers, and the answer stored: for compose, for compose in place, where `first` is empty and the output
// holds the first block, and for the chain. A function of its own, so that no answer goes through memory.
#[tactic(auto, using(crate::proofs::FiniteValues::finite_values))]
fn store_chain(first: &[u8], blocks: &[u8], tolerance: f64, out: &mut [u8]) -> u32
    requires out_len { length (Steps.first_or first.now out.old) ≡ ELEMENT_SIZE }
    requires out_len_2 { length out.old ≡ ELEMENT_SIZE }
    ensures { Steps.Stored (chain_after tolerance (Steps.first_or first.now out.old) (length blocks.now / ELEMENT_SIZE) blocks.now) out.old out.new result }
{
    let one = first_or(first, out);
    // a slice of its own, so that the compiler passes the parameter in registers
    let s = &blocks[0..];
    finish(byte_chain::chain_blocks(one, s, tolerance), out)
}

// The element of a block, inverted, or why it is refused.
#[tactic(auto, unfolding(sgal3_calls::specs::Composition::element_answer, sgal3_calls::specs::Composition::inverse_answer, manifold::specs::Answers::answered), using(byte_chain::proofs::ByteBlocks::first))]
fn inverse(block: &[u8], tolerance: f64) -> Result<Element, Refusal>
    requires { length block.now ≡ ELEMENT_SIZE }
    ensures { result ≡ inverse_answer (check_element (values_at REP_SIZE block.now 0) tolerance) }
{
    element_bytes::check_bytes(block, 0, tolerance)?;
    manifold::answered(element_bytes::element(block, 0).inverse())
}

// The number of the inverse, and the inverse stored; a function of its own as `store_chain` is.
#[tactic(auto, using(crate::proofs::FiniteValues::finite_values))]
fn store_inverse(block: &[u8], tolerance: f64, out: &mut [u8]) -> u32
    requires block_len { length block.now ≡ ELEMENT_SIZE }
    requires out_len { length out.old ≡ ELEMENT_SIZE }
    ensures { Steps.Stored (inverse_answer (check_element (values_at REP_SIZE block.now 0) tolerance)) out.old out.new result }
{
    let s = &block[0..];
    finish(inverse(s, tolerance), out)
}

// The entries return the scope's numbers, as the C interface has them: 1 for a wrong length, before anything is read. A refusal made to be asked for its
// number would be no plainer.
#[tactic(auto, using(crate::proofs::Outputs::firsts))]
pub fn sgal3_compose_within(left: &[u8], right: &[u8], tolerance: f64, out: &mut [u8]) -> u32
    ensures { Entries.Answered (Entries.compose left.now right.now tolerance out.old) out.old out.new result }
{
    if out.len() != ELEMENT_SIZE {
        return 1;
    }
    if left.len() != ELEMENT_SIZE {
        return 1;
    }
    if right.len() != ELEMENT_SIZE {
        return 1;
    }
    store_chain(left, right, tolerance, out)
}

// The step after the element held, stored over it; a refusal leaves it as it was.
#[tactic(auto, unfolding(crate::specs::Steps::first_or))]
pub fn sgal3_compose_in_place_within(held: &mut [u8], step: &[u8], tolerance: f64) -> u32
    ensures { Entries.Answered (Entries.compose_in_place held.old step.now tolerance) held.old held.new result }
{
    if held.len() != ELEMENT_SIZE {
        return 1;
    }
    if step.len() != ELEMENT_SIZE {
        return 1;
    }
    store_chain(b"", step, tolerance, held)
}

pub fn sgal3_inverse_within(block: &[u8], tolerance: f64, out: &mut [u8]) -> u32
    ensures { Entries.Answered (Entries.inverse block.now tolerance out.old) out.old out.new result }
{
    if out.len() != ELEMENT_SIZE {
        return 1;
    }
    if block.len() != ELEMENT_SIZE {
        return 1;
    }
    store_inverse(block, tolerance, out)
}

#[tactic(auto, unfolding(crate::specs::Steps::first_or))]
pub fn sgal3_chain_within(blocks: &[u8], tolerance: f64, out: &mut [u8]) -> u32
    ensures { Entries.Answered (Entries.chain blocks.now tolerance out.old) out.old out.new result }
{
    if out.len() != ELEMENT_SIZE {
        return 1;
    }
    if let Err(r) = checks::check_chain_length(
        blocks.len(),
        ELEMENT_SIZE,
        MOST_BLOCKS * ELEMENT_SIZE,
    ) {
        return r.number();
    }
    // the identity's bytes: 1.0 for the quaternion's w
    store_chain(
        b"\x00\x00\x00\x00\x00\x00\x00\x00\x00\x00\x00\x00\x00\x00\x00\x00\x00\x00\x00\x00\x00\x00\x00\x00\x00\x00\x00\x00\x00\x00\xf0\x3f\x00\x00\x00\x00\x00\x00\x00\x00\x00\x00\x00\x00\x00\x00\x00\x00\x00\x00\x00\x00\x00\x00\x00\x00\x00\x00\x00\x00\x00\x00\x00\x00\x00\x00\x00\x00\x00\x00\x00\x00\x00\x00\x00\x00\x00\x00\x00\x00\x00\x00\x00\x00\x00\x00\x00\x00",
        blocks,
        tolerance,
        out,
    )
}

// ---- At 1e-6

pub fn sgal3_compose(left: &[u8], right: &[u8], out: &mut [u8]) -> u32
    ensures { Entries.Answered (Entries.compose left.now right.now Checks.quaternion_norm_tolerance out.old) out.old out.new result }
{
    sgal3_compose_within(left, right, checks::quaternion_norm_tolerance(), out)
}

pub fn sgal3_compose_in_place(held: &mut [u8], step: &[u8]) -> u32
    ensures { Entries.Answered (Entries.compose_in_place held.old step.now Checks.quaternion_norm_tolerance) held.old held.new result }
{
    sgal3_compose_in_place_within(held, step, checks::quaternion_norm_tolerance())
}

pub fn sgal3_inverse(block: &[u8], out: &mut [u8]) -> u32
    ensures { Entries.Answered (Entries.inverse block.now Checks.quaternion_norm_tolerance out.old) out.old out.new result }
{
    sgal3_inverse_within(block, checks::quaternion_norm_tolerance(), out)
}

pub fn sgal3_chain(blocks: &[u8], out: &mut [u8]) -> u32
    ensures { Entries.Answered (Entries.chain blocks.now Checks.quaternion_norm_tolerance out.old) out.old out.new result }
{
    sgal3_chain_within(blocks, checks::quaternion_norm_tolerance(), out)
}

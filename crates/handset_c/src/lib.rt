// The C names of the entries, in the library that the firmware links: each is handset's function of its name.
#![tactic(auto)]

ghost use Rattle.checks.specs.Checks as Checks;
ghost use Rattle.handset.specs.Entries as Entries;

#[unsafe(no_mangle)]
pub extern "C" fn sgal3_compose_within(
    left: &[u8],
    right: &[u8],
    tolerance: f64,
    out: &mut [u8],
) -> u32
    ensures { Entries.Answered (Entries.compose left.now right.now tolerance out.old) out.old out.new result }
{
    handset::sgal3_compose_within(left, right, tolerance, out)
}

#[unsafe(no_mangle)]
pub extern "C" fn sgal3_compose_in_place_within(held: &mut [u8], step: &[u8], tolerance: f64) -> u32
    ensures { Entries.Answered (Entries.compose_in_place held.old step.now tolerance) held.old held.new result }
{
    handset::sgal3_compose_in_place_within(held, step, tolerance)
}

#[unsafe(no_mangle)]
pub extern "C" fn sgal3_inverse_within(block: &[u8], tolerance: f64, out: &mut [u8]) -> u32
    ensures { Entries.Answered (Entries.inverse block.now tolerance out.old) out.old out.new result }
{
    handset::sgal3_inverse_within(block, tolerance, out)
}

#[unsafe(no_mangle)]
pub extern "C" fn sgal3_chain_within(blocks: &[u8], tolerance: f64, out: &mut [u8]) -> u32
    ensures { Entries.Answered (Entries.chain blocks.now tolerance out.old) out.old out.new result }
{
    handset::sgal3_chain_within(blocks, tolerance, out)
}

// ---- At 1e-6

#[unsafe(no_mangle)]
pub extern "C" fn sgal3_compose(left: &[u8], right: &[u8], out: &mut [u8]) -> u32
    ensures { Entries.Answered (Entries.compose left.now right.now Checks.quaternion_norm_tolerance out.old) out.old out.new result }
{
    handset::sgal3_compose(left, right, out)
}

#[unsafe(no_mangle)]
pub extern "C" fn sgal3_compose_in_place(held: &mut [u8], step: &[u8]) -> u32
    ensures { Entries.Answered (Entries.compose_in_place held.old step.now Checks.quaternion_norm_tolerance) held.old held.new result }
{
    handset::sgal3_compose_in_place(held, step)
}

#[unsafe(no_mangle)]
pub extern "C" fn sgal3_inverse(block: &[u8], out: &mut [u8]) -> u32
    ensures { Entries.Answered (Entries.inverse block.now Checks.quaternion_norm_tolerance out.old) out.old out.new result }
{
    handset::sgal3_inverse(block, out)
}

#[unsafe(no_mangle)]
pub extern "C" fn sgal3_chain(blocks: &[u8], out: &mut [u8]) -> u32
    ensures { Entries.Answered (Entries.chain blocks.now Checks.quaternion_norm_tolerance out.old) out.old out.new result }
{
    handset::sgal3_chain(blocks, out)
}

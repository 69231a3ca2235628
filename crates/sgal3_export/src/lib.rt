// exp, log of both groups, the adjoint, short and in full, and act on a point and on an event, at 1e-6, for C and Rust, to be timed there: a call on blocks
// of values, and its outcome as bytes.
#![tactic(auto)]

ghost use Rattle.checks.specs.Checks as Checks;
ghost use Rattle.manifold_calls.specs.Calls as Calls;
ghost use Rattle.outcomes.specs.Outcomes as Outcomes;
ghost use Rattle.manifold.specs.Outcomes as ManifoldOutcomes;
ghost use Rattle.sgal3.specs.Elements as Elements;
ghost use Rattle.sgal3_calls.specs.Events as EventCalls;
ghost use Rattle.sgal3_calls.specs.Outcomes.{element};
ghost use Rattle.sgal3.specs.Group.{group, tangents};
ghost use Rattle.sgal3.specs.Outcomes as SGal3Outcomes;
ghost use Rattle.sgal3.specs.Tangents as Tangents;
ghost use Rattle.ten_rows.specs.Adjoints as Adjoints;
ghost use Rattle.ten_rows.specs.TenRows as TenRows;
ghost use Rattle.so3.specs.Group as So3;
ghost use Rattle.so3.specs.Outcomes as So3Outcomes;
ghost use Rattle.so3.specs.Tangents as So3Tangents;

use outcomes::LONGEST;
use sgal3::{Element, Tangent};

// Names for C, which knows no type parameters; and into the caller's buffer, since there is no heap.

#[tactic(auto, unfolding(outcomes::specs::Outcomes::of, sgal3_calls::specs::Outcomes::element))]
#[unsafe(no_mangle)]
pub extern "C" fn sgal3_exp(tangent: &[f64], out: &mut [u8; LONGEST]) -> usize
    ensures { Outcomes.Put result out.old out.new (Outcomes.of_values (element (Calls.exp tangents Elements.coeffs tangent.now))) }
{
    outcomes::put(out, manifold_calls::exp::<Tangent>(tangent))
}

#[tactic(auto, unfolding(outcomes::specs::Outcomes::of, sgal3::specs::Outcomes::tangent))]
#[unsafe(no_mangle)]
pub extern "C" fn sgal3_log(block: &[f64], out: &mut [u8; LONGEST]) -> usize
    ensures { Outcomes.Put result out.old out.new (Outcomes.of_values (SGal3Outcomes.tangent (Calls.log group tangents Tangents.coeffs block.now Checks.quaternion_norm_tolerance))) }
{
    outcomes::put(
        out,
        manifold_calls::log::<Element>(block, checks::quaternion_norm_tolerance()),
    )
}

#[tactic(auto, unfolding(outcomes::specs::Outcomes::of, so3::specs::Outcomes::tangent))]
#[unsafe(no_mangle)]
pub extern "C" fn so3_log(block: &[f64], out: &mut [u8; LONGEST]) -> usize
    ensures { Outcomes.Put result out.old out.new (Outcomes.of_values (So3Outcomes.tangent (Calls.log So3.group So3.tangents So3Tangents.values block.now Checks.quaternion_norm_tolerance))) }
{
    outcomes::put(
        out,
        manifold_calls::log::<so3::Element>(block, checks::quaternion_norm_tolerance()),
    )
}

#[tactic(auto, unfolding(outcomes::specs::Outcomes::of, sgal3::specs::Outcomes::matrix10))]
#[unsafe(no_mangle)]
pub extern "C" fn sgal3_adjoint(block: &[f64], out: &mut [u8; LONGEST]) -> usize
    ensures { Outcomes.Put result out.old out.new (Outcomes.of_values (SGal3Outcomes.matrix10 (Calls.adjoint group TenRows.values Adjoints.opened block.now Checks.quaternion_norm_tolerance))) }
{
    outcomes::put(
        out,
        manifold_calls::adjoint::<Element>(block, checks::quaternion_norm_tolerance()),
    )
}

// The adjoint's 39 numbers: 344 bytes where the ten rows take 832.
#[tactic(auto, unfolding(outcomes::specs::Outcomes::of, sgal3::specs::Outcomes::short_adjoint))]
#[unsafe(no_mangle)]
pub extern "C" fn sgal3_short_adjoint(block: &[f64], out: &mut [u8; 344]) -> usize
    ensures { Outcomes.Put result out.old out.new (Outcomes.of_values (SGal3Outcomes.short_adjoint (Calls.short_adjoint group Adjoints.values block.now Checks.quaternion_norm_tolerance))) }
{
    outcomes::put(
        out,
        manifold_calls::short_adjoint::<Element>(block, checks::quaternion_norm_tolerance()),
    )
}

#[tactic(auto, unfolding(outcomes::specs::Outcomes::of, manifold::specs::Outcomes::vector))]
#[unsafe(no_mangle)]
pub extern "C" fn sgal3_act(block: &[f64], vector: &[f64], out: &mut [u8; LONGEST]) -> usize
    ensures { Outcomes.Put result out.old out.new (Outcomes.of_values (ManifoldOutcomes.vector (Calls.act group block.now vector.now Checks.quaternion_norm_tolerance))) }
{
    outcomes::put(
        out,
        manifold_calls::act::<Element>(block, vector, checks::quaternion_norm_tolerance()),
    )
}

#[tactic(auto, unfolding(outcomes::specs::Outcomes::of, sgal3::specs::Outcomes::event))]
#[unsafe(no_mangle)]
pub extern "C" fn sgal3_act_event(block: &[f64], event: &[f64], out: &mut [u8; LONGEST]) -> usize
    ensures { Outcomes.Put result out.old out.new (Outcomes.of_values (SGal3Outcomes.event (EventCalls.act_event block.now event.now Checks.quaternion_norm_tolerance))) }
{
    outcomes::put(
        out,
        sgal3_calls::events::act_event(block, event, checks::quaternion_norm_tolerance()),
    )
}

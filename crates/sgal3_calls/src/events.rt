// How an element acts on an event, a point with a time of its own, on blocks: an element's eleven values, and an event's four (Kelly).

ghost use Rattle.std.specs.Prelude.{◌≡◌};
ghost use Rattle.sgal3_calls.specs.Events as EventCalls;

use checks::Refusal;
use manifold::LieGroup;
use sgal3::{EVENT_SIZE, Element, Event};

#[tactic(auto, unfolding(crate::specs::Events::event), using(checks::proofs::Passed::values_passed))]
fn event(s: &[f64]) -> Result<Event, Refusal>
    ensures { result ≡ EventCalls.event s.now }
{
    checks::check_values(s, EVENT_SIZE)?;
    Ok(Event::event_of(s))
}

fn element_and_event(block: &[f64], s: &[f64], tolerance: f64) -> Result<(Element, Event), Refusal>
    ensures { result ≡ EventCalls.element_and_event block.now s.now tolerance }
{
    checks::both(Element::try_from_param_slice(block, tolerance), event(s))
}

#[tactic(auto, unfolding(crate::specs::Events::act_event))]
pub fn act_event(block: &[f64], event: &[f64], tolerance: f64) -> Result<Event, Refusal>
    ensures { result ≡ EventCalls.act_event block.now event.now tolerance }
{
    let (a, e) = element_and_event(block, event, tolerance)?;
    manifold::answered(a.act_event(e))
}

// One call on a shift.
ghost use Rattle.std.specs.Prelude.{◌≡◌, ◌≤◌, length};
ghost use Rattle.plant.specs.Shifted.{closed_list};
ghost use Rattle.search.specs.declared.call.Call.TheVariants.{One, Two};
ghost use Rattle.search.specs.Calls.{nodes_told};
ghost use Rattle.search.specs.Served.{made, closed_after};
ghost use Rattle.search.specs.Lent.{lengths, SameLent, MakesIn};

use crate::areas::Areas;
use crate::call::Call;
use crate::one_way::one_way;
use crate::reply::{Done, Reply};
use crate::two_way::two_way;
use cost::kind::CostKind;
use plant::layers::shift::Shift;
use plant::plant::Plant;

// Searches one way, and writes the route from `at` on.
fn call_one<P: Plant>(
    shift: &Shift<P>,
    start: u32,
    goal: u32,
    at: usize,
    areas: &mut Areas<P::Cost>,
) -> Reply<P::Cost>
    requires { at ≤ length areas.old.routes.now }
    ensures makes { MakesIn (made P.Cost.CostKind.kind (P.Plant.floor shift.now.below) (lengths areas.old) (closed_list shift.now) at (One start goal)) at result areas.old areas.new }
    ensures same { SameLent areas.old areas.new }
{
    let answer = one_way(
        shift,
        start,
        goal,
        areas.rows,
        areas.queue,
        &mut areas.routes[at..],
    )?;
    Ok(Done::Searched {
        answer: answer.counted(),
        from: at,
    })
}

// Searches from both ends, and writes the route from `at` on.
// Beside `call_one`: they share no more than the last lines, and a closure for the search would be longer than those.
fn call_two<P: Plant>(
    shift: &Shift<P>,
    start: u32,
    goal: u32,
    at: usize,
    areas: &mut Areas<P::Cost>,
) -> Reply<P::Cost>
    requires { at ≤ length areas.old.routes.now }
    ensures makes { MakesIn (made P.Cost.CostKind.kind (P.Plant.floor shift.now.below) (lengths areas.old) (closed_list shift.now) at (Two start goal)) at result areas.old areas.new }
    ensures same { SameLent areas.old areas.new }
{
    let answer = two_way(
        shift,
        start,
        goal,
        areas.rows,
        areas.back_rows,
        areas.queue,
        areas.back_queue,
        &mut areas.routes[at..],
    )?;
    Ok(Done::Searched {
        answer: answer.counted(),
        from: at,
    })
}

// Makes a call; a route is written from `at` on. That the plant below and the areas stay is a fact of two values, and no type's.
pub(crate) fn call_on<P: Plant>(
    shift: &mut Shift<P>,
    call: Call,
    at: usize,
    areas: &mut Areas<P::Cost>,
) -> Reply<P::Cost>
    requires { at ≤ length areas.old.routes.now }
    ensures makes { MakesIn (made P.Cost.CostKind.kind (P.Plant.floor shift.old.below) (lengths areas.old) (closed_list shift.old) at call) at result areas.old areas.new }
    ensures same { SameLent areas.old areas.new }
    ensures closed { closed_list shift.new ≡ closed_after (closed_list shift.old) result }
    ensures below { shift.new.below ≡ shift.old.below }
{
    match call {
        Call::Close(k) => {
            shift.close(k)?;
            Ok(Done::Closed(k))
        }
        Call::Reopen(k) => {
            shift.reopen(k)?;
            Ok(Done::Reopened(k))
        }
        Call::One { start, goal } => call_one(shift, start, goal, at, areas),
        Call::Two { start, goal } => call_two(shift, start, goal, at, areas),
    }
}

// How many nodes of a route the reply tells.
pub(crate) fn nodes_of<C: CostKind>(reply: Reply<C>) -> usize
    ensures { result ≡ nodes_told reply }
{
    match reply {
        Ok(Done::Searched { answer, .. }) => answer.route.map_or(0, |route| route.nodes as usize),
        _ => 0,
    }
}

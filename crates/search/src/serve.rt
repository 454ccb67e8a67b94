// Calls on a shift, one after another.
ghost use Rattle.std.specs.Prelude.{◌≡◌, ◌<◌, ◌≤◌, [], length, take, MatchResult, OnOk, slice_set};
ghost use Rattle.plant.specs.Shifted.{closed_list};
ghost use Rattle.search.specs.Calls.{areas, past};
ghost use Rattle.search.specs.Life.{Life, Held};
ghost use Rattle.search.specs.Served.{served_from, served, AllMade, replies_fault};
ghost use Rattle.search.specs.Lent.{lengths, SameLent, AllMadeIn};
ghost use Rattle.std.specs.Result.{result_err};

use crate::areas::Areas;
use crate::call::Call;
use crate::calling::{call_on, nodes_of};
use crate::entry::Entry;
use crate::fault::SearchFault;
use crate::reply::Reply;
use crate::row::Row;
use cost::kind::CostKind;
use plant::layers::shift::Shift;
use plant::plant::Plant;

// Puts a reply into its place. It stands alone since the place of a reply, whose size no caller knows, is proved only here.
fn put_reply<C: CostKind>(replies: &mut [Reply<C>], i: usize, reply: Reply<C>)
    requires { i < length replies.old }
    ensures { replies.new ≡ slice_set replies.old i reply }
{
    replies[i] = reply;
}

// Makes the calls in turn; the routes are written one after another. Where nothing is closed before them, each reply is right after the calls before it.
fn call_all<P: Plant>(
    shift: &mut Shift<P>,
    calls: &[Call],
    areas: &mut Areas<P::Cost>,
    replies: &mut [Reply<P::Cost>],
)
    requires { length calls.now ≤ length replies.old }
    ensures made { AllMadeIn (served_from P.Cost.CostKind.kind (P.Plant.floor shift.old.below) (lengths areas.old) (closed_list shift.old) 0 calls.now) replies.old replies.new areas.old areas.new }
    ensures same { SameLent areas.old areas.new }
    ensures closed { closed_list shift.new ≡ (served_from P.Cost.CostKind.kind (P.Plant.floor shift.old.below) (lengths areas.old) (closed_list shift.old) 0 calls.now).closed }
    ensures below { shift.new.below ≡ shift.old.below }
    ensures life { closed_list shift.old ≡ [] → Life P.Cost.CostKind.kind (P.Plant.floor shift.old.below) (lengths areas.old) calls.now (take (length calls.now) replies.new) areas.new.routes.now × Held (past calls.now (take (length calls.now) replies.new) (length calls.now)) (closed_list shift.new) }
{
    // a plant that is asked tells that its floor is lawful
    shift.node_count();
    let mut at = 0;
    // by index: after a zip with `iter_mut` a proof knows nothing of what it wrote
    for (i, call) in calls.iter().enumerate() {
        let reply = call_on(shift, *call, at, areas);
        put_reply(replies, i, reply);
        at += nodes_of(reply);
    }
}

// Makes the calls in turn on a shift. Where nothing is closed before them, each reply is right after the calls before it.
pub fn serve_on<P: Plant>(
    shift: &mut Shift<P>,
    calls: &[Call],
    rows: &mut [Row<P::Cost>],
    back_rows: &mut [Row<P::Cost>],
    queue: &mut [Entry<P::Cost>],
    back_queue: &mut [Entry<P::Cost>],
    replies: &mut [Reply<P::Cost>],
    routes: &mut [u32],
) -> Result<(), SearchFault>
    ensures fault { result_err result ≡ replies_fault (length calls.now) (length replies.old) }
    ensures below { shift.new.below ≡ shift.old.below }
    ensures made { MatchResult result (λ _. AllMade (served_from P.Cost.CostKind.kind (P.Plant.floor shift.old.below) (areas (length rows.old) (length queue.old) (length back_rows.old) (length back_queue.old) (length routes.old)) (closed_list shift.old) 0 calls.now) replies.old replies.new routes.old routes.new rows.old rows.new back_rows.old back_rows.new × (closed_list shift.new ≡ (served_from P.Cost.CostKind.kind (P.Plant.floor shift.old.below) (areas (length rows.old) (length queue.old) (length back_rows.old) (length back_queue.old) (length routes.old)) (closed_list shift.old) 0 calls.now).closed)) (λ _. (shift.new ≡ shift.old) × (rows.new ≡ rows.old) × (back_rows.new ≡ back_rows.old) × (queue.new ≡ queue.old) × (back_queue.new ≡ back_queue.old) × (replies.new ≡ replies.old) × (routes.new ≡ routes.old)) }
    ensures life { OnOk result (closed_list shift.old ≡ [] → Life P.Cost.CostKind.kind (P.Plant.floor shift.old.below) (areas (length rows.old) (length queue.old) (length back_rows.old) (length back_queue.old) (length routes.old)) calls.now (take (length calls.now) replies.new) routes.new × Held (past calls.now (take (length calls.now) replies.new) (length calls.now)) (closed_list shift.new)) }
{
    if replies.len() < calls.len() {
        return Err(SearchFault::Replies);
    }
    let mut areas = Areas {
        rows,
        back_rows,
        queue,
        back_queue,
        routes,
    };
    call_all(shift, calls, &mut areas, replies);
    Ok(())
}

// Makes the calls in turn on a fresh shift over `plant`: the life of a shift. Each reply is right after the calls before it.
pub fn serve<P: Plant>(
    plant: &P,
    calls: &[Call],
    rows: &mut [Row<P::Cost>],
    back_rows: &mut [Row<P::Cost>],
    queue: &mut [Entry<P::Cost>],
    back_queue: &mut [Entry<P::Cost>],
    replies: &mut [Reply<P::Cost>],
    routes: &mut [u32],
) -> Result<(), SearchFault>
    ensures fault { result_err result ≡ replies_fault (length calls.now) (length replies.old) }
    ensures made { MatchResult result (λ _. AllMade (served P.Cost.CostKind.kind (P.Plant.floor plant.now) (areas (length rows.old) (length queue.old) (length back_rows.old) (length back_queue.old) (length routes.old)) calls.now) replies.old replies.new routes.old routes.new rows.old rows.new back_rows.old back_rows.new) (λ _. (rows.new ≡ rows.old) × (back_rows.new ≡ back_rows.old) × (queue.new ≡ queue.old) × (back_queue.new ≡ back_queue.old) × (replies.new ≡ replies.old) × (routes.new ≡ routes.old)) }
    ensures life { OnOk result (Life P.Cost.CostKind.kind (P.Plant.floor plant.now) (areas (length rows.old) (length queue.old) (length back_rows.old) (length back_queue.old) (length routes.old)) calls.now (take (length calls.now) replies.new) routes.new) }
{
    let mut shift = Shift::fresh(plant);
    serve_on(
        &mut shift, calls, rows, back_rows, queue, back_queue, replies, routes,
    )
}

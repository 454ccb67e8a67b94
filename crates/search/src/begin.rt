// A side of a search before its first step.
ghost use Rattle.std.specs.Prelude.{◌≡◌, ◌<◌, length};
ghost use Rattle.queue.specs.Held.{count, room};
ghost use Rattle.search.specs.Sides.{IsReady};
ghost use Rattle.search.specs.Steps.{start_rows};

use crate::entry::Entry;
use crate::row::{Row, State};
use crate::rows::blank_all;
use crate::side::Side;
use cost::kind::CostKind;
use plant::lawful::Lawful;
use queue::Queue;

impl<'p, 'r, 's, 'q, P: Lawful> Side<'p, 'r, 's, 'q, P> {
    // Labels `source` with zero, puts it into the empty queue, and makes every other row blank.
    pub fn begin(
        plant: &'p P,
        source: u32,
        target: u32,
        rows: &'r mut [Row<P::Cost>],
        queue: &'s mut Queue<'q, Entry<P::Cost>>,
    ) -> Side<'p, 'r, 's, 'q, P>
        requires rows { length rows.old ≡ (P.Plant.floor plant.now).nodes }
        requires source { source < (P.Plant.floor plant.now).nodes }
        requires empty { count queue.old ≡ 0 }
        requires room { length (P.Plant.floor plant.now).lanes < room queue.old }
        ensures plant { result.plant.now ≡ plant.now }
        ensures source { result.source ≡ source }
        ensures target { result.target ≡ target }
        ensures rows { result.rows.now ≡ start_rows P.Cost.CostKind.kind (P.Plant.floor plant.now) source }
        ensures named { result.rows.ghost_name ≡ rows.entry.ghost_name }
        ensures ready { IsReady result }
    {
        let zero = P::Cost::zero();
        blank_all(rows);
        rows[source as usize] = Row {
            label: zero,
            lane: 0,
            state: State::Labelled,
        };
        let key = zero.join(plant.bound(source, target));
        // there is room
        let _ = queue.push(Entry {
            key,
            label: zero,
            node: source,
        });
        Side {
            plant,
            source,
            target,
            rows,
            queue,
        }
    }
}

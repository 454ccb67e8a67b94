// The tests of a plant's lists that need no index, each total, so that a reader of files can use them too.
ghost use Rattle.std.specs.Prelude.{◌≡◌, ℕ, ◌<◌, Bool, length, if◌then◌else◌, Some, None, slice_index};
ghost use Rattle.std.specs.Result.{result_err};
ghost use Rattle.plants.specs.declared.fault.PlantFault.TheVariants.{Counts, Ends, Cost, Table};
ghost use Rattle.plants.specs.Faults.{counts_fit, ends_fit, cost_fits, table_fits, tail_before, first_failing, or_else};

use crate::fault::PlantFault;

// An entry, 0 past the end.
pub(crate) fn at(xs: &[u32], i: usize) -> u32
    ensures { result ≡ slice_index xs.now i }
{
    xs.get(i).copied().unwrap_or(0)
}

// Whether there are 1 to 4096 nodes, and at most 16384 lanes and 16 landmarks.
pub fn check_counts(nodes: u32, lanes: usize, landmarks: u32) -> Result<(), PlantFault>
    ensures { result_err result ≡ (if counts_fit nodes lanes landmarks then None else Some Counts) }
{
    if (1..=4096).contains(&nodes) && lanes <= 16384 && landmarks <= 16 {
        Ok(())
    } else {
        Err(PlantFault::Counts)
    }
}

// The first number below `n` that does not fit, whatever test `fits` computes.
fn first_failing<F: Fn(usize) -> bool>(n: usize, fits: F) -> Option<usize>
    requires { F.IsAlwaysCallable fits }
    ensures { (test : ℕ → Bool) → ((k : ℕ) (r : Bool) → k < n → F.post fits k r → r ≡ test k) → result ≡ first_failing test 0 n }
{
    (0..n).find(|k| !fits(*k))
}

// The tail of the lane before, 0 before the first.
fn tail_before(tails: &[u32], k: usize) -> u32
    ensures { result ≡ tail_before tails.now k }
{
    k.checked_sub(1).map_or(0, |before| at(tails, before))
}

// Whether the ends of each lane are nodes, and no tail is below the one before. A missing head counts as 0.
pub fn check_ends(nodes: u32, tails: &[u32], heads: &[u32]) -> Result<(), PlantFault>
    ensures { result_err result ≡ or_else (λ k. Ends k) (first_failing (ends_fit nodes tails.now heads.now) 0 (length tails.now)) None }
{
    let failing = first_failing(tails.len(), |k| {
        let tail = at(tails, k);
        let head = at(heads, k);
        tail < nodes && head < nodes && tail_before(tails, k) <= tail
    });
    failing.map_or(Ok(()), |k| Err(PlantFault::Ends(k)))
}

// Whether no lane costs more than a million.
pub fn check_costs(costs: &[u32]) -> Result<(), PlantFault>
    ensures { result_err result ≡ or_else (λ k. Cost k) (first_failing (cost_fits costs.now) 0 (length costs.now)) None }
{
    let failing = first_failing(costs.len(), |k| at(costs, k) <= 1_000_000);
    failing.map_or(Ok(()), |k| Err(PlantFault::Cost(k)))
}

// Whether no lane contradicts the tables of a landmark, of which `to` and `from` are its own part.
pub fn check_landmark(
    landmark: usize,
    tails: &[u32],
    heads: &[u32],
    costs: &[u32],
    to: &[u32],
    from: &[u32],
) -> Result<(), PlantFault>
    ensures { result_err result ≡ or_else (λ k. Table landmark k) (first_failing (table_fits tails.now heads.now costs.now to.now from.now) 0 (length tails.now)) None }
{
    // the greatest number means beyond, so sums are held there
    let failing = first_failing(
        tails.len(),
        |k| -> bool
            ensures { result ≡ table_fits tails.entry.now heads.entry.now costs.entry.now to.entry.now from.entry.now k }
        {
            let tail = at(tails, k) as usize;
            let head = at(heads, k) as usize;
            let cost = at(costs, k);
            let there = cost.saturating_add(at(to, head));
            let back = at(from, tail).saturating_add(cost);
            at(to, tail) <= there && at(from, head) <= back
        },
    );
    failing.map_or(Ok(()), |k| Err(PlantFault::Table(landmark, k)))
}

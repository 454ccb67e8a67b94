// Making a lane plant from lists.
ghost use Rattle.std.specs.Prelude.{◌≡◌, IfOk, MatchResult};
ghost use Rattle.std.specs.Result.{result_err};
ghost use Rattle.plants.specs.Columns.{columns};
ghost use Rattle.plants.specs.Faults.{plant_fault, index_fits};
ghost use Rattle.plants.specs.Lone.{lone_columns};

use crate::check::{check_costs, check_counts, check_ends};
use crate::draft::Draft;
use crate::fault::PlantFault;
use crate::lane_ends::Ends;
use crate::lane_plant::LanePlant;
use crate::lists::Lists;

impl Draft<'_> {
    // The six tests in order, each in time linear in the lists that it reads.
    fn test(self) -> Result<(), PlantFault>
        ensures { result_err result ≡ plant_fault self.entry.nodes self.entry.landmarks (columns self.entry.lists) }
    {
        let lists = self.lists;
        check_counts(self.nodes, lists.tails.len(), self.landmarks)?;
        self.check_lengths()?;
        check_ends(self.nodes, lists.tails, lists.heads)?;
        check_costs(lists.costs)?;
        let tails = Ends {
            nodes: self.nodes,
            list: lists.tails,
        };
        let heads = Ends {
            nodes: self.nodes,
            list: lists.heads,
        };
        if !fits_index(tails, heads, lists) {
            return Err(PlantFault::Index);
        }
        self.check_tables()
    }
}

// Whether the three index lists are those of the tails and heads. The counts are made anew, and each lane is looked up at its place.
fn fits_index(tails: Ends, heads: Ends, lists: Lists) -> bool
    requires nodes { heads.nodes ≡ tails.nodes }
    requires tails { tails.list.now ≡ lists.tails.now }
    requires heads { heads.list.now ≡ lists.heads.now }
    ensures { result ≡ index_fits tails.entry.nodes (columns lists.entry) }
{
    tails.fits_firsts(lists.first_out)
        && heads.fits_firsts(lists.first_in)
        && heads.fits_groups(lists.first_in, lists.by_head)
}

impl<'a> LanePlant<'a> {
    // The plant that the lists make, or the first test that they fail.
    pub fn new(nodes: u32, landmarks: u32, lists: Lists<'a>) -> Result<LanePlant<'a>, PlantFault>
        ensures fault { result_err result ≡ plant_fault nodes landmarks (columns lists.entry) }
        ensures made { IfOk result (λ plant. (plant.nodes ≡ nodes) × (plant.landmarks ≡ landmarks) × (columns plant.lists ≡ columns lists.entry)) }
    {
        let draft = Draft {
            nodes,
            landmarks,
            lists,
        };
        draft.test()?;
        Ok(LanePlant {
            nodes,
            landmarks,
            lists,
        })
    }
}

// Puts the lists into the plant that the caller holds, or leaves it as it was.
pub fn make<'a>(
    plant: &mut LanePlant<'a>,
    nodes: u32,
    landmarks: u32,
    lists: Lists<'a>,
) -> Result<(), PlantFault>
    ensures fault { result_err result ≡ plant_fault nodes landmarks (columns lists.entry) }
    ensures made { MatchResult result (λ _. (plant.new.nodes ≡ nodes) × (plant.new.landmarks ≡ landmarks) × (columns plant.new.lists ≡ columns lists.entry)) (λ _. plant.new ≡ plant.old) }
{
    *plant = LanePlant::new(nodes, landmarks, lists)?;
    Ok(())
}

// A plant of one node and no lane, to make another in its place.
pub fn lone<'a>() -> LanePlant<'a>
    ensures { (result.nodes ≡ 1) × (result.landmarks ≡ 0) × (columns result.lists ≡ lone_columns) }
{
    let none: &[u32] = &[];
    let firsts: &[u32] = &[0, 0];
    let lists = Lists {
        tails: none,
        heads: none,
        costs: none,
        first_out: firsts,
        first_in: firsts,
        by_head: none,
        to: none,
        from: none,
    };
    LanePlant {
        nodes: 1,
        landmarks: 0,
        lists,
    }
}

// The lengths that a plant's lists must have.
ghost use Rattle.std.specs.Prelude.{◌≡◌, if◌then◌else◌, Some, None};
ghost use Rattle.std.specs.Result.{result_err};
ghost use Rattle.plants.specs.declared.fault.PlantFault.TheVariants.{Lengths};
ghost use Rattle.plants.specs.Columns.{columns};
ghost use Rattle.plants.specs.Faults.{index_lengths_fit, lengths_fit};

use crate::draft::Draft;
use crate::fault::PlantFault;

// How long the three index lists are.
#[derive(Clone, Copy, PartialEq, Eq)]
pub(crate) struct IndexLengths {
    pub(crate) outs: usize,
    pub(crate) ins: usize,
    pub(crate) by: usize,
}

impl IndexLengths {
    // Whether there are as many heads as lanes, and an index of theirs is so long.
    pub(crate) fn fit(self, nodes: u32, lanes: usize, heads: usize) -> bool
        ensures { result ≡ index_lengths_fit nodes lanes heads self.outs self.ins self.by }
    {
        let firsts = nodes as usize + 1;
        let fitting = IndexLengths {
            outs: firsts,
            ins: firsts,
            by: lanes,
        };
        heads == lanes && self == fitting
    }
}

impl Draft<'_> {
    pub(crate) fn check_lengths(self) -> Result<(), PlantFault>
        ensures { result_err result ≡ (if lengths_fit self.entry.nodes self.entry.landmarks (columns self.entry.lists) then None else Some Lengths) }
    {
        let lists = self.lists;
        let lanes = lists.tails.len();
        let size = self.landmarks as usize * self.nodes as usize;
        let index = IndexLengths {
            outs: lists.first_out.len(),
            ins: lists.first_in.len(),
            by: lists.by_head.len(),
        };
        if index.fit(self.nodes, lanes, lists.heads.len())
            && lists.costs.len() == lanes
            && lists.to.len() == size
            && lists.from.len() == size
        {
            Ok(())
        } else {
            Err(PlantFault::Lengths)
        }
    }
}

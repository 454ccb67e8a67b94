// Testing the tables of every landmark.
ghost use Rattle.std.specs.Prelude.{◌≡◌, ◌*◌, ◌<◌, length};
ghost use Rattle.std.specs.Result.{result_err};
ghost use Rattle.plants.specs.Columns.{columns};
ghost use Rattle.plants.specs.Faults.{table_fault};

use crate::check::check_landmark;
use crate::draft::Draft;
use crate::fault::PlantFault;

impl Draft<'_> {
    pub(crate) fn check_tables(self) -> Result<(), PlantFault>
        requires some { 0 < self.nodes }
        requires to { length self.lists.to.now ≡ self.landmarks * self.nodes }
        requires from { length self.lists.from.now ≡ self.landmarks * self.nodes }
        ensures { result_err result ≡ table_fault self.entry.nodes (columns self.entry.lists) 0 self.entry.landmarks }
    {
        let lists = self.lists;
        let to = lists.to.chunks_exact(self.nodes as usize);
        let from = lists.from.chunks_exact(self.nodes as usize);
        for (landmark, (to, from)) in to.zip(from).enumerate() {
            check_landmark(landmark, lists.tails, lists.heads, lists.costs, to, from)?;
        }
        Ok(())
    }
}

// The tails or the heads of lanes, once the tests have passed.
ghost use Rattle.std.specs.Prelude.{◌≤◌, length};
ghost use Rattle.plants.specs.Tally.{Within};

// One end of each lane, by lane number: nodes, which can be counted and grouped.
#[derive(Clone, Copy)]
pub(crate) struct Ends<'a> {
    pub(crate) nodes: u32,
    pub(crate) list: &'a [u32],
    ghost small: { nodes ≤ 4096 },
    ghost few: { length list.now ≤ 16384 },
    ghost within: { Within nodes list.now },
}

// The lists that a plant is read into; they belong to the caller, and are slices since the reader takes no memory.
ghost use Rattle.std.specs.Prelude.{◌≡◌};
ghost use Rattle.format.specs.Space.{held, space_of};

use crate::counts::Space;
use plants::lists::ListsOf;

// Room for a plant's lists, each at least as long as the plant needs.
pub type ListsMut<'a> = ListsOf<&'a mut [u32]>;

// The length of the shortest list of each kind.
pub(crate) fn space(lists: &ListsMut) -> Space
    ensures { result ≡ space_of (held lists.now) }
{
    Space {
        lanes: lists
            .tails
            .len()
            .min(lists.heads.len())
            .min(lists.costs.len())
            .min(lists.by_head.len()),
        firsts: lists.first_out.len().min(lists.first_in.len()),
        tables: lists.to.len().min(lists.from.len()),
    }
}

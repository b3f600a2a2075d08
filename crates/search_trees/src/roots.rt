// The last root.
ghost use Rattle.std.specs.Prelude.{◌≡◌, ◌<◌, All, length};
ghost use Rattle.search_trees.specs.Roots.{IsLaterRoot, IsLastOf};

use branch_bound::{Frontier, Visit};
use node_pick::NodeInfo;
use search_paths::Paths;

// The greater of the number of a root and that of a node, if this is a root.
fn later(paths: &Paths, last: usize, number: usize) -> usize
    requires { number < length paths.now.paths }
    ensures { IsLaterRoot paths.now.paths last number result }
{
    if last < number && paths.last_part(number).is_none() {
        return number;
    }
    last
}

/// The greatest number of a root, of nodes that were opened or wait.
pub(crate) fn last_root(frontier: &Frontier) -> usize
    requires opened { All (λ v. v.number < length frontier.now.paths.paths) frontier.now.opened.items }
    requires waiting { All (λ i. i.number < length frontier.now.paths.paths) frontier.now.waiting.items }
    ensures { IsLastOf frontier.now result }
{
    let mut last = 0;
    let opened: &[Visit] = &frontier.opened;
    for visit in opened {
        last = later(&frontier.paths, last, visit.number as usize);
    }
    let waiting: &[NodeInfo] = &frontier.waiting;
    for info in waiting {
        last = later(&frontier.paths, last, info.number as usize);
    }
    last
}

ghost use Rattle.std.specs.Prelude.{◌≡◌};
ghost use Rattle.search_paths.specs.Origins.{held_part, IsNarrowOrigin};

use crate::part::Part;

/// A root, or the lower or the upper part of a parent.
#[derive(Clone, Copy)]
pub(crate) enum Side {
    Root,
    Lower,
    Upper,
}

/// Where a node comes from: of a part the parent, the decision and the floor; in the place of a root's parent stands 0. It takes 32 bytes.
#[derive(Clone, Copy)]
pub(crate) struct Origin {
    pub parent: usize,
    pub decision: u16,
    pub side: Side,
    pub floor: i128,
}

/// The part that the node is of its parent; a root is none.
pub(crate) fn part_of(origin: &Origin) -> Option<Part>
    requires { IsNarrowOrigin origin.now }
    ensures { result ≡ held_part origin.now }
{
    match origin.side {
        Side::Root => None,
        Side::Lower => Some(Part::lower(origin.decision, origin.floor)),
        Side::Upper => Some(Part::upper(origin.decision, origin.floor)),
    }
}

ghost use Rattle.std.specs.Prelude.{◌≡◌, ◌<◌, ◌+◌, ◌^◌, MatchResult, ℕ};
ghost use Rattle.dictionaries.specs.Dictionary.{pivoted};
ghost use Rattle.dictionaries.specs.Narrow.{IsNarrowPivot};
ghost use Rattle.dictionaries.specs.Run.{IsReached};
ghost use Rattle.search_ends.specs.Ends.{IsNext};
ghost use Rattle.branch_bound.specs.Steps.{IsPivoted};

use frac128::Frac;
use lin_model::BoundBox;
use linear_programs::Standard;
use node_pick::NodeInfo;
use search_ends::Pivot;
use simplex::make_pivot;
use tableau::Dict;

/// The node that is worked on, the pivots made in it, its box, its program and the dictionary that they have led to, with its next
/// pivot, which `settle` writes, and room for a point and a direction.
#[derive(Drop)]
pub(crate) struct Work {
    pub info: NodeInfo,
    pub pivots: u32,
    pub within: BoundBox,
    pub program: Standard,
    pub dict: Dict,
    pub next: Pivot,
    pub point: Vec<Frac>,
    pub direction: Vec<Frac>,
}

/// Makes the next pivot of the node; where it is not narrow, nothing changes, and its row and column are told.
pub(crate) fn pivot(work: &mut Work) -> Result<(), Pivot>
    requires reached { IsReached work.old.program work.old.dict }
    requires next { IsNext work.old.dict work.old.next }
    requires small { work.old.pivots + 1 < 2 ^ 32 }
    ensures made { MatchResult result (λ _. IsPivoted work.old work.new) (λ e. (work.new ≡ work.old)
        × IsNext work.old.dict e × ¬ (IsNarrowPivot work.old.dict e.row e.column)) }
    ensures reached { IsReached work.new.program work.new.dict }
{
    let next = work.next;
    match make_pivot(&work.program, &mut work.dict, next.row, next.column) {
        Ok(()) => {
            work.pivots += 1;
            Ok(())
        }
        Err(_) => Err(next),
    }
}

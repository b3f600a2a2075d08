// Groups of decisions.
ghost use Rattle.std.specs.Prelude.{◌≡◌, IfOk};
ghost use Rattle.linear_models.specs.Statement.{is_grouped, is_in};
ghost use Rattle.lin_model.specs.Lists.{lists_of};

use memory::Memory;
use std::alloc::Global;

/// Whether the decision is in the list.
pub fn is_in(decision: u16, list: &[u16]) -> bool
    ensures { result ≡ is_in decision list.now }
{
    list.iter().any(|other| *other == decision)
}

/// Whether the decision is in one of the groups.
pub(crate) fn is_grouped(decision: u16, groups: &[Vec<u16>]) -> bool
    ensures { result ≡ is_grouped decision (lists_of groups.now) }
{
    for group in groups {
        if is_in(decision, group) {
            return true;
        }
    }
    false
}

/// Equal groups.
pub(crate) fn copy_groups(alloc: Global, groups: &[Vec<u16>]) -> Result<Vec<Vec<u16>>, Memory>
    ensures { IfOk result (λ copies. lists_of copies.items ≡ lists_of groups.now) }
{
    let mut copies = Vec::new(alloc);
    for group in groups {
        copies.push(Vec::from_slice(alloc, group)?)?;
    }
    Ok(copies)
}

// The lines of decisions that are to be different.
ghost use Rattle.std.specs.Prelude.{◌≡◌, ◌++◌, All, OnOk, length, map, string_bytes};
ghost use Rattle.model_lines.specs.Ended.{ended};
ghost use Rattle.model_lines.specs.Groups.{AreDecisions, AreGroups, groups_of};
ghost use Rattle.model_lines.specs.Lines.{group_line, members_text};
ghost use Rattle.cell_refs.specs.Listed.{IsListed};

use crate::decisions::print_decision;
use cell_refs::{Cell, SheetNames};
use memory::Memory;

// Appends the cells of a group, each behind a blank.
fn print_members(
    group: &[u16],
    cells: &[Cell],
    sheets: &SheetNames,
    to: &mut String,
) -> Result<(), Memory>
    requires listed { All (IsListed sheets.now) cells.now }
    requires within { AreDecisions (length cells.now) group.now }
    ensures { OnOk result (string_bytes to.new
        ≡ string_bytes to.old ++ members_text sheets.now cells.now group.now) }
{
    let [member, others @ ..] = group else {
        return Ok(());
    };
    to.push_str(" ")?;
    print_decision(*member, cells, sheets, to)?;
    print_members(others, cells, sheets, to)
}

// Appends the line of a group, without its end.
fn print_group(
    group: &[u16],
    cells: &[Cell],
    sheets: &SheetNames,
    to: &mut String,
) -> Result<(), Memory>
    requires listed { All (IsListed sheets.now) cells.now }
    requires within { AreDecisions (length cells.now) group.now }
    ensures { OnOk result (string_bytes to.new
        ≡ string_bytes to.old ++ group_line sheets.now cells.now group.now) }
{
    to.push_str("different")?;
    print_members(group, cells, sheets, to)
}

/// Appends the line of each group, with its end.
pub(crate) fn print_groups(
    groups: &[Vec<u16>],
    cells: &[Cell],
    sheets: &SheetNames,
    to: &mut String,
) -> Result<(), Memory>
    requires listed { All (IsListed sheets.now) cells.now }
    requires within { AreGroups (length cells.now) (groups_of groups.now) }
    ensures { OnOk result (string_bytes to.new ≡ string_bytes to.old
        ++ ended (map (group_line sheets.now cells.now) (groups_of groups.now))) }
{
    let [group, groups @ ..] = groups else {
        return Ok(());
    };
    print_group(group, cells, sheets, to)?;
    to.push_str("\n")?;
    print_groups(groups, cells, sheets, to)
}

//! The forms of the formula cells of a workbook over some cells to be decided, and those of sides, each made once and kept.
//! The main type is `Forms`. `settle` makes the forms that are missing, each cell after those to which it refers and then the sides. `mark`
//! drops the forms of the places that an edit of a cell touches. `refusal` tells why there is no model, if there is none.
//! Below it stand `needed_forms` and `kept_marks`, which says what an edit leaves. Above it stands `kept_forms`.
//! This is incremental computation: what an edit does not touch is not made again. `keeping_laws` says that what is kept stays right.
#![tactic(auto)]

mod circles;
mod forms;
mod marking;
mod settle;
mod stale;

ghost use Rattle.extract_incr.specs.Laws.{EditsLeaveKept};

pub use forms::Forms;
pub use needed_forms::{FormRefusal, Steps};

/// What is kept stays right while cells are edited, where each edited cell is marked that isn't to be decided.
pub fn keeping_laws()
    ensures edits { EditsLeaveKept }
{}

// The answers to commands.
ghost use Rattle.std.specs.Prelude.{◌≡◌, List, ℕ};
ghost use Rattle.commands.specs.Lines.{is_refusal};

use crate::price_lines::PriceLines;
use crate::save_file::SaveFile;
use cell_refs::Cell;
use certificate_texts::Cert;
use form_needs::FormRefusal;
use frac128::Frac;
use model_lines::ModelLines;
use sheet_model::Value;
use solver_names::NamesFault;

/// A step of the path to a node of a search: the cell whose bound it sets, whether the part is the upper one, and the bound.
#[derive(Clone, Copy, Debug, PartialEq, Eq)]
pub struct PathStep {
    pub cell: Cell,
    pub upper: bool,
    pub bound: i128,
}

/// What a command answers.
#[derive(Drop)]
pub enum Answer {
    Done,
    Shown(Value),
    /// The linear model of a sheet.
    Model(ModelLines),
    /// The best value of the objective, where the sheet has one.
    Optimal(Option<Frac>),
    Infeasible,
    /// There is no best value.
    Unbounded,
    /// The best value, and the prices of the rows.
    Prices(PriceLines),
    /// What a search finds, with the tree, or the point and the direction, that proves it.
    Cert(Cert),
    /// A search is opened.
    Begun,
    /// A search goes further, and has spent so many units in all.
    More(u64),
    /// A search is closed.
    Stopped,
    /// The files that have changed, in the order in which they are written.
    ToSave(Vec<SaveFile>),
    UnknownCommand,
    BadAddress,
    UnknownSheet,
    OutOfSheet,
    BadNumber,
    BadName,
    FieldTooLong,
    TooManyCells,
    TooManyFormulas,
    TooManyNames,
    /// A number in the calculation of this cell does not fit 128 bits.
    WideCell(Cell),
    /// The sheet has no open search.
    NoSearch,
    /// As many other sheets as may have an open search.
    TooManySearches,
    /// The first fault in the names of the sheet.
    Names(NamesFault),
    /// The first reason, after its names, why the sheet has no linear model.
    Form(FormRefusal),
    /// The difference of the sides of this row, from 1, does not fit 128 bits.
    WideRow(u16),
    /// Prices are asked for, and there is no objective, or it is to reach a value.
    NoObjective,
    /// Prices are asked for, and this decision cell, the first such one, is to be whole.
    NotContinuous(Cell),
    /// A number of a pivot does not fit 128 bits: the path to the node, its basic variables, and the variables that leave
    /// and enter.
    WidePivot(Vec<PathStep>, Vec<u16>, u16, u16),
    /// So many units were not enough.
    Budget(u64),
    /// A number on the way to the price of this row, from 1, or to an end of its range does not fit 128 bits.
    WideRange(u16),
    /// The leaves of the tree and the rows of their programs are so many in all, above 100,000: no certificate is made.
    CertLimit(u64),
    /// There is no room for the text of this cell.
    NoRoom(Cell),
}

impl Answer {
    /// Whether it is a refusal.
    #[tactic(auto, using(crate::proofs::Saying::not_refused, crate::proofs::Saying::prices_not_refused, crate::proofs::Certificates::not_refused))]
    pub fn is_refusal(&self) -> bool
        ensures { (sheets : List (List ℕ)) → result ≡ is_refusal sheets self.now }
    {
        match self {
            Answer::Done | Answer::Shown(_) | Answer::Model(_) => false,
            Answer::Optimal(_) | Answer::Infeasible | Answer::Unbounded => false,
            Answer::Prices(_) | Answer::Cert(_) => false,
            Answer::Begun | Answer::More(_) | Answer::Stopped => false,
            Answer::ToSave(_) => false,
            _ => true,
        }
    }
}

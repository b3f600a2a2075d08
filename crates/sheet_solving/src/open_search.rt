// Searches that can be cut and gone on with.
ghost use Rattle.std.specs.Prelude.{◌≡◌, ◌≤◌, IfOk};
ghost use Rattle.branch_bound.specs.Searches.{HasTrail};
ghost use Rattle.sheet_solving.specs.Searches.{begun};

use branch_bound::{Progress, Search};
use lin_model::LinModel;
use memory::Memory;
use std::alloc::Global;
use std::marker::Model;

/// An open search of a model. Where it has ended, its answer is kept, so that an optimum that couldn't be written for want of memory
/// isn't lost.
#[derive(Drop)]
pub struct OpenSearch {
    pub(crate) search: Search,
    pub(crate) end: Option<Progress>,
}

impl Model for OpenSearch {
    ghost use Rattle.sheet_solving.specs.Inner.{IsKept, opened_of};
    ghost use Rattle.sheet_solving.specs.Searches.{Opened};

    ghost Value = { Opened };

    ghost view = { λ s. opened_of s.search };

    ghost invariant = { λ s. IsKept s.search s.end };
}

impl OpenSearch {
    /// A search of the model that has spent no unit. How many it may spend is said at each slice.
    pub fn begin(alloc: Global, model: LinModel) -> Result<OpenSearch, Memory>
        ensures { IfOk result (λ s. s ≡ begun model) }
    {
        let search = Search::begin(alloc, model, 0)?;
        Ok(OpenSearch { search, end: None })
    }

    /// The model that is searched.
    pub fn model(&self) -> &LinModel
        ensures { result.now ≡ self.now.model }
    {
        self.search.model()
    }

    /// The units that were spent: openings of nodes and pivots.
    pub fn units(&self) -> u64
        ensures value { result ≡ self.now.units }
        ensures few { result ≤ 1000000 }
        ensures trail { HasTrail self.now.model self.now.units self.now.state }
    {
        self.search.units()
    }
}

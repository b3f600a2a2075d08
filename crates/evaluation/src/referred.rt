// References in parts of formulas.
ghost use Rattle.std.specs.Prelude.{◌≡◌, ◌<◌, IfOk, length};
ghost use Rattle.recalculation.specs.Evaluation.{grid_of_areas};

use cell_grids::Reference;
use cell_refs::Area;
use sheet_model::Memory;
use std::alloc::Global;
use std::marker::Model;

/// A reference as its areas, at least one. Its cells are listed only where they are asked for.
#[derive(Drop)]
pub(crate) struct Referred {
    areas: Vec<Area>,
}

impl Model for Referred {
    ghost use Rattle.std.specs.Prelude.{◌<◌, length};
    ghost use Rattle.recalculation.specs.Evaluation.{CellGrid, grid_of_areas};

    ghost Value = { CellGrid };

    ghost view = { λ r. grid_of_areas r.areas.items };

    ghost invariant = { λ r. 0 < length r.areas.items };
}

impl Referred {
    /// A reference to some areas.
    pub(crate) fn new(alloc: Global, areas: &[Area]) -> Result<Referred, Memory>
        requires { 0 < length areas.now }
        ensures { IfOk result (λ referred. referred ≡ grid_of_areas areas.now) }
    {
        let areas = Vec::from_slice(alloc, areas)?;
        Ok(Referred { areas })
    }

    /// Its cells in rows and columns; out of memory where there are too many.
    pub(crate) fn grid(&self, alloc: Global) -> Result<Reference, Memory>
        ensures { IfOk result (λ grid. grid ≡ self.now) }
    {
        Reference::of_areas(alloc, &self.areas)
    }
}

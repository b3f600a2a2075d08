ghost use Rattle.std.specs.Prelude.{◌≡◌, ◌<◌, ◌≤◌, ◌+◌, ◌↔◌, ℕ, IfErr, IfOk, OnOk, IsTrue, None, true, false};
ghost use Rattle.node_pick.specs.Messages.{Hears};
ghost use Rattle.searches.specs.Trails as trails;
ghost use Rattle.branch_bound.specs.Searches.{HasEnded, HasTrail, IsStepStop};
ghost use Rattle.branch_bound.specs.States.{state_of};
ghost use Rattle.branch_bound.specs.Ends.{IsAnswerOf};
ghost use Rattle.branch_bound.specs.Told.{Grew, HearsStop, IsStopOf};

use crate::answer::end_of_search;
use crate::frontier::Frontier;
use crate::opening::open;
use crate::over::is_over;
use crate::progress::{Progress, SearchStop};
use crate::settle::settle;
use crate::wide::wide;
use crate::work::{Work, pivot};
use frac128::Frac;
use lin_model::LinModel;
use memory::Memory;
use node_pick::{NodeInfo, Picker};
use search_paths::Paths;
use std::alloc::Global;
use std::marker::Model;

/// Why a unit is not made: its pivot, at this row and column, is not narrow, or there is no memory.
#[derive(Clone, Copy)]
pub(crate) enum StepStop {
    Wide(u16, u16),
    Memory,
}

/// Room for the point and the direction of the answer.
#[derive(Drop)]
pub(crate) struct Room {
    pub point: Vec<Frac>,
    pub direction: Vec<Frac>,
}

/// A search for the best whole point of a model. It can be stopped after each unit and gone on with later. A node is held
/// as its parent and the part that it is of it, and a node that has ended with its pivots, so that what has been done can
/// be told from what is held.
#[derive(Drop)]
pub struct Search {
    model: LinModel,
    budget: u64,
    units: u64,
    frontier: Frontier,
    work: Option<Work>,
    room: Option<Room>,
}

impl Model for Search {
    ghost use Rattle.branch_bound.specs.Searches.{Held};
    ghost use Rattle.branch_bound.specs.Fields.{held_of, IsHeld};

    ghost Value = { Held };

    ghost view = { held_of };

    ghost invariant = { IsHeld };
}

impl Search {
    /// A search of the model that has opened no node, and may spend so many units.
    pub fn begin(alloc: Global, of: LinModel, budget: u64) -> Result<Search, Memory>
        requires { budget ≤ 1000000 }
        ensures { IfOk result (λ s. s ≡ record {
          model = of;
          budget = budget;
          units = 0;
          state = trails.start;
          answered = false;
        }) }
    {
        let mut paths = Paths::new(alloc);
        paths.reserve(1)?;
        paths.push_root();
        let mut waiting = Vec::new(alloc);
        waiting.push(NodeInfo {
            number: 0,
            depth: 0,
            bound: None,
        })?;
        let decisions = of.whole().len();
        let room = Room {
            point: vec![in alloc; Frac::zero(); decisions]?,
            direction: vec![in alloc; Frac::zero(); decisions]?,
        };
        let frontier = Frontier {
            paths,
            opened: Vec::new(alloc),
            waiting,
            found: None,
            way: None,
        };
        Ok(Search {
            model: of,
            budget,
            units: 0,
            frontier,
            work: None,
            room: Some(room),
        })
    }

    /// The model that is searched.
    pub fn model(&self) -> &LinModel
        ensures { result.now ≡ self.now.model }
    {
        &self.model
    }

    /// The units spent: openings of nodes and pivots.
    pub fn units(&self) -> u64
        ensures value { result ≡ self.now.units }
        ensures few { result ≤ 1000000 }
        ensures trail { HasTrail self.now.model self.now.units self.now.state }
    {
        self.units
    }

    /// What is kept of its nodes.
    pub fn frontier(&self) -> &Frontier
        ensures { record self.now.state { work = None } ≡ state_of result.now None }
    {
        &self.frontier
    }

    /// Sets how many units may be spent in all.
    pub fn set_budget(&mut self, budget: u64)
        requires { budget ≤ 1000000 }
        ensures { self.new ≡ record self.old { budget = budget } }
    {
        self.budget = budget;
    }

    // The units that may be spent in all.
    pub(crate) fn budget(&self) -> u64
        ensures value { result ≡ self.now.budget }
        ensures few { result ≤ 1000000 }
    {
        self.budget
    }

    // Whether no leaf is open.
    pub(crate) fn has_ended(&self) -> bool
        ensures { IsTrue result ↔ HasEnded self.now }
    {
        if self.work.is_some() {
            return false;
        }
        is_over(&self.model, &self.frontier)
    }

    // One unit: the next pivot of the node that is worked on, or else the opening of a node.
    pub(crate) fn step(&mut self, pick: &mut Box<dyn Picker>) -> Result<(), StepStop>
        requires open { ¬ (HasEnded self.old) }
        requires units { self.old.units < 1000000 }
        ensures ok { OnOk result (Grew self.old.model (rule pick.old) self.old.state self.new.state
            (Hears (heard pick.old) (heard pick.new))) }
        ensures counted { OnOk result (self.new.units ≡ self.old.units + 1) }
        ensures same { (self.new.model ≡ self.old.model)
            × (self.new.budget ≡ self.old.budget) × (self.new.answered ≡ self.old.answered) }
        ensures stop { IfErr result (λ e. (self.new ≡ self.old) × IsStepStop self.new.state e) }
        ensures heard { IfErr result (HearsStop (heard pick.old) (heard pick.new) self.old.state) }
        ensures rule { rule pick.new ≡ rule pick.old }
    {
        match self.work.take() {
            Some(work) => {
                let mut work = work;
                match pivot(&mut work) {
                    Ok(()) => {
                        self.units += 1;
                        self.work = settle(&self.model, &mut self.frontier, work, pick);
                        Ok(())
                    }
                    Err(next) => {
                        self.work = Some(work);
                        Err(StepStop::Wide(next.row, next.column))
                    }
                }
            }
            None => match open(&self.model, &mut self.frontier, pick) {
                Ok(work) => {
                    self.units += 1;
                    self.work = settle(&self.model, &mut self.frontier, work, pick);
                    Ok(())
                }
                Err(_) => Err(StepStop::Memory),
            },
        }
    }

    // The answer of a search that has ended.
    pub(crate) fn answer(&mut self) -> Progress
        requires ended { HasEnded self.old }
        requires not_given { self.old.answered ≡ false }
        ensures answer { IsAnswerOf self.new result }
        ensures same { self.new ≡ record self.old { answered = true } }
    {
        let _valid = self.model.whole();
        match self.room.take() {
            None => unreachable!(),
            Some(room) => end_of_search(&self.model, &self.frontier, room),
        }
    }

    // Why a unit is not made, with what tells it.
    pub(crate) fn stop_of(&self, stop: StepStop) -> SearchStop
        requires { IsStepStop self.now.state stop }
        ensures { IsStopOf self.now result }
    {
        let alloc = *self.frontier.waiting.allocator();
        match stop {
            StepStop::Memory => SearchStop::Memory,
            StepStop::Wide(row, col) => match &self.work {
                None => unreachable!(),
                Some(work) => match wide(alloc, &self.frontier.paths, work, row, col) {
                    Ok(told) => told,
                    Err(_) => SearchStop::Memory,
                },
            },
        }
    }
}

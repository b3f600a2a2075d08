ghost use Rattle.std.specs.Prelude.{◌≡◌, ◌<◌, ◌≤◌, ◌+◌, ◌++◌, ◌∷◌, [], List, length, IfOk, MatchOption, OnErr, OnOk, slice_index_or};
ghost use Rattle.searches.specs.Trees as trees;
ghost use Rattle.searches.specs.Trees.{box_along};
ghost use Rattle.search_paths.specs.Tables.{HasRoom, path_at};

use crate::origin::{Origin, Side, part_of};
use crate::part::Part;
use crate::walk::{Walk, begin, copy_box, lead, nowhere};
use lin_model::BoundBox;
use memory::Memory;
use std::alloc::Global;
use std::marker::Model;

/// The paths of nodes, numbered from 0. A node is held as its parent and the part that it is of it, so that each takes the same room however long its path.
/// The box of one node is kept, with a bound for each part of its path, and is led to others.
#[derive(Drop)]
pub struct Paths {
    origins: Vec<Origin>,
    walk: Walk,
}

impl Model for Paths {
    ghost use Rattle.search_paths.specs.Tables.{Table, table_of};
    ghost use Rattle.search_paths.specs.Walks.{IsHeld};

    ghost Value = { Table };

    ghost view = { table_of };

    ghost invariant = { IsHeld };
}

impl Paths {
    /// No paths.
    pub fn new(alloc: Global) -> Paths
        ensures { result.paths ≡ [] }
    {
        Paths {
            origins: Vec::new(alloc),
            walk: nowhere(alloc),
        }
    }

    /// How many there are.
    pub fn len(&self) -> usize
        ensures { result ≡ length self.now.paths }
    {
        self.origins.len()
    }

    /// Makes room for so many more.
    pub fn reserve(&mut self, count: usize) -> Result<(), Memory>
        ensures same { self.new.paths ≡ self.old.paths }
        ensures room { OnOk result (HasRoom self.new count) }
    {
        self.origins.reserve(count)?;
        Ok(())
    }

    /// Adds the path of a root, which has no part.
    pub fn push_root(&mut self)
        requires { HasRoom self.old 1 }
        ensures { self.new ≡ record { paths = self.old.paths ++ [] ∷ []; room = self.old.room } }
    {
        self.origins.push_reserved(Origin {
            parent: 0,
            decision: 0,
            side: Side::Root,
            floor: 0,
        });
    }

    /// Adds the path of a part of a node that is there.
    pub fn push_part(&mut self, parent: usize, part: Part)
        requires room { HasRoom self.old 1 }
        requires parent { parent < length self.old.paths }
        ensures { self.new ≡ record {
          paths = self.old.paths ++ (path_at self.old parent ++ part ∷ []) ∷ [];
          room = self.old.room;
        } }
    {
        self.origins.push_reserved(part.origin(parent));
    }

    /// The path of a node, from the root on.
    pub fn path(&self, alloc: Global, number: usize) -> Result<Vec<Part>, Memory>
        requires { number < length self.now.paths }
        ensures { IfOk result (λ v. v.items ≡ path_at self.now number) }
    {
        let mut made = Vec::new(alloc);
        let mut at = number;
        while let Some(part) = part_of(&self.origins[at]) {
            made.push(part)?;
            at = self.origins[at].parent;
        }
        made.reverse();
        Ok(made)
    }

    /// The last part of a node's path; a root has none.
    pub fn last_part(&self, number: usize) -> Option<Part>
        requires { number < length self.now.paths }
        ensures { MatchOption result (path_at self.now number ≡ []) (λ part. (before : List trees.Part)
            × (path_at self.now number ≡ before ++ part ∷ [])) }
    {
        part_of(&self.origins[number])
    }

    /// The same paths, with a box of their own.
    pub fn copy(&self, alloc: Global) -> Result<Paths, Memory>
        ensures { IfOk result (λ t. t.paths ≡ self.now.paths) }
    {
        Ok(Paths {
            origins: Vec::from_slice(alloc, &self.origins)?,
            walk: nowhere(alloc),
        })
    }

    /// The box of a node, where the roots have that one: it takes as many steps as there are parts between the node and
    /// that of the call before, and as many as there are parts in the path where the roots had another box then.
    pub fn box_of(
        &mut self,
        alloc: Global,
        root: &BoundBox,
        number: usize,
    ) -> Result<BoundBox, Memory>
        requires { number < length self.old.paths }
        ensures made { IfOk result (λ b. b ≡ box_along root.now (path_at self.old number)) }
        ensures same { self.new ≡ self.old }
    {
        begin(alloc, &mut self.walk, root)?;
        lead(alloc, &mut self.walk, &self.origins, number)?;
        copy_box(alloc, &self.walk)
    }
}

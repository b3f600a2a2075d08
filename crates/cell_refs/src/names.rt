// The names of the sheets.
ghost use Rattle.std.specs.Prelude.{◌≡◌, ◌≢◌, ◌<◌, ◌++◌, ◌∷◌, ◌↔◌, [], ℕ, length, IfSome, IfNone, IfOk, OnErr, IsErrOf, IsOk, IsTrue, slice_get, Some, map, option_map, string_bytes, ◌≤◌};
ghost use Rattle.cell_refs.specs.Names.{IsNamed, place_in};

use crate::{Memory, SHEETS, SheetId};
use std::alloc::Global;
use std::marker::Model;
use thiserror::Error;

/// Why a sheet is not added. A name that is taken comes before sheets that are full.
#[derive(Clone, Copy, Debug, PartialEq, Eq, Error)]
pub enum NameFault {
    #[error("a sheet has this name")]
    Taken,
    #[error("there are too many sheets")]
    Full,
    #[error("out of memory")]
    Memory,
}

/// The names of the sheets, in their order. No two are the same but for the case of their ASCII letters.
#[derive(Drop)]
pub struct SheetNames {
    names: Vec<String>,
}

impl Model for SheetNames {
    ghost use Rattle.std.specs.Prelude.{◌≤◌, List, ℕ, length, map, string_bytes};
    ghost use Rattle.cell_refs.specs.declared.limits.TheConstants.{SHEETS};

    ghost Value = { List (List ℕ) };

    ghost use Rattle.cell_refs.specs.Names.{AreDistinct};

    ghost view = { λ s. map string_bytes s.names.items };

    ghost invariant = { λ s. (length s.names.items ≤ SHEETS)
        × AreDistinct (map string_bytes s.names.items) };
}

impl SheetNames {
    pub fn new(alloc: Global) -> SheetNames
        ensures { result ≡ [] }
    {
        SheetNames {
            names: Vec::new(alloc),
        }
    }

    pub fn len(&self) -> usize
        ensures count { result ≡ length self.now }
        ensures most { result ≤ SHEETS }
    {
        self.names.len()
    }

    pub fn is_empty(&self) -> bool
        ensures { IsTrue result ↔ (self.now ≡ []) }
    {
        self.names.is_empty()
    }

    /// Adds a sheet of this name behind the others.
    pub fn add(&mut self, name: &str) -> Result<SheetId, NameFault>
        ensures ok { IfOk result (λ id. (id.0 ≡ length self.old)
            × (self.new ≡ self.old ++ name.now ∷ [])) }
        ensures taken { IsErrOf result NameFault.Taken ↔ ((id : ℕ) × IsNamed self.old name.now id) }
        ensures full { IsErrOf result NameFault.Full ↔
            (((id : ℕ) → ¬ (IsNamed self.old name.now id)) × (length self.old ≡ SHEETS)) }
        ensures err { OnErr result (self.new ≡ self.old) }
    {
        if self.find(name).is_some() {
            return Err(NameFault::Taken);
        }
        let count = self.names.len();
        if count >= SHEETS {
            return Err(NameFault::Full);
        }
        let alloc = *self.names.allocator();
        let Ok(name) = String::from_str(alloc, name) else {
            return Err(NameFault::Memory);
        };
        let Ok(()) = self.names.push(name) else {
            return Err(NameFault::Memory);
        };
        Ok(SheetId(count as u8))
    }

    /// A copy.
    pub fn copy(&self) -> Result<SheetNames, Memory>
        ensures { IfOk result (λ copy. copy ≡ self.now) }
    {
        let names = copies(*self.names.allocator(), &self.names)?;
        Ok(SheetNames { names })
    }

    /// The name of a sheet.
    pub fn at(&self, id: SheetId) -> &str
        requires { id.0 < length self.now }
        ensures { slice_get self.now id.0 ≡ Some result.now }
    {
        &self.names[id.0 as usize]
    }

    /// The sheet of this name, whatever the case of its ASCII letters.
    #[tactic(auto, using(crate::proofs::Places::told))]
    pub fn find(&self, name: &str) -> Option<SheetId>
        ensures found { IfSome result (λ id. IsNamed self.now name.now id.0) }
        ensures only { IfSome result (λ id. (other : ℕ) → IsNamed self.now name.now other
            → other ≡ id.0) }
        ensures none { IfNone result ((id : ℕ) → ¬ (IsNamed self.now name.now id)) }
        ensures place { option_map (λ id. id.0) result ≡ place_in self.now name.now }
    {
        let Some(place) = place_of(&self.names, name) else {
            return None;
        };
        Some(SheetId(place as u8))
    }
}

// Each name once more.
fn copies(alloc: Global, names: &[String]) -> Result<Vec<String>, Memory>
    ensures { IfOk result (λ v. map string_bytes v.items ≡ map string_bytes names.now) }
{
    let mut made = Vec::new(alloc);
    for name in names {
        made.push(String::from_str(alloc, name.as_str())?)?;
    }
    Ok(made)
}

// The first place of a name that is the same but for case.
fn place_of(names: &[String], name: &str) -> Option<usize>
    ensures found { IfSome result (IsNamed (map string_bytes names.now) name.now) }
    ensures first { IfSome result (λ place. (k : ℕ) → k < place
        → ¬ (IsNamed (map string_bytes names.now) name.now k)) }
    ensures none { IfNone result ((id : ℕ) → ¬ (IsNamed (map string_bytes names.now) name.now id)) }
{
    for (place, other) in names.iter().enumerate() {
        if other.as_str().eq_ignore_ascii_case(name) {
            return Some(place);
        }
    }
    None
}

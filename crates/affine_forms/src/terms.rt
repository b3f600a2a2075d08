// Lists of terms. Up to two stand in place, so that most take no memory.
ghost use Rattle.std.specs.Prelude.{◌≡◌, ◌<◌, ◌≤◌, ◌+◌, ◌++◌, [], ◌∷◌, IfOk, OnErr, OnOk, length};

use frac128::Frac;
use memory::Memory;
use smallvec::SmallVec;
use std::alloc::Global;
use std::marker::Model;

/// The numbers of decisions, each with its coefficient.
#[derive(Drop)]
pub(crate) struct Terms {
    kept: SmallVec<(u16, Frac), 2>,
}

impl Model for Terms {
    ghost use Rattle.std.specs.Prelude.{◌≤◌, ℕ, List};
    ghost use Rattle.fractions.specs.Rational.{ℚ};

    ghost Value = { List (ℕ × ℚ) };

    ghost view = { λ t. t.kept.items };

    ghost invariant = { λ t. 2 ≤ t.kept.capacity };
}

impl Terms {
    /// No terms.
    pub(crate) fn new(alloc: Global) -> Terms
        ensures { result ≡ [] }
    {
        Terms {
            kept: SmallVec::new(alloc),
        }
    }

    /// The terms in their order.
    pub(crate) fn as_slice(&self) -> &[(u16, Frac)]
        ensures { result.now ≡ self.now }
    {
        self.kept.as_slice()
    }

    // Where memory is taken from.
    pub(crate) fn alloc(&self) -> Global {
        *self.kept.allocator()
    }

    /// One term.
    pub(crate) fn one(alloc: Global, term: (u16, Frac)) -> Terms
        ensures { result ≡ term ∷ [] }
    {
        let mut kept = SmallVec::new(alloc);
        kept.push_reserved(term);
        Terms { kept }
    }

    /// A term behind the others.
    pub(crate) fn push(&mut self, term: (u16, Frac)) -> Result<(), Memory>
        ensures ok { OnOk result (self.new ≡ self.old ++ term ∷ []) }
        ensures err { OnErr result (self.new ≡ self.old) }
        ensures in_place { OnErr result (2 ≤ length self.old) }
    {
        self.kept.push(term)?;
        Ok(())
    }

    /// Terms behind the others, all of them or none.
    pub(crate) fn append(&mut self, more: &[(u16, Frac)]) -> Result<(), Memory>
        ensures ok { OnOk result (self.new ≡ self.old ++ more.now) }
        ensures err { OnErr result (self.new ≡ self.old) }
        ensures in_place { OnErr result (2 < length self.old + length more.now) }
    {
        self.kept.extend_from_slice(more)?;
        Ok(())
    }

    /// The same terms again.
    pub(crate) fn of(alloc: Global, terms: &[(u16, Frac)]) -> Result<Terms, Memory>
        ensures ok { IfOk result (λ copy. copy ≡ terms.now) }
        ensures in_place { OnErr result (2 < length terms.now) }
    {
        let mut copy = Terms::new(alloc);
        copy.append(terms)?;
        Ok(copy)
    }
}

// A session with the counter of the forms that it makes.
ghost use Rattle.std.specs.Prelude.{◌≡◌, ◌≤◌, ◌<◌, IfOk};
ghost use Rattle.cell_refs.specs.declared.units.TheConstants.{MOST_UNITS};
ghost use Rattle.session.specs.States.{opened, with_none_changed};

use cell_refs::SheetNames;
use session::{Memory, Session, Steps};
use std::alloc::Global;
use std::marker::Model;
use std::sync::ledger::{Blank, Ledger};
use workbook::Workbook;

/// What a session begins with: a workbook that was opened, and a counter that has counted nothing.
#[derive(Drop)]
pub(crate) struct Beginning {
    pub(crate) book: Workbook,
    pub(crate) blank: Blank,
}

/// A session, and the counter of the forms that it makes.
#[derive(Drop)]
pub(crate) struct CountedSession<L: Ledger> {
    pub(crate) session: Session,
    pub(crate) steps: Steps<L>,
}

impl<L: Ledger> Model for CountedSession<L> {
    ghost use Rattle.std.specs.Coded.{codes};
    ghost use Rattle.session.specs.States.{state_of_session_code};
    ghost use Rattle.opensolver_cli.specs.Counted.{CountedState, counted_code};

    ghost Value = { CountedState };

    ghost coded = { counted_code (state_of_session_code (Prim.hlevel codes)) };

    ghost view = { λ c. record { state = c.session.state } };
}

impl<L: Ledger> CountedSession<L> {
    /// A session over a workbook that was opened from files.
    pub(crate) fn open(
        alloc: Global,
        of: Beginning,
        budget: u64,
    ) -> Result<CountedSession<L>, Memory>
        requires name { of.blank.name ≡ L.name }
        requires parts { of.blank.parts ≡ L.parts }
        requires some { 0 < of.blank.parts }
        requires budget { budget ≤ MOST_UNITS }
        ensures { IfOk result (λ session. session.state ≡ opened of.book budget) }
    {
        let Beginning { book, blank } = of;
        let session = Session::open(alloc, book, budget)?;
        Ok(CountedSession {
            session,
            steps: Steps::new(blank),
        })
    }

    /// The names of the workbook's sheets.
    pub(crate) fn sheets(&self) -> &SheetNames
        ensures { result.now ≡ self.now.state.book.sheets }
    {
        self.session.sheets()
    }

    /// Says that the files are written that an answer has named.
    pub(crate) fn saved(&mut self)
        ensures { self.new.state ≡ with_none_changed self.old.state }
    {
        self.session.saved();
    }
}

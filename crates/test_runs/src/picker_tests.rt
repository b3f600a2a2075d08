// The pickers that a run is handed: it asks the one that the words name, tells it what happens, and lets all three go.
ghost use Rattle.std.specs.Prelude.{◌≢◌, ◌<◌, [], length};
ghost use Rattle.node_pick.specs.Rules.{IsRising};

use crate::runs::{NEVER, folder, words};
use crate::texts::check;
use frac128::Frac;
use memory::Memory;
use node_pick::{Depth, NodeEvent, NodeInfo, Picker};
use opensolver_cli::run;
use solver_io::{MemSink, MemSource};
use std::alloc::Global;
use std::cell::{Cell, RefCell};
use std::rc::Rc;
use std::test::Fail;

// Which of the nodes that wait a picker chooses.
#[derive(Clone, Copy)]
enum Choice {
    Deepest,
    First,
    Last,
    InTurn,
}

// What a picker was asked and told, and how often it was let go.
#[derive(Drop)]
struct Kept {
    heard: Rc<RefCell<String>>,
    drops: Rc<Cell<usize>>,
}

fn nothing_heard(alloc: Global) -> Result<Kept, Fail> {
    Ok(Kept {
        heard: Rc::new(alloc, RefCell::new(String::new(alloc)))?,
        drops: Rc::new(alloc, Cell::new(0))?,
    })
}

// Counts that it was let go.
struct Counted {
    drops: Rc<Cell<usize>>,
}

impl Drop for Counted {
    fn drop(self) {
        let Counted { drops } = self;
        drops.set(drops.get().saturating_add(1));
    }
}

// Keeps all that it hears as a text, and chooses as it is to.
#[derive(Drop)]
struct Recording {
    heard: Rc<RefCell<String>>,
    _counted: Counted,
    choice: Choice,
    is_first: bool,
}

impl Recording {
    fn chosen(&mut self, waiting: &[NodeInfo]) -> usize
        requires some { waiting.now ≢ [] }
        requires rising { IsRising waiting.now }
        ensures { result < length waiting.now }
    {
        match self.choice {
            Choice::Deepest => {
                let mut deepest = Depth;
                deepest.choose(waiting)
            }
            Choice::First => 0,
            Choice::Last => waiting.len() - 1,
            Choice::InTurn => {
                self.is_first = !self.is_first;
                if self.is_first { 0 } else { waiting.len() - 1 }
            }
        }
    }
}

impl Picker for Recording {
    ghost use Rattle.node_pick.specs.Rules.{free};

    ghost rule = { λ _. free };

    fn choose(&mut self, waiting: &[NodeInfo]) -> usize {
        if let Ok(mut heard) = self.heard.try_borrow_mut() {
            let _ = show_waiting(waiting, &mut heard);
        }
        self.chosen(waiting)
    }

    fn told(&mut self, event: NodeEvent) {
        if let Ok(mut heard) = self.heard.try_borrow_mut() {
            let _ = show_event(event, &mut heard);
        }
    }
}

// Appends how many nodes wait, and where there are three of them each one's number, its depth and its bound.
fn show_waiting(waiting: &[NodeInfo], to: &mut String) -> Result<(), Memory> {
    write!(to, "of {}", waiting.len())?;
    if waiting.len() == 3 {
        for node in waiting {
            let bound = node.bound.unwrap_or(Frac::zero());
            let (num, den) = (bound.num(), bound.den());
            write!(to, ", {} {} {num}/{den}", node.number, node.depth)?;
        }
    }
    Ok(to.push_str(": ")?)
}

// Appends what happened.
fn show_event(event: NodeEvent, to: &mut String) -> Result<(), Memory> {
    Ok(match event {
        NodeEvent::Opened(node) => write!(to, "opened {node}; ")?,
        NodeEvent::Split(node, low, high) => write!(to, "split {node} {low} {high}; ")?,
        NodeEvent::Closed(node) => write!(to, "closed {node}; ")?,
        NodeEvent::Whole(node) => write!(to, "whole {node}; ")?,
    })
}

const FILES: &[(&str, &str)] = &[
    (
        "names.csv",
        "plan,solver_adj,A2:B2\nplan,solver_opt,C3\nplan,solver_typ,1\nplan,solver_num,2\nplan,solver_lhs1,C4:C5\nplan,solver_rel1,1\nplan,solver_rhs1,D4:D5\nplan,solver_lhs2,A2:B2\nplan,solver_rel2,4\n",
    ),
    (
        "plan.csv",
        "x,y\n0,0\n5,4,\"=SUMPRODUCT(A2:B2;A3:B3)\"\n6,4,\"=SUMPRODUCT(A2:B2;A4:B4)\",24\n1,2,\"=SUMPRODUCT(A2:B2;A5:B5)\",6\n",
    ),
];

// A picker of this choice, of which this is kept.
fn recorder(of: &Kept, choice: Choice) -> Result<Recording, Fail> {
    Ok(Recording {
        heard: of.heard.clone()?,
        _counted: Counted {
            drops: of.drops.clone()?,
        },
        choice,
        is_first: false,
    })
}

// How a run by these words ends and what it prints for its one record, by three pickers of this choice, of which this is kept.
fn outcome(alloc: Global, line: &str, choice: Choice, all: &[Kept; 3]) -> Result<String, Fail> {
    let mut pickers: Vec<Box<dyn Picker>> = Vec::new(alloc);
    pickers.push(Box::new(alloc, recorder(&all[0], choice)?)?)?;
    pickers.push(Box::new(alloc, recorder(&all[1], choice)?)?)?;
    pickers.push(Box::new(alloc, recorder(&all[2], choice)?)?)?;
    let words = words(alloc, line)?;
    let mut folder = folder(alloc, FILES, NEVER.0)?;
    let script = "solve,plan\n".as_bytes().to_vec(alloc)?;
    let mut source = MemSource::new(alloc, script, [NEVER.1].to_vec(alloc)?);
    let mut sink = MemSink::new(alloc, [NEVER.2].to_vec(alloc)?);
    let status = run(alloc, &words, &mut folder, &mut source, &mut sink, pickers);
    let printed = str::from_utf8(sink.bytes())?;
    Ok(format!(in alloc; "{status:?}: {printed}")?)
}

// The same, with the places of the pickers that were asked or told something, and how often each was let go.
fn outcome_with_pickers(alloc: Global, line: &str, choice: Choice) -> Result<String, Fail> {
    let all = [
        nothing_heard(alloc)?,
        nothing_heard(alloc)?,
        nothing_heard(alloc)?,
    ];
    let mut told = outcome(alloc, line, choice, &all)?;
    for (place, of) in all.iter().enumerate() {
        let Ok(heard) = of.heard.try_borrow() else {
            return Err("it is lent".into());
        };
        if !heard.is_empty() {
            write!(told, "picker {place} is asked; ")?;
        }
    }
    let [first, second, third] = &all;
    write!(
        told,
        "let go {} {} {}",
        first.drops.get(),
        second.drops.get(),
        third.drops.get()
    )?;
    Ok(told)
}

// The words, which picker they name, and by which of its nodes it chooses.
const ASKED: &[(&str, usize, Choice)] = &[
    ("--names names.csv plan.csv", 0, Choice::Deepest),
    ("--names names.csv plan.csv", 0, Choice::First),
    ("--names names.csv plan.csv", 0, Choice::Last),
    ("--names names.csv plan.csv", 0, Choice::InTurn),
    ("--names names.csv --pick depth plan.csv", 0, Choice::Last),
    ("--names names.csv --pick best plan.csv", 1, Choice::First),
    ("--names names.csv --pick best plan.csv", 1, Choice::Last),
    (
        "--names names.csv --pick oldest plan.csv",
        2,
        Choice::InTurn,
    ),
    ("--names names.csv --pick oldest plan.csv", 2, Choice::Last),
];

#[test]
fn a_run_asks_the_picker_that_is_named(rt: HostRuntime) -> Result<(), Fail> {
    let alloc = rt.alloc();
    for (line, place, choice) in ASKED {
        let found = outcome_with_pickers(alloc, line, *choice)?;
        let want = format!(in alloc; "Done: optimal 20\npicker {place} is asked; let go 1 1 1")?;
        check(&found, &want, line)?;
    }
    Ok(())
}

// 5 x + 4 y is to be greatest where 6 x + 4 y ≤ 24 and x + 2 y ≤ 6, over whole numbers: worked out by hand.
const HEARD: &str =
    "of 1: opened 0; split 0 1 2; of 2: opened 1; split 1 3 4; of 3, 2 1 21/1, 3 2 62/3, 4 2 62/3: opened 3; whole 3; of 2: opened 4; whole 4; of 1: opened 2; closed 2; ";

#[test]
fn a_run_tells_its_picker_each_node(rt: HostRuntime) -> Result<(), Fail> {
    let alloc = rt.alloc();
    let all = [
        nothing_heard(alloc)?,
        nothing_heard(alloc)?,
        nothing_heard(alloc)?,
    ];
    let words = "--names names.csv plan.csv";
    let found = outcome(alloc, words, Choice::Deepest, &all)?;
    check(&found, "Done: optimal 20\n", words)?;
    let Ok(heard) = all[0].heard.try_borrow() else {
        return Err("it is lent".into());
    };
    assert_eq!(rt; heard.as_str(), HEARD);
    Ok(())
}

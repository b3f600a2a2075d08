//! What is true of every step of a session, and of every list of commands, where the rule of the picker names a node.
//! This crate has the definitions and their laws, and no code that runs. `step_is_determined` says that a command has one answer and one
//! session after it; `commands_are_determined` says so of a list of commands; `searches_have_trails` says where open searches stand.
//! Below it stands `session`. Nothing stands above it.
//! The laws are the program's own: they say that the contracts of `session` leave no choice there.
#![tactic(auto)]

ghost use Rattle.session_laws.specs.Laws.{CommandsAreDetermined, StepIsDetermined, TrailsAreKept};

/// Every open search stands where a trail of its model has led.
pub fn searches_have_trails()
    ensures { TrailsAreKept }
{}

/// Where the rule names a node, a command has one answer and one session after it.
pub fn step_is_determined()
    ensures { StepIsDetermined }
{}

/// Where the rule names a node, the same commands over the same workbook have the same answers, and lead to one session.
pub fn commands_are_determined()
    ensures { CommandsAreDetermined }
{}

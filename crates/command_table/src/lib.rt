//! The commands of the agent, all in one table: their names, and what holds of each wherever its
//! lines are read.
//!
//! Begin with [`CutLine::of`]: a line is cut once, and its first word looked up once. The command
//! is that of the first row whose name the word spells, and none where there is no such row. A
//! command that isn't named otherwise is allowed at no outer door. Definitions are in
//! `specs/Commands`.
#![tactic(auto)]

mod commands;
mod cut_line;

pub use commands::{
    COMMANDS, Command, CommandName, KeyCommandName, Rule, TrustCommandName, command_named,
    commands_are_as_defined, is_listed,
};
pub use cut_line::CutLine;

//! The operator's side of a router: the text of a configuration, the lines of the console, and the
//! lines of its answers. There is no file, socket or router here: texts are parsed to values, and
//! values are printed as texts.
#![tactic(auto)]

mod answers;
mod command;
mod configuration;
pub mod laws;
mod reading;

pub use answers::{counters_text, neighbors_text, table_text, totals_text};
pub use command::{Command, read_command};
pub use configuration::{ConfigurationError, Configured, ConfiguredInterface, read_configuration};
// Names from the crates below that crates above use.
pub use event_rules::{Config, Interface};

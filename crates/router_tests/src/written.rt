//! Values as text: commands, what bytes say by their fields, and what is printed.

mod commands;
mod fields;
mod printed;

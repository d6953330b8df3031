//! Assembly text: from a text to the object that it spells, and from an object to a text that
//! spells it. A line is read and written word by word: numbers, names of labels, and words from
//! fixed tables (operators, hooks, sizes, registers).
#![tactic(auto)]

mod assembling;
mod error;
mod instructions;
mod labels;
pub mod laws;
mod line;
mod line_text;
mod name;
mod numbers;
mod numeral;
mod reading;
mod statements;
mod word;
mod writing;

pub use assembling::assemble;
pub use error::{AsmError, AsmFault, ListError};
pub use line::{AssemblyLine, LabelOrNumber, Operand, Range, RegisterContent, Term, Terms};
pub use line_text::write_line;
pub use name::is_name;
pub use numeral::{Numeral, read_distance, read_number};
pub use reading::{one_reading, read_lines};
pub use word::{
    extension_of, extension_word, hook_of, hook_word, load_of, load_word, operation_of,
    operation_word, register_of, register_word, reorder_of, reorder_word, store_of, store_word,
    test_of, test_word,
};
pub use writing::listing;

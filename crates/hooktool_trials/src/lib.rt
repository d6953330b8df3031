//! What `hooktool` is asked, and the runs that it makes: the words of its command line, the lines
//! of tests, whose questions are asked in the same words, and runs of an object's program on
//! questions, in a row on the same counters and cells.
#![tactic(auto)]

mod answers;
mod arguments;
mod arrivals;
mod asked;
mod asking;
mod captures;
mod error;
mod files;
mod left;
mod numbers;
mod packets;
mod places;
mod playing;
mod reading;
mod requests;
mod rows;
mod runs;
mod settings;
mod setup;
mod stage;
mod steps;
mod stopped;
mod trial;
mod values;
mod wrong_words;

pub use answers::is_any_stuck;
pub use arrivals::packet_question;
pub use asked::{Asked, context_of};
pub use captures::CaptureError;
pub use error::TrialError;
pub use files::WholeFiles;
pub use playing::play;
pub use reading::{parse, unreadable_words};
pub use requests::{FuelAsked, HooktoolRequest, PacketSource, PlainRequest, Question};
pub use runs::RunEnding;
pub use settings::Setting;
pub use stage::{Found, Last, Point, PointResult};
pub use steps::{
    ExpectedAnswer, LineError, PlainStep, Step, TestLine, WrongLine, read_lines, words_of_lines,
};
pub use stopped::{PlayError, Stopped};
pub use trial::{ObjectTrial, try_object};

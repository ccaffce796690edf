// Steps, names, lines and words of texts, a reader for any grammar of lines, and the desk through
// which a program meets the outside.
#![tactic(auto)]

mod blanks;
mod desk;
pub mod desk_laws;
mod fault;
mod grammar;
mod host;
pub mod laws;
mod lines;
mod marks;
mod memory;
mod names;
mod reader;
mod runs;
mod steps;
mod stop;
mod text_lines;

pub use blanks::{Row, begins, skip_blanks, strip_comment, word_at, words};
pub use desk::{Desk, Failed};
pub use fault::TextFault;
pub use grammar::{Front, Grammar};
pub use host::HostDesk;
pub use lines::{LineFault, Lines, Taken};
pub use marks::Marks;
pub use memory::MemoryDesk;
pub use names::{BadName, Name, is_name};
pub use reader::{Reader, read, read_pieces};
pub use runs::Words;
pub use steps::{Blank, Ledger, Steps};
pub use stop::Stop;
pub use text_lines::TextLines;

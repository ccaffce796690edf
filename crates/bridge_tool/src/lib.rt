// The commands of the bridge, over any desk, and instances to try them with.
#![tactic(auto)]

mod certified;
mod check;
mod command;
mod draws;
mod export;
mod instance;
pub mod laws;
mod make;
mod named_export;
mod one_file;
mod parts;
mod prove;
mod returns;
mod summary;
mod top;
mod verify;
mod verify_mps;

pub use instance::make_instance;
pub use top::bridge;

//! The calls of the program: a session over a script, a single run over a folder, and the top call, which reads the words.
#![tactic(auto)]

pub mod adapters;
pub mod call;
pub mod desk;
mod folders;
pub mod gvet;
pub mod keep;
pub mod key;
pub mod laws;
mod lines;
pub mod options;
pub mod pending;
pub mod pieces;
pub mod session;
mod shown;
pub mod single;
pub mod stop;
pub mod top;

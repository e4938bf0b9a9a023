//! The rules of declarations (Go 1.17, "Declarations and scope"), and which rule each type expression and declaration has.
#![tactic(auto)]

mod constant;
mod declared;
mod forms;
mod judges;
mod late;
mod method_names;
mod methods;
mod objects;
mod reads;
mod refusal;
mod told_methods;
mod under;
mod wants;

pub use declared::declared_name;
pub use judges::judge_decl;
pub use objects::judge_object;
pub use reads::decl_reads;
pub use under::judge_under;
pub use wants::{declares_names, want_decl};

//! Parameters that are taken from the mark of a list.
use type_model::TypeId;

/// The parameters of a function.
#[derive(Drop)]
pub struct Taken {
    pub types: Vec<TypeId>,
    pub variadic: bool,
}

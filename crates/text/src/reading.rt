// How a content is read before it is judged.

#[derive(Clone, Copy, PartialEq, Eq, Debug)]
pub enum Reading {
    AsItStands,
    Normalised,
    Stripped,
}

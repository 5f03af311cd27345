// Syllables.
pub mod compose;
pub(crate) mod letters;
pub(crate) mod marking;
pub(crate) mod plain;

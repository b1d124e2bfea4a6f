//! What tokens spell: a reduce, and the places of its parts.
use index_tree::{FoldMember, Texts};
use raven_base::Sequence;
use raven_value::Text;

/// How a key is written.
#[derive(Drop)]
pub enum KeyForm {
    /// One part by itself.
    Alone(Text),
    /// Parts in `new { }`.
    New(Texts),
}

/// A key and its place.
#[derive(Drop)]
pub struct SpelledKey {
    /// The place of the first byte of its first token, counted from 0.
    pub at: usize,
    pub form: KeyForm,
}

/// A member and its place.
#[derive(Drop)]
pub struct PlacedFold {
    /// The place of the first byte of its first token, counted from 0.
    pub at: usize,
    pub member: FoldMember,
}

/// Members in order.
pub type PlacedFolds = Sequence<PlacedFold>;

/// A reduce as it is spelled.
#[derive(Drop)]
pub struct SpelledReduce {
    /// The name of an entry.
    pub var: Text,

    /// The name of a group.
    pub group: Text,

    /// The place of the first byte of the key's first token, counted from 0.
    pub key_at: usize,

    /// The names of the key's parts.
    pub key: Texts,

    pub members: PlacedFolds,
}

//! What is read from the texts of a definition.
use index_grammar::SpelledMap;
use reduce_grammar::SpelledReduce;

/// A map, and the place of the first name in it that is not bound.
#[derive(Drop)]
pub struct ReadMap {
    pub map: SpelledMap,
    pub unbound: Option<usize>,
}

/// A reduce, and the place of the first name in it that is not bound.
#[derive(Drop)]
pub struct ReadReduce {
    pub reduce: SpelledReduce,
    pub unbound: Option<usize>,
}

/// What both texts spell.
#[derive(Drop)]
pub struct Trees {
    pub map: ReadMap,
    pub reduce: Option<ReadReduce>,
}

// What a seat of the gate's table knows. It lives in proofs alone, so no value of these types is made.
use std::collections::LinkedList;

/// What a pass knows of the history, and what it has of the gate.
pub struct View<E> {
    /// Its number, which no other pass has. What was joined to another pass has none.
    pub number: Option<u64>,
    /// A number that it drew for a pass that is to be split off.
    pub gift: Option<u64>,
    /// Its turn, from the draw until it passes it on.
    pub turn: Option<u64>,
    /// The whole history, while it has the object.
    pub held: Option<LinkedList<E>>,
    pub seen: LinkedList<E>,
    /// Its own entries.
    pub mine: LinkedList<E>,
    /// How long the history was each time it learnt it.
    pub learnt: LinkedList<u64>,
    /// What a pass that was joined to it had seen, until the two are compared.
    pub met: Option<Met<E>>,
}

pub struct Met<E> {
    pub number: Option<u64>,
    pub seen: LinkedList<E>,
}

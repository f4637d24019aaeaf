//! A bench that follows a script of choices.

use arrayvec::ArrayVec;

// How many choices a script has at most.
pub(crate) const CHOICES: usize = 64;

/// A bench over any book whose outcomes a script of bytes chooses: each act that it carries out uses the next byte,
/// which, modulo the number of outcomes, is the number of the outcome. It is ready while bytes remain.
#[derive(Drop)]
pub struct ScriptBench<S> {
    pub(crate) state: S,
    // The whole script, and how many of its bytes are used: a use moves none of the others.
    pub(crate) choices: ArrayVec<u8, CHOICES>,
    pub(crate) used: usize,
}

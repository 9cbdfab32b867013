//! With what outputs are compared.

use keep::Snapshots;

/// Whether the outputs of a compaction are compared with what a compaction of the inputs keeps.
#[derive(Clone, Copy)]
pub enum Comparison<'s> {
    /// They are compared. These sequences were to stay readable: if they are an empty list, the
    /// last sequence of the edit and all later ones.
    With(Snapshots<'s>),
    /// They are not compared.
    LeftOut,
}

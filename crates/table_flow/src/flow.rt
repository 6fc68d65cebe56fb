//! Flags of words and inputs.

/// How many words a context has at most: eight for each of 256 blocks.
pub const WORDS: usize = 2048;

/// What expressions name, and where they are stored. Word `j` of block `b` is number `8 * b + j`.
#[derive(Clone, Copy, Debug)]
pub struct Flow {
    /// Whether each word is named.
    pub words: [bool; WORDS],
    /// Whether each input is named.
    pub inputs: [bool; 4],
    /// Whether an expression is stored in each word.
    pub written: [bool; WORDS],
}

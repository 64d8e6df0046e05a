//! The devices of a run, by the options that name them. A device for which the command has no option is not called.

/// The inputs of a run.
#[derive(Drop)]
pub struct Inputs<I> {
    /// `-i`, or `-s` in `jws sig`.
    pub text: I,
    /// `-I`.
    pub content: I,
    /// `-k`.
    pub keys: I,
    /// `-R`, or `/dev/urandom`.
    pub random: I,
}

/// The outputs of a run.
#[derive(Drop)]
pub struct Outputs<O> {
    /// `-o`.
    pub text: O,
    /// `-O`.
    pub content: O,
}

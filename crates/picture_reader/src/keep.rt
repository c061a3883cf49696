/// What is kept of a picture that is read.
#[derive(Clone, Copy)]
pub enum Keep {
    /// All of its slices.
    Tree,
    /// Nothing but its headers.
    Nothing,
}

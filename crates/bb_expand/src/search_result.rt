//! The result of a counterexample search that may give up. All searches share it, so each may fall back to a costlier
//! one; giving up is no error.

#[derive(Debug, Drop)]
pub(crate) enum SearchResult {
    At(Vec<bool>),
    Nowhere,
    GivenUp,
}

//! The words of the command line as a request: two files to compare, a made pair, or a formula and its refutation.
//! `clap` splits the words, but what a command line says is a definition of ours of one page (`CommandLines`, in the
//! manner of getopt_long), proved to be what `clap` takes and finds for all words; so a reader of a clause on the top
//! call needs none of clap's definitions.
#![tactic(auto)]

mod command;
mod laws;
mod number;
mod reading;
mod requested;
mod value;

pub use laws::{
    all_are_files_after, care_names_are_requested, few_words_request_nothing, fill_is_requested,
    invariant_names_are_requested, made_pairs_are_within, order_is_free, plain_words_are_files,
    requests_are_within, some_words_are_refused, values_may_be_joined, widths_request_pairs,
    words_request_once,
};
pub use reading::read_words;
pub use requested::{FileComparison, Wanted, WordsFault};

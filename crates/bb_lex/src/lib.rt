//! The lexical part of the language: a text of Verilog bytes as its list of tokens, or the line of the first place at
//! which nothing begins. docs/LANGUAGE.md has the rules.
#![tactic(auto)]

mod class;
mod fault;
mod keyword;
pub mod laws;
mod lexer;
mod mark;
mod meaning;
mod number;
mod piece;
mod skip;
mod symbol;
mod token;
mod word;

pub use fault::LexFault;
pub use keyword::Keyword;
pub use lexer::tokens;
pub use mark::Mark;
pub use meaning::{name_bytes, plain_value, sized_bits};
pub use token::{Kind, Token};

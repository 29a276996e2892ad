//! Sources statement by statement. The tokens are cut after each `;` and each `endmodule`, and each statement is judged
//! alone, with only whether a module is open. So the first fault is the first statement that is not good after a list
//! of good ones, and no recovery is needed to find it.

ghost use Rattle.std.specs.Prelude.{◌≡◌, ◌<◌, ◌^◌, ℕ, List, map, length, option_map, option_to_list, ◌++◌, OnOk, IfOk};
ghost use Rattle.std.specs.Prelude.{IfErr, MatchResult, ◌⊎◌};
ghost use Rattle.std.specs.List.{AllByRecursion};
ghost use Rattle.bb_ast.specs.declared.module.Module.{Module};
ghost use Rattle.bb_ast.specs.Syntax.{PlainModule};
ghost use Rattle.bb_ast.specs.Inside.Views.{module_view, source_view};
ghost use Rattle.bb_lex.specs.Cut.{IsTokenOf, AreTokens};
ghost use Rattle.bb_parse.specs.declared.fault.ParseFault.{ParseFault};
ghost use Rattle.bb_parse.specs.Sources.{line_of, IsSource, IsParseFault};
ghost use Rattle.bb_parse.specs.Inside.Symbols.{symbols, next_kind};
ghost use Rattle.bb_parse.specs.Inside.Sources.{Answers, with_modules, at_end, is_endmodule, then_read, item_added};
ghost use Rattle.bb_parse.specs.Inside.Sources.{step_view, read_item_of, read_step, read_source};

use crate::fault::ParseFault;
use crate::statement::{first, header_of, item_of, line};
use bb_ast::{Item, Module, Source};
use bb_lex::laws::{read_bits_are_meant, tokens_are_in_text, tokens_end_past_their_places};
use bb_lex::{Keyword, Kind, Token};
use std::alloc::Global;

fn is_endmodule_statement(statement: &[Token]) -> bool
    ensures { (text : List ℕ) → result ≡ is_endmodule (next_kind (symbols text statement.now)) }
{
    match statement.first() {
        Some(token) => token.kind == Kind::Word(Keyword::Endmodule),
        None => false,
    }
}

/// The module that the statement closes, if any, and the module that is open after it. A module's line is that of its
/// header's first token.
#[tactic(auto, unfolding(crate::specs::Inside::Sources::read_step))]
fn step(
    alloc: Global,
    statement: &[Token],
    text: &[u8],
    current: Option<Module>,
) -> Result<(Option<Module>, Option<Module>), ParseFault>
    requires of_text { AllByRecursion (λ token. IsTokenOf token text.now) statement.now }
    requires small { length statement.now < 2 ^ 32 }
    ensures { Answers step_view result (read_step text.now (option_map module_view current) statement.now) }
{
    match current {
        None => {
            let (name, heads) = header_of(alloc, statement, text)?;
            Ok((
                None,
                Some(Module {
                    name,
                    line: line(statement),
                    heads,
                    items: Vec::new(alloc),
                }),
            ))
        }
        Some(target) => {
            if is_endmodule_statement(statement) {
                return Ok((Some(target), None));
            }
            let target = with_item(target, alloc, statement, text)?;
            Ok((None, Some(target)))
        }
    }
}

fn with_item(
    mut target: Module,
    alloc: Global,
    statement: &[Token],
    text: &[u8],
) -> Result<Module, ParseFault>
    requires of_text { AllByRecursion (λ token. IsTokenOf token text.now) statement.now }
    requires small { length statement.now < 2 ^ 32 }
    ensures { Answers module_view result (then_read (read_item_of text.now statement.now) (item_added
        (module_view target) (line_of statement.now))) }
{
    let body = item_of(alloc, statement, text)?;
    target.items.push(Item {
        line: line(statement),
        body,
    })?;
    Ok(target)
}

fn keep(modules: &mut Vec<Module>, closed: Option<Module>) -> Result<(), ParseFault>
    ensures ok { OnOk result (map module_view modules.new.items
        ≡ map module_view modules.old.items ++ option_to_list (option_map module_view closed)) }
    ensures err { IfErr result (λ e. e ≡ ParseFault.NoMemory) }
{
    if let Some(module) = closed {
        modules.push(module)?;
    }
    Ok(())
}

fn finished(
    modules: Vec<Module>,
    current: Option<Module>,
    rest: &[Token],
) -> Result<Source, ParseFault>
    ensures { Answers source_view result (with_modules (map module_view modules.items) (at_end
        (option_map module_view current) rest.now)) }
{
    if current.is_some() || !rest.is_empty() {
        return Err(ParseFault::Unended);
    }
    Ok(Source { modules })
}

/// Each token ends past its place in the list, and an end has 32 bits, so there are fewer than 2^32 tokens. The minimum
/// makes this bound hold by the type of an end; it is always the length.
fn count(tokens: &[Token], text: &[u8]) -> usize
    requires { AreTokens text.now tokens.now }
    ensures count { result ≡ length tokens.now }
    ensures small { result < 2 ^ 32 }
{
    tokens_end_past_their_places();
    match tokens.last() {
        Some(last) => {
            let end = last.end as usize;
            if end < tokens.len() {
                end
            } else {
                tokens.len()
            }
        }
        None => 0,
    }
}

#[tactic(auto, using(crate::proofs::SourceLoop::source_looping), unfolding(crate::specs::Inside::Sources::read_source))]
fn read(alloc: Global, tokens: &[Token], text: &[u8], count: usize) -> Result<Source, ParseFault>
    requires of_text { AllByRecursion (λ token. IsTokenOf token text.now) tokens.now }
    requires count { count ≡ length tokens.now }
    requires small { count < 2 ^ 32 }
    ensures { Answers source_view result (read_source text.now tokens.now) }
{
    let mut modules = Vec::new(alloc);
    let mut current: Option<Module> = None;
    let mut rest = tokens;
    for turn in 0..count {
        let Some((statement, after)) = first(rest) else {
            return finished(modules, current, rest);
        };
        let (closed, next) = step(alloc, statement, text, current)?;
        keep(&mut modules, closed)?;
        current = next;
        rest = after;
    }
    finished(modules, current, rest)
}

/// The tokens are cut into statements after each `;` and each `endmodule`. The fault is that of the first statement
/// that nests deeper than 200 levels or is not in the language at its place, with the line of its first token; if there
/// is none, the text ends within a statement or a module.
///
/// The four clauses are those of `bb_lex::tokens` under the same labels: a result is right, a fault is one, and each
/// comes wherever it is due.
pub fn source(alloc: Global, tokens: &[Token], text: &[u8]) -> Result<Source, ParseFault>
    requires { AreTokens text.now tokens.now }

    // A result is the source, or the first fault.
    ensures ok { IfOk result (λ source. IsSource text.now tokens.now (source_view source)) }
    ensures fault { IfErr result (λ fault. (fault ≡ ParseFault.NoMemory) ⊎ IsParseFault text.now tokens.now fault) }

    // There is a result wherever there is a source, and a fault wherever there is one, unless memory runs out.
    ensures only_ok { (modules : List PlainModule) → IsSource text.now tokens.now modules
        → MatchResult result (λ source. source_view source ≡ modules) (λ fault. fault ≡ ParseFault.NoMemory) }
    ensures only_fault { (first : ParseFault) → IsParseFault text.now tokens.now first
        → MatchResult result (λ source. ⊥) (λ fault. (fault ≡ first) ⊎ (fault ≡ ParseFault.NoMemory)) }
{
    tokens_are_in_text();
    read_bits_are_meant();
    let count = count(tokens, text);
    read(alloc, tokens, text, count)
}

//! A cursor over the tokens of one statement. Its model is the list of symbols that is still to be read, so a rule's
//! contract is an equation on lists. A token is a kind and a place in the text; bytes are looked at only where a name
//! or a number is taken, and everything else is decided by the kind.

ghost use Rattle.std.specs.Prelude.{◌≡◌, ◌<◌, ◌^◌, List, length, true, false, IfOk};
ghost use Rattle.std.specs.List.{AllByRecursion};
ghost use Rattle.bb_lex.specs.declared.token.Kind.{Kind};
ghost use Rattle.bb_lex.specs.Cut.{IsTokenOf};
ghost use Rattle.bb_lex.specs.Inside.Numbers.{sized_bits_of};
ghost use Rattle.bb_parse.specs.Symbols.{Symbol};
ghost use Rattle.bb_parse.specs.Expressions.{on_one, bit_operator, word_operator};
ghost use Rattle.bb_parse.specs.Inside.Symbols.{symbols, is_next, after, next_kind};
ghost use Rattle.bb_parse.specs.Inside.Steps.{Gives, read_mark, read_name, read_sized, read_plain};
ghost use Rattle.bb_parse.specs.Inside.Expressions.{begins_repeat, next_operator, begins_operator};

use crate::operators::{bit_operator, on_bits, on_one, on_words, word_operator};
use crate::stop::Stop;
use bb_ast::{FoldOp, Op, WordOp};
use bb_bits::Name;
use bb_lex::laws::read_bits_are_meant;
use bb_lex::{Kind, Mark, Token, name_bytes, plain_value, sized_bits};
use std::alloc::{AllocError, Global};
use std::marker::Model;

#[derive(Drop)]
pub(crate) struct Cursor<'a> {
    tokens: &'a [Token],
    text: &'a [u8],
}

impl<'a> Model for Cursor<'a> {
    ghost use Rattle.std.specs.Prelude.{List, ◌<◌, ◌^◌, length};
    ghost use Rattle.std.specs.List.{AllByRecursion};
    ghost use Rattle.bb_lex.specs.Cut.{IsTokenOf};
    ghost use Rattle.bb_parse.specs.Symbols.{Symbol};
    ghost use Rattle.bb_parse.specs.Inside.Symbols.{symbols};

    ghost Value = { List Symbol };

    ghost view = { λ c. symbols c.text.now c.tokens.now };

    ghost invariant = { λ c.
        AllByRecursion (λ token. IsTokenOf token c.text.now) c.tokens.now × (length c.tokens.now < 2 ^ 32) };
}

impl<'a> Cursor<'a> {
    pub(crate) fn new(tokens: &'a [Token], text: &'a [u8]) -> Self
        requires of_text { AllByRecursion (λ token. IsTokenOf token text.now) tokens.now }
        requires small { length tokens.now < 2 ^ 32 }
        ensures { result ≡ symbols text.entry.now tokens.entry.now }
    {
        Cursor { tokens, text }
    }

    /// A bound for the loops of the rules: each iteration takes a token or returns.
    pub(crate) fn len(&self) -> usize
        ensures len { result ≡ length self.now }
        ensures small { result < 2 ^ 32 }
    {
        self.tokens.len()
    }

    pub(crate) fn is_at(&self, wanted: Mark) -> bool
        ensures { result ≡ is_next wanted self.now }
    {
        match self.kind() {
            Some(Kind::Mark(mark)) => mark == wanted,
            _ => false,
        }
    }

    /// At the end it stays there.
    pub(crate) fn skip(&mut self)
        ensures { self.new ≡ after self.old }
    {
        if let Some((_, rest)) = self.tokens.split_first() {
            self.tokens = rest;
        }
    }

    pub(crate) fn takes(&mut self, wanted: Mark) -> bool
        ensures taken { result ≡ is_next wanted self.old }
        ensures left { result ≡ true → self.new ≡ after self.old }
        ensures same { result ≡ false → self.new ≡ self.old }
    {
        if !self.is_at(wanted) {
            return false;
        }
        self.skip();
        true
    }

    pub(crate) fn mark(&mut self, wanted: Mark) -> Result<(), Stop>
        ensures { Gives (λ _. tt) result self.new (read_mark wanted self.old) }
    {
        if self.takes(wanted) {
            Ok(())
        } else {
            Err(Stop::Amiss)
        }
    }

    pub(crate) fn name(&mut self, alloc: Global) -> Result<Name, Stop>
        ensures { Gives (λ name. name) result self.new (read_name self.old) }
    {
        let Some((token, rest)) = self.tokens.split_first() else {
            return Err(Stop::Amiss);
        };
        if token.kind != Kind::Name {
            return Err(Stop::Amiss);
        }
        let name = Name::of(alloc, name_bytes(token, self.text))?;
        self.tokens = rest;
        Ok(name)
    }

    pub(crate) fn sized(&mut self, alloc: Global) -> Result<Vec<bool>, Stop>
        ensures { Gives (λ bits. bits.items) result self.new (read_sized self.old) }
    {
        let Some((token, rest)) = self.tokens.split_first() else {
            return Err(Stop::Amiss);
        };
        if token.kind != Kind::Sized {
            return Err(Stop::Amiss);
        }
        let bits = bits_of(alloc, token, self.text)?;
        self.tokens = rest;
        Ok(bits)
    }

    pub(crate) fn plain(&mut self) -> Result<u32, Stop>
        ensures { Gives (λ value. value) result self.new (read_plain self.old) }
    {
        let Some((token, rest)) = self.tokens.split_first() else {
            return Err(Stop::Amiss);
        };
        if token.kind != Kind::Plain {
            return Err(Stop::Amiss);
        }
        let value = plain_value(token, self.text);
        self.tokens = rest;
        Ok(value)
    }

    pub(crate) fn kind(&self) -> Option<Kind>
        ensures { result ≡ next_kind self.now }
    {
        self.tokens.first().map(|token| token.kind)
    }

    /// Two tokens of lookahead, the most that the grammar needs: after `{`, a plain number begins a replication only if
    /// another `{` follows.
    pub(crate) fn begins_repeat(&self) -> bool
        ensures { result ≡ begins_repeat self.now }
    {
        match self.tokens {
            [first, second, ..] => first.kind == Kind::Plain
                && second.kind == Kind::Mark(Mark::LeftBrace),
            _ => false,
        }
    }

    /// `~` is none of these: it is read as a run, by `signs`.
    pub(crate) fn operator_on_one(&self) -> Option<FoldOp>
        ensures { result ≡ next_operator on_one self.now }
    {
        match self.kind() {
            Some(Kind::Mark(mark)) => on_one(mark),
            _ => None,
        }
    }

    pub(crate) fn bit_operator(&self, row: u32) -> Option<Op>
        ensures { result ≡ next_operator (bit_operator row) self.now }
    {
        match self.kind() {
            Some(Kind::Mark(mark)) => bit_operator(row, mark),
            _ => None,
        }
    }

    pub(crate) fn word_operator(&self, row: u32) -> Option<WordOp>
        ensures { result ≡ next_operator (word_operator row) self.now }
    {
        match self.kind() {
            Some(Kind::Mark(mark)) => word_operator(row, mark),
            _ => None,
        }
    }

    #[tactic(auto, unfolding(crate::specs::Inside::Expressions::begins_operator))]
    pub(crate) fn begins_operator(&self) -> bool
        ensures { result ≡ begins_operator self.now }
    {
        match self.kind() {
            Some(Kind::Mark(mark)) => on_bits(mark).is_some() || on_words(mark).is_some(),
            _ => false,
        }
    }
}

fn bits_of(alloc: Global, token: &Token, text: &[u8]) -> Result<Vec<bool>, AllocError>
    requires of_text { IsTokenOf token.now text.now }
    requires sized { token.now.kind ≡ Kind.Sized }
    ensures { IfOk result (λ bits. bits.items ≡ sized_bits_of token.now text.now) }
{
    read_bits_are_meant();
    let bits = sized_bits(alloc, token, text)?;
    Ok(bits)
}

//! The tokens that are left.

ghost use Rattle.std.specs.Prelude.{◌≡◌, length, map};
ghost use Rattle.std.specs.Option.{option_copied};
ghost use Rattle.sk_parse.specs.Input as spec;
ghost use Rattle.sk_parse.specs.Input.{Reads, first};

use crate::fault::Fault;
use sk_lex::{Keyword, Token, Word};
use std::marker::Model;

/// A keyword or a mark of the grammar.
#[derive(Clone, Copy, Debug)]
pub enum Sign {
    /// A keyword.
    Key(Keyword),
    /// One or two bytes, the second 0 where there is one.
    Mark(u8, u8),
}

/// The tokens that are left. Contracts see their words.
#[derive(Drop)]
pub struct Cursor<'a> {
    rest: &'a [Token],
}

impl<'a> Model for Cursor<'a> {
    ghost use Rattle.std.specs.Prelude.{List, map};
    ghost use Rattle.sk_lex.specs.declared.token.Word.{Word as LexWord};

    ghost Value = { List LexWord };

    ghost view = { λ c. map (λ t. t.word) c.rest.now };
}

/// Whether two keywords are one.
#[tactic(auto, unfolding(crate::specs::Input::same_key))]
pub fn same_key(a: Keyword, b: Keyword) -> bool
    ensures { result ≡ spec.same_key a b }
{
    a == b
}

/// Whether a word is this sign.
pub fn is_at(sign: Sign, word: &Word) -> bool
    ensures { result ≡ spec.is_at sign word.now }
{
    match (sign, word) {
        (Sign::Key(k), Word::Key(l)) => same_key(*l, k),
        (Sign::Mark(a, b), Word::Mark(c, d)) => *c == a && *d == b,
        _ => false,
    }
}

impl<'a> Cursor<'a> {
    /// A cursor before the first of these tokens.
    pub fn new(tokens: &'a [Token]) -> Cursor<'a>
        ensures { result ≡ map (λ t. t.word) tokens.now }
    {
        Cursor { rest: tokens }
    }

    /// How many tokens are left.
    pub fn left(&self) -> usize
        ensures { result ≡ length self.now }
    {
        self.rest.len()
    }

    /// The fault that the next word does not fit.
    pub fn refuse(&self) -> Fault
        ensures { result ≡ Fault.Left (length self.now) }
    {
        Fault::Left(self.rest.len())
    }

    /// The next word.
    pub fn peek(&self) -> Option<&'a Word>
        ensures { option_copied result ≡ first self.now }
    {
        match self.rest {
            [] => None,
            [t, ..] => Some(&t.word),
        }
    }

    /// The next word, if it is a keyword.
    pub fn key(&self) -> Option<Keyword>
        ensures { result ≡ spec.first_key (first self.now) }
    {
        match self.peek() {
            Some(Word::Key(k)) => Some(*k),
            _ => None,
        }
    }

    /// Passes over the next word.
    pub fn skip(&mut self)
        ensures { self.new ≡ spec.next self.old }
    {
        if let [_, rest @ ..] = self.rest {
            self.rest = rest;
        }
    }

    /// Passes over the next word, which was found to be this; it does not fit where it was found to be nothing.
    pub fn take<T>(&mut self, found: Option<T>) -> Result<T, Fault>
        ensures { Reads (spec.take_some found self.old) result self.new }
    {
        match found {
            Some(found) => {
                self.skip();
                Ok(found)
            }
            None => Err(self.refuse()),
        }
    }

    /// Whether the next word is this sign.
    #[tactic(auto, unfolding(crate::specs::Input::sees))]
    pub fn sees(&self, sign: Sign) -> bool
        ensures { result ≡ spec.sees sign self.now }
    {
        match self.rest {
            [] => false,
            [t, ..] => is_at(sign, &t.word),
        }
    }

    /// Passes over the next word where it is this sign.
    #[tactic(auto, unfolding(crate::specs::Input::after))]
    pub fn eat(&mut self, sign: Sign) -> bool
        ensures seen { result ≡ spec.sees sign self.old }
        ensures after { self.new ≡ spec.after sign self.old }
    {
        let found = self.sees(sign);
        if found {
            self.skip();
        }
        found
    }

    /// Passes over the next word, which has to be this sign.
    #[tactic(auto, unfolding(crate::specs::Input::expect))]
    pub fn expect(&mut self, sign: Sign) -> Result<(), Fault>
        ensures { Reads (spec.expect sign self.old) result self.new }
    {
        if self.sees(sign) {
            self.skip();
            Ok(())
        } else {
            Err(self.refuse())
        }
    }
}

//! Laws of the words that contracts use. The functions do nothing: their contracts are what is proved.

ghost use Rattle.sk_lex.specs.Laws.{IsLexed, IsPrintable};

/// The tokens of a line of printed words are these words.
#[tactic(auto, using(crate::proofs::Lexed::lexed))]
pub fn printed_words_are_read()
    ensures { IsLexed }
{}

/// A line that is tokens to its end holds no byte but 32 to 126.
#[tactic(auto, using(crate::proofs::Printable::tokens_printable))]
pub fn tokens_are_printable()
    ensures { IsPrintable }
{}

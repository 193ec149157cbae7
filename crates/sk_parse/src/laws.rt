//! Laws of the words that contracts use. The functions do nothing: their contracts are what is proved.

ghost use Rattle.sk_parse.specs.Printed.{IsReadBack, IsSaidBack};
ghost use Rattle.sk_parse.specs.Rules.{IsExact};
ghost use Rattle.sk_parse.specs.Saying.{IsAlone, IsGrammar};

/// Words are an expression or a statement by the grammar exactly where they are read as it, and no words say two
/// statements.
#[tactic(auto, using(crate::proofs::Complete::exact, crate::proofs::CompleteStatement::grammar, crate::proofs::Said::alone))]
pub fn words_are_read_by_the_grammar()
    ensures expressions { IsExact }
    ensures statements { IsGrammar }
    ensures alone { IsAlone }
{}

/// The words that are printed of an expression or a statement are read as it.
#[tactic(auto, using(crate::proofs::Prints::read_back, crate::proofs::Said::said_back))]
pub fn printed_words_are_read()
    ensures expressions { IsReadBack }
    ensures statements { IsSaidBack }
{}

//! Laws of the words that contracts use. The functions do nothing: their contracts are what is proved.

ghost use Rattle.sk_script.specs.Faults.{IsPlaced};
ghost use Rattle.sk_script.specs.Rules.{IsAlone, IsGrammar};

/// Bytes are a script by the rules exactly where they are read as it, and no bytes are two scripts.
pub fn bytes_are_read_by_the_grammar()
    ensures scripts { IsGrammar }
    ensures alone { IsAlone }
{}

/// Bytes have a first fault by the rules exactly where it is the one that is read, so no bytes have two.
pub fn faults_are_read_by_the_grammar()
    ensures { IsPlaced }
{}

// The answers are quick-xml's: what its calls return on plain bytes, our calls answer with enough room and patience.
#![tactic(auto)]

ghost use Rattle.quick.specs.Answers.{TextAsQuickXml, RefAsQuickXml, PeekAsQuickXml, WithAsQuickXml, BangAsQuickXml};

// Whatever the tokens are.
pub fn answers_as_quick_xml<T>(token: &T)
    ensures text { TextAsQuickXml }
    ensures reference { RefAsQuickXml }
    ensures peek { PeekAsQuickXml token.now }
    ensures with { WithAsQuickXml token.now }
    ensures bang { BangAsQuickXml token.now }
{}

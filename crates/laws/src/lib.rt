// What holds over any order of calls, whatever the tokens are.
#![tactic(auto)]

ghost use Rattle.model.specs.Agree.{EqualAgree, WaitsApart};
ghost use Rattle.model.specs.History.{ReportWhole};

// No order of calls loses, invents or moves a byte, the answers tell the bytes taken, and the position counts all but those
// that the rules leave out.
pub fn report_comes_out_whole<T>(_token: &T)
    ensures { ReportWhole _token.now }
{}

// Two readers over equal streams answer the same calls with the same answers, buffers and states.
pub fn equal_readers_agree<T>(_token: &T)
    ensures { EqualAgree _token.now }
{}

// So do two that differ only in waits and patience, as long as no call wears out its patience.
pub fn waits_do_not_matter<T>(_token: &T)
    ensures { WaitsApart _token.now }
{}

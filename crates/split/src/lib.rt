// What a piece is, above the way in which it is gathered, and what each call does, told by its piece.
#![tactic(auto)]

ghost use Rattle.model.specs.Cut.{text_cut, ref_cut, scan_cut};
ghost use Rattle.model.specs.Call.{text_reading, ref_reading, with_reading};
ghost use Rattle.parser.specs.Scan.{Meaning, Prefix};
ghost use Rattle.split.specs.Piece.{GatherIsPiece, PieceAlone};
ghost use Rattle.split.specs.Lawful.{Unseen};
ghost use Rattle.split.specs.Reads.{ReadsOnePiece};
ghost use Rattle.split.specs.Awaits.{PeeksFirst, BangsOnePiece};

// What is gathered is a piece, whatever tells the ends of pieces apart.
pub fn gathering_is_piece<E>(end: &E)
    ensures { GatherIsPiece E }
{}

// There is no other piece.
pub fn piece_is_alone<E>(end: &E)
    ensures { PieceAlone E }
{}

// Where a piece leaves an item, what follows that item does not decide it.
pub fn rest_is_unseen()
    ensures texts { Unseen text_cut }
    ensures refs { Unseen ref_cut }
    ensures scans { (m : Meaning) → Prefix m → Unseen (scan_cut m) }
{}

// Each call that is not refused at once gives the one piece that there is, whatever the tokens are.
pub fn calls_give_one_piece<T>(token: &T)
    ensures texts { ReadsOnePiece text_reading }
    ensures refs { ReadsOnePiece ref_reading }
    ensures scans { (m : Meaning) → Prefix m → ReadsOnePiece (with_reading token.now m) }
    ensures peeks { PeeksFirst token.now }
    ensures bangs { BangsOnePiece token.now }
{}

// Verdicts, with their bytes.
ghost use Rattle.std.specs.Prelude.{◌≡◌};
ghost use Rattle.definitions.specs.Filter.Verdicts.{verdict_byte};
ghost use Rattle.leaf_verdicts.specs.Cases.{verdict_of};

// An AND-leaf matches, or why it does not: the first reason in the order of these bytes.
#[derive(Clone, Copy, Debug, PartialEq, Eq)]
pub enum Verdict {
    AsRelation = 0x11,
    AsDistance = 0x12,
    AsKnn = 0x13,
    OtherCase = 0x20,
    OtherSide = 0x21,
    OtherOperator = 0x22,
    InsideAnother = 0x23,
    NothingOfOurs = 0x24,
    KindLeftOut = 0x30,
    TooFewArguments = 0x40,
    TooManyArguments = 0x41,
    FirstWithoutColumns = 0x50,
    FirstOfBoth = 0x51,
    FirstWithMark = 0x52,
    SecondWithoutColumns = 0x53,
    SecondOfBoth = 0x54,
    SecondWithMark = 0x55,
    BothLeft = 0x56,
    BothRight = 0x57,
    BoundOfBoth = 0x60,
    BoundWithMark = 0x61,
    KNoNumber = 0x70,
    KBelowOne = 0x71,
    KAboveGreatest = 0x72,
    SpheroidNoFlag = 0x73,
    TiesNoFlag = 0x74,
}

// The byte of a verdict.
impl From<Verdict> for u8 {
    ghost from_gives = { λ verdict byte. byte ≡ verdict_byte (verdict_of verdict) };

    #[tactic(auto, unfolding(definitions::specs::Filter::Verdicts::verdict_byte))]
    fn from(verdict: Verdict) -> u8 {
        verdict as u8
    }
}

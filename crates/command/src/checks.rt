// The checks that a command meets, in the paper's order, each with the word that it fails with.
ghost use Rattle.std.specs.Prelude.{◌≡◌, ◌<◌};
ghost use Rattle.command.specs.Checks as spec;

// A check, named after what is wrong where it fails, in the order of the paper: first those that every command meets, up to the access
// domain; then the two of SELECT, the two of GET RESPONSE, and those of a command on a file, up to the journal. The last one is about the
// answer of an expanded script.
#[derive(Clone, Copy, Debug, PartialEq, Eq)]
pub enum Check {
    BrokenForm,
    UnknownInstruction,
    WrongClass,
    BytesAfter,
    WrongCase,
    WrongParameters,
    WrongDomain,
    WrongPathLength,
    NotFound,
    NothingWaits,
    MoreThanWaits,
    NoFile,
    WrongKind,
    WrongMode,
    Deactivated,
    Never,
    OffsetOutside,
    NoRecord,
    WrongLength,
    SumTooLong,
    JournalFull,
    AnswerTooLong,
}

// Returns the word of a check that fails.
#[tactic(auto, unfolding(crate::specs::Checks::check_word))]
pub(crate) fn check_word(k: Check) -> usize
    ensures { result ≡ spec.check_word k }
{
    match k {
        Check::BrokenForm => 0x6700,
        Check::UnknownInstruction => 0x6D00,
        Check::WrongClass => 0x6E00,
        Check::BytesAfter => 0x6985,
        Check::WrongCase => 0x6700,
        Check::WrongParameters => 0x6A86,
        Check::WrongDomain => 0x6982,
        Check::WrongPathLength => 0x6700,
        Check::NotFound => 0x6A82,
        Check::NothingWaits => 0x6985,
        Check::MoreThanWaits => 0x6700,
        Check::NoFile => 0x6986,
        Check::WrongKind => 0x6981,
        Check::WrongMode => 0x6A86,
        Check::Deactivated => 0x6984,
        Check::Never => 0x6982,
        Check::OffsetOutside => 0x6B00,
        Check::NoRecord => 0x6A83,
        Check::WrongLength => 0x6700,
        Check::SumTooLong => 0x9850,
        Check::JournalFull => 0x6581,
        Check::AnswerTooLong => 0x6F00,
    }
}

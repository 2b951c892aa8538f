//! What holds of every package.
ghost use Rattle.package_rules.specs.Promise.{GoesToReaders, MembersComeFirst, OlderAreOutOfTurn, RetriesAreNotTwice};
ghost use Rattle.package_rules.specs.Text.{PackagesAreReadAgain};

/// A package is due exactly to those of its readers who are permitted its story. In every legal list that goes on from it,
/// each feed that has it has a publication of each member before it. Once more, with the same readers, its request is a
/// repeat, and with others its number is used, and an older request is out of turn: so no retry keeps an entry.
pub fn package_law()
    ensures due { GoesToReaders }
    ensures first { MembersComeFirst }
    ensures retries { RetriesAreNotTwice }
    ensures older { OlderAreOutOfTurn }
{}

/// The text of a package is read as its members, and everything else as none.
pub fn texts_law()
    ensures { PackagesAreReadAgain }
{}

//! What the parts of a path are.
ghost use Rattle.desk_routes.specs.Laws.{NumbersAreDecimals, PartsComeBack};

/// The laws of paths: a path gives back the parts that it is made of, and a number is read from its own decimal alone.
pub fn paths_law()
    ensures parts { PartsComeBack }
    ensures numbers { NumbersAreDecimals }
{}

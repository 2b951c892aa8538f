//! Laws of the definitions.
ghost use Rattle.http_wire.specs.Laws.{AreUnique, AreApart, AreTotal, AreOpen};

/// Each input has one list of requests and one ending, and either a request begins it or an ending. Unfinished bytes decide
/// neither.
pub fn requests_law()
    ensures unique { AreUnique }
    ensures apart { AreApart }
    ensures total { AreTotal }
    ensures unfinished { AreOpen }
{}

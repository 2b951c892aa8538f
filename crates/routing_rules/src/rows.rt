//! Worked examples: what the definitions say of zones. Each function has an empty body, and its clauses are computed.
ghost use Rattle.std.specs.Prelude.{◌≡◌, codes, Some, None, true, false};
ghost use Rattle.news_types.specs.Clock.{local_at};
ghost use Rattle.news_types.specs.Routing.{is_zone};

/// The first moment of all is a Thursday, which is day 3 from Monday on. A clock with `+` is ahead of UTC and one with
/// `-` behind it, and a POSIX rule has it the other way round.
pub fn clocks_of_zones()
    ensures thursday { local_at (codes "UTC0") 0 ≡ Some (3, 0) }
    ensures monday { local_at (codes "UTC0") 345600 ≡ Some (0, 0) }
    ensures sunday { local_at (codes "UTC0") 345599 ≡ Some (6, 86399) }
    ensures ahead { local_at (codes "+02:00") 1714550400 ≡ Some (2, 36000) }
    ensures behind { local_at (codes "-02:00") 1714550400 ≡ Some (2, 21600) }
    ensures day_before { local_at (codes "-00:01") 0 ≡ Some (2, 86340) }
    ensures posix_ahead { local_at (codes "EET-2") 1714550400 ≡ Some (2, 36000) }
    ensures posix_behind { local_at (codes "EST5") 1714550400 ≡ Some (2, 10800) }
{}

/// The name of a POSIX zone has 3 to 15 letters.
pub fn zones_by_name()
    ensures none { is_zone (codes "0") ≡ false }
    ensures two { is_zone (codes "AB0") ≡ false }
    ensures three { is_zone (codes "ABC0") ≡ true }
    ensures fifteen { is_zone (codes "ABCDEFGHIJKLMNO0") ≡ true }
    ensures sixteen { is_zone (codes "ABCDEFGHIJKLMNOP0") ≡ false }
    ensures without_offset { is_zone (codes "ABC") ≡ false }
{}

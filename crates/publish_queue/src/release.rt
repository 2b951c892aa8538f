//! Releases, the places in which they wait, and between which moments they are.
ghost use Rattle.std.specs.Prelude.{◌≡◌, false, true};
ghost use Rattle.std.specs.List.{list_all};
ghost use Rattle.publish_queue.specs.Places.{FitsPlace, FitsPlaces, fits_place, fits_due};
ghost use Rattle.publish_queue.specs.Rows.{awaited_moment, awaited_number, withdrawn, emptied};

use news_types::{Due, Moment, Name};

// A place holds the numbers below this one, and the moments below the other.
const NUMBERS: u64 = 1 << 26;

const MOMENTS: u64 = 1 << 38;

/// When a publication is released.
#[derive(Clone, Copy)]
pub struct Release {
    pub moment: Moment,
    pub number: u32,
}

impl Release {
    // Whether a place can hold it.
    fn fits_place(self) -> bool
        ensures { result ≡ fits_place self }
    {
        self.number >= 1 && (self.number as u64) < NUMBERS && self.moment < MOMENTS
    }
}

/// Whether a publication can wait until its own release, and until that for each of those to whom it is due.
pub fn fit_places(number: u32, release: Moment, due: &[Due]) -> bool
    ensures { result ≡ true → FitsPlaces number release due.now }
{
    let own = Release {
        moment: release,
        number,
    };
    own.fits_place() && all_fit(number, due)
}

// Whether a place can hold each of its releases to them.
fn all_fit(number: u32, due: &[Due]) -> bool
    ensures { result ≡ list_all (fits_due number) due.now }
{
    due.iter().all(|it| {
        let release = Release {
            moment: it.release,
            number,
        };
        release.fits_place()
    })
}

/// A release among those that wait. One that is withdrawn keeps its place until it would be the first, and counts for nothing.
///
/// There is one for each publication that waits and each of those for whom it does, so it is one word: the moment, above
/// 26 bits of number. Publications are counted from 1 on, and a number of 0 says that it is withdrawn.
#[derive(Clone, Copy)]
pub struct Awaited {
    bits: u64,
}

const _: () = prove!(size_of::<Awaited>() == 8);

impl Awaited {
    /// One that waits.
    #[tactic(auto, unfolding(crate::specs::Rows::awaited_moment, crate::specs::Rows::awaited_number, crate::specs::Rows::withdrawn))]
    pub fn new(release: Release) -> Awaited
        requires { FitsPlace release }
        ensures moment { awaited_moment result ≡ release.moment }
        ensures number { awaited_number result ≡ release.number }
        ensures waits { withdrawn result ≡ false }
    {
        Awaited {
            bits: release.moment * NUMBERS + release.number as u64,
        }
    }

    /// When it is released.
    #[tactic(auto, unfolding(crate::specs::Rows::awaited_moment))]
    pub fn moment(self) -> Moment
        ensures { result ≡ awaited_moment self }
    {
        self.bits / NUMBERS
    }

    /// The number of its publication, or 0 where it is withdrawn.
    #[tactic(auto, unfolding(crate::specs::Rows::awaited_number))]
    pub fn number(self) -> u32
        ensures { result ≡ awaited_number self }
    {
        (self.bits % NUMBERS) as u32
    }

    /// Whether it is withdrawn.
    #[tactic(auto, unfolding(crate::specs::Rows::awaited_number, crate::specs::Rows::withdrawn))]
    pub fn is_withdrawn(self) -> bool
        ensures { result ≡ withdrawn self }
    {
        self.number() == 0
    }

    /// Withdraws it. Its moment stays.
    #[tactic(auto, unfolding(crate::specs::Rows::emptied))]
    pub fn withdraw(&mut self)
        ensures { self.new ≡ emptied self.old }
    {
        self.bits -= self.bits % NUMBERS;
    }
}

/// Between which moments, with both, publications are released to a subscriber.
#[derive(Clone, Copy)]
pub struct Span {
    pub subscriber: Name,
    pub first: Moment,
    pub last: Moment,
}

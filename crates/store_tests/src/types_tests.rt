//! Names, and small texts.

use news_types::{Denial, Media, Name, Thing, offset_seconds, two_digits};

#[test]
fn names_have_1_to_32_bytes_of_their_own(rt: HostRuntime) {
    assert!(rt; Name::read("desk-1_a").is_some());
    assert!(rt; Name::read("").is_none());
    assert!(rt; Name::read("Desk").is_none());
    assert!(rt; Name::read("abcdefghijklmnopqrstuvwxyz012345").is_some());
    assert!(rt; Name::read("abcdefghijklmnopqrstuvwxyz0123456").is_none());
}

#[test]
fn offsets_go_to_a_minute_before_a_day(rt: HostRuntime) {
    assert_eq!(rt; two_digits(b'0', b'9'), Some(9));
    assert_eq!(rt; two_digits(b'0', b'a'), None);
    assert_eq!(rt; offset_seconds(b'-', 5, 30), Some(-19800));
    assert_eq!(rt; offset_seconds(b'+', 23, 59), Some(86340));
    assert_eq!(rt; offset_seconds(b'+', 24, 0), None);
    assert_eq!(rt; offset_seconds(b' ', 1, 0), None);
}

#[test]
fn words_and_reasons(rt: HostRuntime) {
    assert_eq!(rt; Media::Composite.word(), "composite");
    assert!(rt; Denial::unless_there(Thing::Desk, true).is_none());
    assert!(rt;
        Denial::unless_there(Thing::Desk, false)
            == Some(Denial::UnknownThing { thing: Thing::Desk })
    );
    assert!(rt; Denial::unless_below(Thing::User, 4095, 4096).is_none());
    assert!(rt;
        Denial::unless_below(Thing::User, 4096, 4096)
            == Some(Denial::Limit {
                which: Thing::User,
                number: 4096
            })
    );
}

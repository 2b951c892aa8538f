//! What a user may do, asked alone.

use crate::tables::{name, tables_of};
use news_types::Privilege;

const ANA: &str =
    r#"{"by":"admin","number":1,"do":"add_user","user":"ana","privileges":["write"]}"#;

/// A user has one privilege, and is asked for it and for another.
#[test]
fn a_privilege_is_asked_of_a_user(rt: HostRuntime) {
    let tables = tables_of(rt.alloc(), &[ANA]).expect(&rt, "a request is not done");
    let ana = name(&rt, "ana");
    let held = [
        tables.desks.holds(&ana, Some(Privilege::Write)),
        tables.desks.holds(&ana, Some(Privilege::Kill)),
    ];
    drop(tables);
    assert_eq!(rt; held, [true, false]);
}

//! Links.
use crate::{Failed, Link, UnreachableLink};
use news_types::{Name, Names};
use std::test::Fail;

#[test]
fn a_link_that_reaches_nobody_fails(rt: HostRuntime) -> Result<(), Fail> {
    let alpha = Name::read("alpha").ok_or("no name")?;
    let mut names = Vec::new(rt.alloc());
    names.push(alpha)?;
    let mut link = UnreachableLink::new(Names::of(names));
    assert!(rt; link.names().len() == 1 && link.names()[0].as_str() == "alpha");
    assert_eq!(rt; link.send(&alpha, b"FRAME alpha 1 0\n"), Err(Failed));
    assert_eq!(rt; link.receipt(&alpha, &mut [0; 128]), Err(Failed));
    assert_eq!(rt; link.fault_count(), 2);
    Ok(())
}

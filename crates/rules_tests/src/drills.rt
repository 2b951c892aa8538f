//! How many requests a drill has.

use drill_plan::Plan;
use news_types::Memory;
use std::alloc::Global;

/// Whether a drill has no more requests. If it has, one is passed over.
fn has_ended(plan: &mut Plan) -> Result<bool, Memory> {
    let request = plan.next()?;
    let is_none = request.is_none();
    drop(request);
    Ok(is_none)
}

/// Whether a drill has no more than so many requests.
fn ends_behind(plan: &mut Plan, count: u32) -> Result<bool, Memory> {
    for _ in 0..count {
        has_ended(plan)?;
    }
    has_ended(plan)
}

/// Whether a drill of so many stories with the seed 0 has no more than so many requests.
fn ends(alloc: Global, stories: u32, count: u32) -> Result<bool, Memory> {
    let mut plan = Plan::new(alloc, stories, 0)?;
    let ends = ends_behind(&mut plan, count);
    drop(plan);
    ends
}

/// A desk with its member, three requests for each of eight products, and one for each of eight subscribers.
#[test]
fn it_is_set_up_by_34_requests(rt: HostRuntime) {
    let alloc = rt.alloc();
    assert_eq!(rt;
        [ends(alloc, 0, 33), ends(alloc, 0, 34)],
        [Ok(false), Ok(true)]
    );
}

/// The first story of the seed 0 is under embargo: it is created, locked and published.
#[test]
fn a_story_under_embargo_takes_three(rt: HostRuntime) {
    let alloc = rt.alloc();
    assert_eq!(rt;
        [ends(alloc, 1, 36), ends(alloc, 1, 37)],
        [Ok(false), Ok(true)]
    );
}

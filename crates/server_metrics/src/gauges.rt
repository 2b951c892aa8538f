//! Gauges of a room, each of one number.
ghost use Rattle.std.specs.Prelude.{◌≡◌, ◌++◌, string_bytes, OnOk};
ghost use Rattle.std.specs.List.{flat_map};
ghost use Rattle.server_metrics.specs.Gauges.{gauge, gauge_text};

use crate::family::Family;
use crate::text::put_plain;
use std::alloc::AllocError;

/// A family of one number, with it.
#[derive(Clone, Copy)]
pub(crate) struct Gauge {
    family: Family,
    value: u64,
}

impl Gauge {
    pub(crate) fn new(family: Family, value: u64) -> Gauge
        ensures { result ≡ gauge family value }
    {
        Gauge { family, value }
    }
}

/// Appends these families.
pub(crate) fn put_gauges(text: &mut String, gauges: &[Gauge]) -> Result<(), AllocError>
    ensures { OnOk result (string_bytes text.new ≡ string_bytes text.old ++ flat_map gauge_text gauges.now) }
{
    for gauge in gauges {
        put_plain(text, gauge.family, gauge.value)?;
    }
    Ok(())
}

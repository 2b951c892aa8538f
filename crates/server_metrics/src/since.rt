//! What a server counted since its start.
ghost use Rattle.std.specs.Prelude.{◌≡◌, ◌++◌, string_bytes, OnOk};
ghost use Rattle.std.specs.List.{flat_map};
ghost use Rattle.server_metrics.specs.Since.{
  attempts_text,
  counts_text,
  ingest_sample,
  ingest_moment_sample,
  ingests_text,
  ingest_moments_text,
  log_faults_text,
  provider_sample,
  request_sample,
  requests_text,
  risen,
};

use crate::family::Family;
use crate::text::{put_heading, put_labelled, put_numbered, put_plain};
use server_counts::{Attempts, Counts, ProviderCount, StatusCount};
use std::alloc::AllocError;

/// Appends the families of the counts.
pub(crate) fn put_counts(text: &mut String, counts: &Counts) -> Result<(), AllocError>
    ensures { OnOk result (string_bytes text.new ≡ string_bytes text.old ++ counts_text counts.now) }
{
    put_requests(text, counts.requests())?;
    put_attempts(text, counts.attempts())?;
    put_log_faults(text, counts.log_faults())?;
    put_ingests(text, counts.ingests())?;
    put_ingest_moments(text, counts.ingests())
}

fn put_requests(text: &mut String, requests: &[StatusCount]) -> Result<(), AllocError>
    ensures { OnOk result (string_bytes text.new ≡ string_bytes text.old ++ requests_text requests.now) }
{
    if requests.is_empty() {
        return Ok(());
    }
    put_heading(text, Family::Requests)?;
    put_request_samples(text, requests)
}

fn put_request_samples(text: &mut String, requests: &[StatusCount]) -> Result<(), AllocError>
    ensures { OnOk result (string_bytes text.new ≡ string_bytes text.old ++ flat_map request_sample requests.now) }
{
    for counted in requests {
        put_numbered(
            text,
            Family::Requests,
            "status",
            counted.status,
            counted.count,
        )?;
    }
    Ok(())
}

fn put_attempts(text: &mut String, attempts: Attempts) -> Result<(), AllocError>
    ensures { OnOk result (string_bytes text.new ≡ string_bytes text.old ++ attempts_text attempts) }
{
    let Attempts {
        delivered,
        link_faults,
        no_receipts,
    } = attempts;
    if delivered == 0 && link_faults == 0 && no_receipts == 0 {
        return Ok(());
    }
    put_heading(text, Family::Attempts)?;
    put_risen(text, "delivered", delivered)?;
    put_risen(text, "link_fault", link_faults)?;
    put_risen(text, "no_receipt", no_receipts)
}

/// Appends the sample of an outcome, from its first time on.
fn put_risen(text: &mut String, outcome: &str, count: u64) -> Result<(), AllocError>
    ensures { OnOk result (string_bytes text.new ≡ string_bytes text.old ++ risen outcome.now count) }
{
    if count == 0 {
        return Ok(());
    }
    put_labelled(text, Family::Attempts, "outcome", outcome, count)
}

fn put_log_faults(text: &mut String, count: u64) -> Result<(), AllocError>
    ensures { OnOk result (string_bytes text.new ≡ string_bytes text.old ++ log_faults_text count) }
{
    if count == 0 {
        return Ok(());
    }
    put_plain(text, Family::LogFaults, count)
}

fn put_ingests(text: &mut String, ingests: &[ProviderCount]) -> Result<(), AllocError>
    ensures { OnOk result (string_bytes text.new ≡ string_bytes text.old ++ ingests_text ingests.now) }
{
    if ingests.is_empty() {
        return Ok(());
    }
    put_heading(text, Family::Ingests)?;
    put_ingest_samples(text, ingests)
}

fn put_ingest_samples(text: &mut String, ingests: &[ProviderCount]) -> Result<(), AllocError>
    ensures { OnOk result (string_bytes text.new ≡ string_bytes text.old ++ flat_map ingest_sample ingests.now) }
{
    for counted in ingests {
        put_provider(text, Family::Ingests, counted, counted.count)?;
    }
    Ok(())
}

fn put_ingest_moments(text: &mut String, ingests: &[ProviderCount]) -> Result<(), AllocError>
    ensures { OnOk result (string_bytes text.new ≡ string_bytes text.old ++ ingest_moments_text ingests.now) }
{
    if ingests.is_empty() {
        return Ok(());
    }
    put_heading(text, Family::IngestMoment)?;
    put_moment_samples(text, ingests)
}

fn put_moment_samples(text: &mut String, ingests: &[ProviderCount]) -> Result<(), AllocError>
    ensures { OnOk result (string_bytes text.new ≡ string_bytes text.old ++ flat_map ingest_moment_sample ingests.now) }
{
    for counted in ingests {
        put_provider(text, Family::IngestMoment, counted, counted.last)?;
    }
    Ok(())
}

/// Appends a sample of a provider.
fn put_provider(
    text: &mut String,
    family: Family,
    counted: &ProviderCount,
    value: u64,
) -> Result<(), AllocError>
    ensures { OnOk result (string_bytes text.new ≡ string_bytes text.old ++ provider_sample family counted.now value) }
{
    put_labelled(text, family, "provider", counted.provider.as_str(), value)
}

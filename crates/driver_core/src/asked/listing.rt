ghost use Rattle.driver_core.specs.Listing.{counter_decision, list, read_by, registered_with, row_of, shows_source, source_decision, source_row, source_value, type_of, uses_of, value, value_under, with_row, with_rows};
ghost use Rattle.driver_core.specs.Renewal.{source_at};
ghost use Rattle.std.specs.Prelude.{◌≡◌, map, filter, IfOk, OnOk};

use crate::state::registry::Registry;
use byte_strings::{Items, Text};
use channel_uri::Channel;
use counters::Counter;
use policy_core::{Act, Decision, Request};
use std::alloc::{AllocError, Global};
use stream_registry::LogRow;

/// The type id of the counters of publications.
const PUBLICATION_TYPE: i32 = 10001;

/// The type id of the counters of images.
const IMAGE_TYPE: i32 = 10002;

/// A counter as it is listed.
#[derive(Debug, PartialEq, Eq, Drop)]
pub struct ListedCounter {
    /// The registration number; the source number of a publication or an image.
    pub number: u64,
    /// What kind of thing is counted; the policy knows the counter by it.
    pub type_id: i32,
    pub value: i64,
    /// What readers call the counter.
    pub label: Text,
}

/// What a client is shown of all counters.
#[derive(Debug, PartialEq, Eq, Drop)]
pub enum Listed {
    /// The counters that the client may see, by their numbers. One that it may not see looks as if it were not there.
    Counters(Items<ListedCounter>),
    /// The client that looks is not attached.
    WrongClient,
}

/// What a client is shown of one counter.
#[derive(Debug, PartialEq, Eq, Drop)]
pub enum Shown {
    /// The value of the counter.
    Value(i64),
    /// The policy does not show the client that counter, by this decision.
    Denied(Decision),
    /// There is no counter of that number.
    UnknownCounter,
    /// The client that looks is not attached.
    WrongClient,
}

/// The counter as it is listed.
fn row_of(alloc: Global, counter: &Counter) -> Result<ListedCounter, AllocError>
    ensures { IfOk result (λ row. row ≡ row_of counter.now) }
{
    Ok(ListedCounter {
        number: counter.number,
        type_id: counter.type_id,
        value: counter.value,
        label: Text::new(alloc, counter.label.as_str())?,
    })
}

/// The counters as they are listed.
fn rows_of(alloc: Global, counters: &[Counter]) -> Result<Vec<ListedCounter>, AllocError>
    ensures { IfOk result (λ rows. rows.items ≡ map row_of counters.now) }
{
    let mut rows = Vec::new(alloc);
    for counter in counters {
        rows.push(row_of(alloc, counter)?)?;
    }
    Ok(rows)
}

/// How many are registered with the publication of this source number, at most the greatest value of a counter.
fn registrations_of(registry: &Registry, source: u64) -> i64
    ensures { result ≡ registered_with registry.now source }
{
    i64::try_from(registry.streams.registrations_of(source)).unwrap_or(i64::MAX)
}

/// How many read the log of this source number, at most the greatest value of a counter.
fn readers_of(registry: &Registry, source: u64) -> i64
    ensures { result ≡ read_by registry.now source }
{
    i64::try_from(registry.reader_count(source)).unwrap_or(i64::MAX)
}

/// How many are registered with the publication, or how many read the image.
fn uses_of(registry: &Registry, source: &LogRow) -> i64
    ensures { result ≡ uses_of registry.now source.now }
{
    if source.is_published() {
        registrations_of(registry, source.number)
    } else {
        readers_of(registry, source.number)
    }
}

/// The type id of the log's counter.
fn type_of(source: &LogRow) -> i32
    ensures { result ≡ type_of source.now }
{
    if source.is_published() {
        PUBLICATION_TYPE
    } else {
        IMAGE_TYPE
    }
}

/// The log as it is listed.
fn source_row(
    registry: &Registry,
    alloc: Global,
    source: &LogRow,
) -> Result<ListedCounter, AllocError>
    ensures { IfOk result (λ row. row ≡ source_row registry.now source.now) }
{
    Ok(ListedCounter {
        number: source.number,
        type_id: type_of(source),
        value: uses_of(registry, source),
        label: source.channel.canonical(alloc)?,
    })
}

/// What the policy in force decides on showing the log.
pub(crate) fn source_decision(registry: &Registry, principal: u32, source: &LogRow) -> Decision
    ensures { result ≡ source_decision registry.now principal source.now }
{
    let request = Request {
        principal,
        act: Act::List,
        channel: &source.channel,
        stream: source.stream,
    };
    Decision {
        principal,
        act: Act::List,
        subject: source.number,
        stream: source.stream,
        verdict: registry.compiled.verdict(&request),
    }
}

/// What the policy in force decides on showing the counter.
pub(crate) fn counter_decision(registry: &Registry, principal: u32, counter: &Counter) -> Decision
    ensures { result ≡ counter_decision registry.now principal counter.now }
{
    let channel = Channel::counter();
    let request = Request {
        principal,
        act: Act::List,
        channel: &channel,
        stream: counter.type_id,
    };
    Decision {
        principal,
        act: Act::List,
        subject: counter.number,
        stream: counter.type_id,
        verdict: registry.compiled.verdict(&request),
    }
}

/// Puts the row before the first one of a greater number.
fn put_row(rows: &mut Vec<ListedCounter>, row: ListedCounter) -> Result<(), AllocError>
    ensures { OnOk result (rows.new.items ≡ with_row rows.old.items row) }
{
    let mut at = 0;
    while at < rows.len() && rows[at].number <= row.number {
        at += 1;
    }
    rows.insert(at, row)?;
    Ok(())
}

/// Puts those of the logs that the policy in force shows, as they are listed, among the rows.
fn put_sources(
    rows: &mut Vec<ListedCounter>,
    registry: &Registry,
    alloc: Global,
    principal: u32,
    logs: &[LogRow],
) -> Result<(), AllocError>
    ensures { OnOk result (rows.new.items ≡ with_rows rows.old.items (map (source_row registry.now) (filter (shows_source registry.now principal) logs.now))) }
{
    for source in logs {
        if source_decision(registry, principal, source).verdict.allow {
            put_row(rows, source_row(registry, alloc, source)?)?;
        }
    }
    Ok(())
}

/// The value, where it is decided that it may be shown.
fn value_under(decision: Decision, value: i64) -> Shown
    ensures { result ≡ value_under decision value }
{
    if decision.verdict.allow {
        Shown::Value(value)
    } else {
        Shown::Denied(decision)
    }
}

/// The value of the log of this number, as a client is answered.
fn source_value(registry: &Registry, principal: u32, number: u64) -> Shown
    ensures { result ≡ source_value registry.now principal (source_at registry.now.streams.sources number) }
{
    let Some(source) = registry.source(number) else {
        return Shown::UnknownCounter;
    };
    value_under(
        source_decision(registry, principal, source),
        uses_of(registry, source),
    )
}

impl Registry {
    /// What a client is shown of the counters, those of publications and images among them.
    ///
    /// # Errors
    /// Where there is no memory for the list.
    #[tactic(auto, unfolding(crate::specs::Listing::list))]
    pub fn list(&self, alloc: Global, client: u64) -> Result<Listed, AllocError>
        ensures { IfOk result (λ listed. listed ≡ list self.now client) }
    {
        let Some(client) = self.clients.get(client) else {
            return Ok(Listed::WrongClient);
        };
        let shown = self
            .counters
            .visible(alloc, &self.compiled.policy(), client.principal)?;
        let mut rows = rows_of(alloc, shown.as_slice())?;
        let logs = self.streams.sources();
        put_sources(&mut rows, self, alloc, client.principal, logs)?;
        Ok(Listed::Counters(Items::from(rows)))
    }

    /// What a client is shown of the counter of this number. It takes no memory.
    #[tactic(auto, unfolding(crate::specs::Listing::value))]
    pub fn value(&self, client: u64, number: u64) -> Shown
        ensures { result ≡ value self.now client number }
    {
        let Some(client) = self.clients.get(client) else {
            return Shown::WrongClient;
        };
        let Some(counter) = self.counters.get(number) else {
            return source_value(self, client.principal, number);
        };
        let decision = counter_decision(self, client.principal, counter);
        value_under(decision, counter.value)
    }
}

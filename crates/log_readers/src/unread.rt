//! Images that no subscription reads, from what is kept: the policy is not asked.

ghost use Rattle.client_registry.specs.declared.client.Client.{Client};
ghost use Rattle.log_readers.specs.Numbering.{Rises, source_of};
ghost use Rattle.log_readers.specs.Readers.{all_readers};
ghost use Rattle.log_readers.specs.Turnover.{is_lacked_by, is_same_pair, pair_at};
ghost use Rattle.log_readers.specs.Unread.{closed_beside, has_none, has_pair, is_closed, is_closed_beside, is_left, unread_beside, unread_of, without_unread};
ghost use Rattle.policy_core.specs.RuleList.{Rules};
ghost use Rattle.std.specs.List.{list_any};
ghost use Rattle.std.specs.Prelude.{◌≡◌, ◌==◌, ◌&&◌, ◌≤◌, ◌++◌, ℕ, List, IfOk, OnOk, filter, length, map};
ghost use Rattle.stream_registry.specs.Images.{without_images};
ghost use Rattle.stream_registry.specs.Lingering.{place_of};
ghost use Rattle.stream_registry.specs.Origins.{is_remote};
ghost use Rattle.stream_registry.specs.Pairs.{pairs_of};

use crate::readers::Readers;
use arrayvec::ArrayVec;
use byte_strings::Items;
use rows::Rows;
use std::alloc::{AllocError, Global};
use stream_registry::{LogPlace, LogRow, Pair, Streams};

/// The numbers of the images beside which no subscription's number stands.
fn unread_beside(logs: &[LogRow], slots: &[Rows<u64, 512>]) -> ArrayVec<u64, 512>
    requires same { length slots.now ≡ length logs.now }
    requires few { length (filter is_remote logs.now) ≤ 512 }
    ensures { result.items ≡ unread_beside logs.now slots.now }
{
    let mut numbers = ArrayVec::new();
    for at in 0..logs.len() {
        let log = &logs[at];
        if !log.is_published() && slots[at].as_slice().is_empty() {
            numbers.push(log.number);
        }
    }
    numbers
}

/// Whether it is an image beside which no subscription's number stands. Where one does, the log is not looked at.
#[tactic(auto, using(crate::proofs::UnreadLemmas::empty_is))]
fn is_unread(log: &LogRow, numbers: &[u64]) -> bool
    ensures { result ≡ (has_none numbers.now && is_remote log.now) }
{
    numbers.is_empty() && !log.is_published()
}

/// Whether beside each image some subscription's number stands.
fn are_all_read(logs: &[LogRow], slots: &[Rows<u64, 512>]) -> bool
    requires { length slots.now ≡ length logs.now }
    ensures { result ≡ has_none (unread_beside logs.now slots.now) }
{
    for at in 0..logs.len() {
        if is_unread(&logs[at], slots[at].as_slice()) {
            return false;
        }
    }
    true
}

/// Whether that pair is one of these.
fn has_same(pairs: &[Pair], pair: Pair) -> bool
    ensures { result ≡ list_any (is_same_pair pair) pairs.now }
{
    pairs.iter().any(|other| pair.source == other.source && pair.subscription == other.subscription)
}

/// Whether these pairs lack that one.
pub(crate) fn is_lacked_by(pairs: &[Pair], pair: Pair) -> bool
    ensures { result ≡ is_lacked_by pairs.now pair }
{
    !has_same(pairs, pair)
}

/// Whether one of these subscriptions' pairs with the log of that source stays where these go.
fn has_staying(source: u64, numbers: &[u64], gone: &[Pair]) -> bool
    ensures { result ≡ list_any (λ number. is_lacked_by gone.now (pair_at source number)) numbers.now }
{
    numbers.iter().any(|number| {
        let pair = Pair {
            source,
            subscription: *number,
        };
        is_lacked_by(gone, pair)
    })
}

/// Whether one of these pairs is of the log.
fn has_pair(pairs: &[Pair], log: &LogRow) -> bool
    ensures { result ≡ has_pair pairs.now log.now }
{
    pairs.iter().any(|pair| pair.source == log.number)
}

/// Whether the log of that source is one of those that close.
fn has_place(closes: &[LogPlace], source: u64) -> bool
    ensures { result ≡ list_any (λ closed. closed.source == source) closes.now }
{
    closes.iter().any(|closed| closed.source == source)
}

/// Whether the log is none of those that close.
fn is_left(closes: &[LogPlace], log: &LogRow) -> bool
    ensures { result ≡ is_left closes.now log.now }
{
    !has_place(closes, log.number)
}

/// Whether the log is one of those that close, or an image of which no pair is left where these go and these come.
fn is_closed(
    closes: &[LogPlace],
    gone: &[Pair],
    come: &[Pair],
    log: &LogRow,
    numbers: &[u64],
) -> bool
    ensures { result ≡ is_closed_beside closes.now gone.now come.now log.now numbers.now }
{
    !is_left(closes, log)
        || (!log.is_published() && !(has_staying(log.number, numbers, gone) || has_pair(come, log)))
}

/// Puts the places of the logs that close after the others.
fn push_closed(
    places: &mut Items<LogPlace>,
    closes: &[LogPlace],
    gone: &[Pair],
    come: &[Pair],
    logs: &[LogRow],
    slots: &[Rows<u64, 512>],
) -> Result<(), AllocError>
    requires { length slots.now ≡ length logs.now }
    ensures { OnOk result (places.new ≡ places.old ++ closed_beside closes.now gone.now come.now logs.now slots.now) }
{
    for at in 0..logs.len() {
        if is_closed(closes, gone, come, &logs[at], slots[at].as_slice()) {
            places.push(LogPlace {
                source: logs[at].number,
                place: logs[at].place,
            })?;
        }
    }
    Ok(())
}

impl Readers {
    /// The logs that close where these do, and where these pairs go and these come: beside these logs the images of which no
    /// pair is left.
    pub fn closed(
        &self,
        alloc: Global,
        streams: &Streams,
        closes: &[LogPlace],
        gone: &[Pair],
        come: &[Pair],
    ) -> Result<Items<LogPlace>, AllocError>
        requires { length self.now ≡ length streams.now.sources }
        ensures { (clients : List Client) (policy : Rules) (epoch low last : ℕ) → Rises source_of low last streams.now.sources → self.now ≡ all_readers streams.now clients policy epoch → IfOk result (λ places. places ≡ map place_of (filter (is_closed (pairs_of streams.now clients policy epoch) closes.now gone.now come.now) streams.now.sources)) }
    {
        let mut places = Items::new(alloc);
        push_closed(
            &mut places,
            closes,
            gone,
            come,
            streams.sources(),
            self.rows(),
        )?;
        Ok(places)
    }

    /// Whether a subscription reads each image: whether [`Readers::unread`] has none. It takes no memory, nor has it room
    /// for their numbers.
    pub fn are_all_read(&self, streams: &Streams) -> bool
        requires { length self.now ≡ length streams.now.sources }
        ensures { (clients : List Client) (policy : Rules) (epoch low last : ℕ) → Rises source_of low last streams.now.sources → self.now ≡ all_readers streams.now clients policy epoch → result ≡ has_none (unread_of streams.now (pairs_of streams.now clients policy epoch)) }
    {
        are_all_read(streams.sources(), self.rows())
    }

    /// The images that no subscription reads, by their numbers. It takes no memory.
    pub fn unread(&self, streams: &Streams) -> ArrayVec<u64, 512>
        requires { length self.now ≡ length streams.now.sources }
        ensures numbers { (clients : List Client) (policy : Rules) (epoch low last : ℕ) → Rises source_of low last streams.now.sources → self.now ≡ all_readers streams.now clients policy epoch → result.items ≡ unread_of streams.now (pairs_of streams.now clients policy epoch) }
        ensures gone { (clients : List Client) (policy : Rules) (epoch low last : ℕ) → Rises source_of low last streams.now.sources → self.now ≡ all_readers streams.now clients policy epoch → without_images streams.now result.items ≡ without_unread streams.now clients policy epoch }
    {
        unread_beside(streams.sources(), self.rows())
    }
}

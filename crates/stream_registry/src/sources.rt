ghost use Rattle.stream_registry.specs.Few.{AreFew};
ghost use Rattle.stream_registry.specs.Images.{stays_beside};
ghost use Rattle.stream_registry.specs.Lingering.{settled_one, stays_live};
ghost use Rattle.stream_registry.specs.Rest.{settled_where};
ghost use Rattle.stream_registry.specs.Origins.{is_published, is_remote};
ghost use Rattle.std.specs.Prelude.{◌≡◌, ◌≤◌, ◌<◌, ◌++◌, ◌∷◌, [], IfOk, length, filter, map, true};

use crate::images::Beside;
use crate::lingering::{Settling, SettlingOne, StaysLive};
use crate::row::{LogRow, Registration};
use rows::Rows;
use std::alloc::{AllocError, Global};
use std::marker::Model;

/// The live logs, at most 256 publications and 512 images, in room that is there from the beginning.
#[derive(Debug, Drop)]
pub(crate) struct Sources {
    rows: Rows<LogRow, 768>,
    /// How many of them are publications.
    published: usize,
}

impl Model for Sources {
    ghost use Rattle.stream_registry.specs.declared.row.LogRow.{LogRow};
    ghost use Rattle.stream_registry.specs.Few.{AreCounted};
    ghost use Rattle.std.specs.Prelude.{List};

    ghost Value = { List LogRow };

    ghost view = { λ sources. sources.rows };

    ghost invariant = { λ sources. AreCounted sources.rows sources.published };
}

/// How many of the logs are publications.
fn publications_among(logs: &[LogRow]) -> usize
    ensures { result ≡ length (filter is_published logs.now) }
{
    logs.iter().filter(|log| log.is_published()).count()
}

impl Sources {
    /// No logs yet.
    #[tactic(auto, using(crate::proofs::FewLemmas::none_few))]
    pub(crate) fn new(alloc: Global) -> Result<Sources, AllocError>
        ensures { IfOk result (λ sources. sources ≡ []) }
    {
        Ok(Sources {
            rows: Rows::new(alloc)?,
            published: 0,
        })
    }

    /// Other logs, equal to these.
    pub(crate) fn copy(&self, alloc: Global) -> Result<Sources, AllocError>
        ensures { IfOk result (λ sources. sources ≡ self.now) }
    {
        Ok(Sources {
            rows: self.rows.copy(alloc)?,
            published: self.published,
        })
    }

    pub(crate) fn as_slice(&self) -> &[LogRow]
        ensures value { result.now ≡ self.now }
        ensures few { length result.now ≤ 768 }
        ensures kinds { AreFew result.now }
    {
        self.rows.as_slice()
    }

    /// How many publications there are.
    pub(crate) fn publications(&self) -> usize
        ensures { result ≡ length (filter is_published self.now) }
    {
        self.published
    }

    /// How many images there are.
    pub(crate) fn images(&self) -> usize
        ensures { result ≡ length (filter is_remote self.now) }
    {
        self.rows.len() - self.published
    }

    /// Puts a publication after the others.
    pub(crate) fn push_publication(&mut self, log: LogRow)
        requires kind { is_published log ≡ true }
        requires room { length (filter is_published self.old) < 256 }
        ensures { self.new ≡ self.old ++ log ∷ [] }
    {
        self.rows.push(log);
        self.published += 1;
    }

    /// Puts an image after the others.
    pub(crate) fn push_image(&mut self, log: LogRow)
        requires kind { is_remote log ≡ true }
        requires room { length (filter is_remote self.old) < 512 }
        ensures { self.new ≡ self.old ++ log ∷ [] }
    {
        self.rows.push(log);
    }

    /// Lets each publication linger from `now` on with which none of these is registered.
    pub(crate) fn settle(&mut self, registrations: &[Registration], now: u64)
        ensures { self.new ≡ map (settled_one registrations.now now) self.old }
    {
        self.rows.change(&Settling { registrations, now });
    }

    /// As [`Sources::settle`], of the log of this number alone.
    pub(crate) fn settle_where(&mut self, source: u64, registrations: &[Registration], now: u64)
        ensures { self.new ≡ map (settled_where source registrations.now now) self.old }
    {
        self.rows.change(&SettlingOne {
            source,
            registrations,
            now,
        });
    }

    /// Takes the logs away that close at this moment, where these images are silent.
    pub(crate) fn close(&mut self, now: u64, silent: &[u64])
        ensures { self.new ≡ filter (stays_live now silent.now) self.old }
    {
        self.rows.retain(&StaysLive { now, silent });
        self.published = publications_among(self.rows.as_slice());
    }

    /// Takes the images of these numbers away.
    pub(crate) fn remove_images(&mut self, numbers: &[u64])
        ensures { self.new ≡ filter (stays_beside numbers.now) self.old }
    {
        self.rows.retain(&Beside { numbers });
        self.published = publications_among(self.rows.as_slice());
    }

    /// Takes all logs away.
    pub(crate) fn clear(&mut self)
        ensures { self.new ≡ [] }
    {
        self.rows.clear();
        self.published = 0;
    }
}

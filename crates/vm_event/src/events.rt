ghost use Rattle.std.specs.Prelude.{◌≡◌, ◌++◌, ◌↔◌, ℕ, IsTrue, None, Some, is_none, position, replicate, length, drop, slice_set, OnErr, IfOk, IfSome, is_err, true, false, ◌&&◌};
ghost use Rattle.std.specs.Result.{result_ok};
ghost use Rattle.vm_event.specs.Events as spec;

use std::marker::Model;
use thiserror::Error;

/// How many sources there is room for.
const SOURCES: usize = 32;

/// An event source.
#[derive(Clone, Copy, PartialEq, Eq)]
pub struct Source {
    /// What it is for, by a number of the caller's own.
    pub kind: u8,
    /// Whether it is told as ready once it is raised.
    pub enabled: bool,
}

/// All 32 sources are there.
#[derive(Clone, Copy, Debug, PartialEq, Eq, Error)]
#[error("there is no room for another event source")]
pub struct EventsFull;

/// Up to 32 event sources. Contracts see a list of 32 places, in each of which a source may be: the source with an id
/// stands at that place.
#[derive(Drop)]
pub struct Events {
    sources: [Option<Source>; SOURCES],
}

impl Model for Events {
    ghost use Rattle.std.specs.Prelude.{◌≡◌, List, Option, length};
    ghost use Rattle.vm_event.specs.declared.events.Source.{Source};

    ghost Value = { List (Option Source) };

    ghost view = { λ events. events.sources };

    ghost invariant = { λ events. length events.sources ≡ 32 };
}

impl Events {
    /// No source is there.
    pub fn new() -> Events
        ensures { result ≡ replicate 32 None }
    {
        Events {
            sources: [None; SOURCES],
        }
    }

    /// Whether a source with this id is there.
    pub fn has(&self, id: u8) -> bool
        ensures { result ≡ spec.is_there self.now id }
    {
        self.get(id).is_some()
    }

    /// Whether a source with this id is there and enabled.
    pub fn is_enabled(&self, id: u8) -> bool
        ensures { result ≡ spec.is_enabled self.now id }
    {
        match self.get(id) {
            Some(source) => source.enabled,
            None => false,
        }
    }

    /// The source with this id, if it is there.
    pub fn get(&self, id: u8) -> Option<Source>
        ensures { result ≡ spec.source_at self.now id }
    {
        match self.sources.get(id as usize) {
            Some(place) => *place,
            None => None,
        }
    }

    /// Adds a source of this kind, which isn't enabled yet, and answers its id: the lowest one that is free.
    /// `EventsFull` comes exactly where all 32 are there, and then nothing changes.
    ///
    /// Source: `mevent_add_disabled` of FreeBSD's usr.sbin/bhyve/mevent.c.
    #[tactic(auto, using(crate::proofs::Sources::fullness))]
    pub fn add(&mut self, kind: u8) -> Result<u8, EventsFull>
        ensures lowest_free { result_ok result ≡ position is_none self.old }
        ensures full { is_err result ≡ spec.is_full self.old }
        ensures added { IfOk result (λ id. self.new ≡ slice_set self.old id (Some (spec.new_source kind))) }
        ensures kept { OnErr result (self.new ≡ self.old) }
    {
        match self.lowest_free() {
            Some(id) => {
                self.sources[id as usize] = Some(Source {
                    kind,
                    enabled: false,
                });
                Ok(id)
            }
            None => Err(EventsFull),
        }
    }

    /// Whether all 32 sources are there.
    pub fn is_full(&self) -> bool
        ensures { result ≡ spec.is_full self.now }
    {
        self.sources.iter().all(|source| source.is_some())
    }

    /// The kind of a source, which is to be there.
    pub fn kind(&self, id: u8) -> u8
        requires { IsTrue (spec.is_there self.now id) }
        ensures { IfSome (spec.source_at self.now id) (λ source. result ≡ source.kind) }
    {
        match self.get(id) {
            Some(source) => source.kind,
            None => 0,
        }
    }

    /// Enables a source, which is to be there.
    ///
    /// Source: `mevent_enable` of FreeBSD's usr.sbin/bhyve/mevent.c.
    pub fn enable(&mut self, id: u8)
        requires { IsTrue (spec.is_there self.old id) }
        ensures { self.new ≡ spec.with_enabled self.old id true }
    {
        self.set_enabled(id, true);
    }

    /// Disables a source, which is to be there.
    ///
    /// Source: `mevent_disable` of FreeBSD's usr.sbin/bhyve/mevent.c.
    pub fn disable(&mut self, id: u8)
        requires { IsTrue (spec.is_there self.old id) }
        ensures { self.new ≡ spec.with_enabled self.old id false }
    {
        self.set_enabled(id, false);
    }

    /// Takes a source out, which is to be there. Its id is free then.
    ///
    /// Source: `mevent_delete` of FreeBSD's usr.sbin/bhyve/mevent.c.
    #[tactic(auto, using(crate::proofs::Sources::there_is_inside))]
    pub fn remove(&mut self, id: u8)
        requires { IsTrue (spec.is_there self.old id) }
        ensures { self.new ≡ slice_set self.old id None }
    {
        self.sources[id as usize] = None;
    }

    /// Writes the ids of the sources that are enabled and among those raised, each once and by ascending id, to the
    /// front of `out`, leaves the rest of `out`, and answers how many they are. A raised id without a source is ignored.
    ///
    /// Source: `mevent_handle` of FreeBSD's usr.sbin/bhyve/mevent.c, which goes through the raised events in order.
    #[tactic(auto, using(crate::proofs::Sources::ready_steps))]
    pub fn ready(&self, raised: &[u8], out: &mut [u8; 32]) -> u8
        ensures count { result ≡ length (spec.ready self.now raised.now) }
        ensures front { out.new ≡ spec.ready self.now raised.now ++ drop (length (spec.ready self.now raised.now)) out.old }
    {
        let mut count = 0;
        for id in 0..32 {
            if self.is_ready(raised, id) {
                out[count as usize] = id;
                count += 1;
            }
        }
        count
    }

    fn is_ready(&self, raised: &[u8], id: u8) -> bool
        ensures { result ≡ (spec.is_enabled self.now id && spec.is_raised raised.now id) }
    {
        self.is_enabled(id) && raised.contains(&id)
    }

    /// The lowest id without a source.
    fn lowest_free(&self) -> Option<u8>
        ensures { result ≡ position is_none self.now }
    {
        for (id, place) in self.sources.iter().enumerate() {
            if place.is_none() {
                return Some(id as u8);
            }
        }
        None
    }

    fn set_enabled(&mut self, id: u8, enabled: bool)
        requires { IsTrue (spec.is_there self.old id) }
        ensures { self.new ≡ spec.with_enabled self.old id enabled }
    {
        if let Some(source) = self.get(id) {
            self.sources[id as usize] = Some(Source { enabled, ..source });
        }
    }
}

//! A host of links in memory.
ghost use Rattle.std.specs.Prelude.{◌≡◌, ◌≤◌, [], Some, IfOk, is_err, All};
ghost use Rattle.outside.specs.Memory.{is_listed, counted};
ghost use Rattle.outside.specs.Outside.{HasCause};
ghost use Rattle.outside.specs.Hosts.{MemHostTold, Begins, Accepts, is_new};

use crate::host::Host;
use crate::mem_link::MemLink;
use crate::traits::Failed;
use std::alloc::{AllocError, Global};
use std::marker::Model;

/// A host that gives these links one after the other. Its begins and accepts whose numbers are listed fail.
#[derive(Drop)]
pub struct MemHost {
    links: Vec<MemLink>,
    begins: Vec<u64>,
    accepts: Vec<u64>,
    begun: u64,
    asked: u64,
    port: u16,
    given: u64,
    bound: u64,
    faults: u64,
}

impl Model for MemHost {
    ghost use Rattle.std.specs.Prelude.{◌≤◌, All};
    ghost use Rattle.outside.specs.Hosts.{MemHostTold, is_new};

    ghost Value = { MemHostTold };

    ghost view = { λ h. record {
      host = record { port = h.port; given = h.given; bound = h.bound; faults = h.faults };
      left = h.links.items;
      begins = h.begins.items;
      accepts = h.accepts.items;
      begun = h.begun;
      asked = h.asked;
    } };

    ghost invariant = { λ h. All is_new h.links.items × (h.given ≤ h.bound) };
}

impl MemHost {
    /// A host with these links, whose begins and accepts with these numbers fail, each counted from 0. Nobody has used the links.
    pub fn new(
        alloc: Global,
        links: Vec<MemLink>,
        begins: &[u64],
        accepts: &[u64],
    ) -> Result<MemHost, AllocError>
        requires { All is_new links.items }
        ensures host { IfOk result (λ h. h.host ≡ record { port = 0; given = 0; bound = 0; faults = 0 }) }
        ensures left { IfOk result (λ h. h.left ≡ links.items) }
        ensures failing { IfOk result (λ h. (h.begins ≡ begins.now) × (h.accepts ≡ accepts.now)) }
        ensures calls { IfOk result (λ h. (h.begun ≡ 0) × (h.asked ≡ 0)) }
    {
        let begins = Vec::from_slice(alloc, begins)?;
        let accepts = Vec::from_slice(alloc, accepts)?;
        Ok(MemHost {
            links,
            begins,
            accepts,
            begun: 0,
            asked: 0,
            port: 0,
            given: 0,
            bound: 0,
            faults: 0,
        })
    }
}

impl Host for MemHost {
    type Link = MemLink;

    ghost told = { λ h. h.host };

    ghost left = { λ h. Some h.left };

    fn begin(&mut self, port: u16, links: Option<u64>) -> Result<(), Failed>
        ensures begins { Begins self.new.host port links }
        ensures left { self.new.left ≡ self.old.left }
        ensures cause { HasCause self.old.host.faults self.new.host.faults result }
        ensures fails { is_err result ≡ is_listed self.old.begins self.old.begun }
        ensures calls { self.new.begun ≡ counted self.old.begun }
    {
        self.port = port;
        self.given = 0;
        self.bound = links.unwrap_or(u64::MAX);
        let call = self.begun;
        self.begun = call.saturating_add(1);
        if self.begins.as_slice().contains(&call) {
            self.faults = self.faults.saturating_add(1);
            return Err(Failed);
        }
        Ok(())
    }

    fn accept(&mut self) -> Result<Option<MemLink>, Failed>
        ensures accepts { Accepts is_new self.old.host (Some self.old.left) result self.new.host (Some self.new.left) }
        ensures port { self.new.host.port ≡ self.old.host.port }
        ensures bound { self.new.host.bound ≡ self.old.host.bound }
        ensures cause { HasCause self.old.host.faults self.new.host.faults result }
        ensures fails { is_err result ≡ is_listed self.old.accepts self.old.asked }
        ensures calls { self.new.asked ≡ counted self.old.asked }
    {
        let call = self.asked;
        self.asked = call.saturating_add(1);
        if self.accepts.as_slice().contains(&call) {
            self.faults = self.faults.saturating_add(1);
            return Err(Failed);
        }
        if self.given == self.bound || self.links.is_empty() {
            return Ok(None);
        }
        self.given += 1;
        Ok(Some(self.links.remove(0)))
    }
}

//! Hosts: where links come from.
ghost use Rattle.std.specs.Prelude.{◌≡◌, List};
ghost use Rattle.std.specs.declared.option.Option.{Option};
ghost use Rattle.outside.specs.Outside.{HasCause};
ghost use Rattle.outside.specs.Hosts.{HostTold, Begins, Accepts, IsNew};

use crate::traits::{Failed, Link};

/// Where links come from.
pub trait Host {
    type Link: Link + Drop;

    /// Its port, how many links it has given since it began and how many it gives at most, all 0 at first, and its count of faults.
    ghost told: { Self → HostTold };

    /// The links that it has left, where it tells them.
    ghost left: { Self → Option (List Self.Link) };

    /// Begins at this port, and gives so many links at most.
    fn begin(&mut self, port: u16, links: Option<u64>) -> Result<(), Failed>
        ensures begins { Begins (told self.new) port links }
        ensures left { left self.new ≡ left self.old }
        ensures cause { HasCause (told self.old).faults (told self.new).faults result };

    /// The next link, once it comes. None: as many were given as may be, or none is left.
    fn accept(&mut self) -> Result<Option<Self::Link>, Failed>
        ensures accepts { Accepts (λ l. IsNew (Self.Link.Source.told l) (Self.Link.Sink.told l)) (told self.old)
            (left self.old) result (told self.new) (left self.new) }
        ensures port { (told self.new).port ≡ (told self.old).port }
        ensures bound { (told self.new).bound ≡ (told self.old).bound }
        ensures cause { HasCause (told self.old).faults (told self.new).faults result };
}

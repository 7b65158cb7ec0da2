//! What a session reads from and writes to: sources, sinks, links, hosts, clocks and gates, and the same in memory.
//! Nothing here is real: a source in memory tells its bytes, so that contracts can speak of them.
#![tactic(auto)]

mod clock;
mod drip;
mod gate;
mod host;
mod mem_host;
mod mem_link;
mod mem_sink;
mod mem_source;
mod traits;

pub use clock::{Clock, FixedClock, ListClock};
pub use drip::Drip;
pub use gate::{Gate, OpenGate};
pub use host::Host;
pub use mem_host::MemHost;
pub use mem_link::MemLink;
pub use mem_sink::MemSink;
pub use mem_source::MemSource;
pub use traits::{Failed, Link, Sink, Source};

//! HTTP/1.1 requests out of a stream of bytes, and responses into one.
#![tactic(auto)]

mod buffer;
mod caller;
mod failing;
mod fields;
mod laws;
mod memory;
mod next;
mod outside;
mod query;
mod request;
mod response;
mod routes;
mod routing;
mod scan;
mod scanned;
mod sending;
mod split;
mod summary;
mod table;
mod users;
mod verb;

pub use buffer::Buffer;
pub use failing::{MemorySink, MemorySource};
pub use laws::{conversation_laws, has_route, one_call};
pub use memory::{SteadySink, SteadySource};
pub use next::{LONGEST_TALK, next_request};
pub use outside::{Duplex, Link, Sink, SinkFault, Source};
pub use request::{HeadFault, Next, Wire};
pub use response::{no_memory_response, response_text};
pub use routes::{Route, RouteFault};
pub use routing::route;
pub use sending::send_all;
pub use users::Users;
pub use verb::Verb;

//! What is known of unique names: how far each may be used, and which entries of the policy apply to it.
//!
//! A bus gives each connection a unique name, and says who owns which well-known name. A tracker learns such facts from
//! messages, and answers from all of them: no fact is withdrawn (xdg-dbus-proxy(1), "Filtering").
#![tactic(auto)]

mod entries;
mod known;
mod looked_up;
mod numbers;
mod tracker;

pub use entries::Entries;
pub use looked_up::LookedUp;
pub use tracker::Tracker;

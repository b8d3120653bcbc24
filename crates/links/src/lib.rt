//! Servers, which do work in draws: what a server means, a link of a fixed rate, and a link with outages over any server.
#![tactic(auto)]

pub mod fixed;
pub mod interrupted;
pub mod outage;
pub mod outages;
pub mod server;

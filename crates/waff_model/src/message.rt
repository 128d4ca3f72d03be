//! Messages, and the versions of traces.

ghost use Rattle.std.specs.Prelude.{◌≡◌};
ghost use Rattle.waff_model.specs.Versions as versions;

use crate::awaits::Awaits;
use crate::client::Client;
use crate::limits::{MAX_EARLIER_MESSAGES, MAX_EARLIER_OPS, MAX_MESSAGES, MAX_OPS};
use crate::name::Text;
use crate::ops::Ops;

/// The version of a trace: in the first every release is 0, before the third no message is of a client, and
/// before the fourth none has a list of messages that it awaits.
#[derive(Clone, Copy, Debug, PartialEq)]
pub enum Version {
    V1,
    V2,
    V3,
    V4,
}

impl Version {
    /// The number of the version, from 1.
    pub fn number(self) -> u32
        ensures { result ≡ versions.number self }
    {
        match self {
            Version::V1 => 1,
            Version::V2 => 2,
            Version::V3 => 3,
            Version::V4 => 4,
        }
    }

    /// Whether messages of the version have releases of their own; before, each is 0.
    pub fn has_releases(self) -> bool
        ensures { result ≡ versions.has_releases self }
    {
        match self {
            Version::V1 => false,
            Version::V2 | Version::V3 | Version::V4 => true,
        }
    }

    /// Whether messages of the version have clients and think times, and pieces may be ranges.
    pub fn has_clients(self) -> bool
        ensures { result ≡ versions.has_clients self }
    {
        match self {
            Version::V1 | Version::V2 => false,
            Version::V3 | Version::V4 => true,
        }
    }

    /// Whether messages of the version have lists of those that they await.
    pub fn has_after(self) -> bool
        ensures { result ≡ versions.has_after self }
    {
        match self {
            Version::V1 | Version::V2 | Version::V3 => false,
            Version::V4 => true,
        }
    }

    /// How many messages a trace of the version may have.
    pub fn max_messages(self) -> usize
        ensures { result ≡ versions.max_messages self }
    {
        match self {
            Version::V1 | Version::V2 => MAX_EARLIER_MESSAGES,
            Version::V3 | Version::V4 => MAX_MESSAGES,
        }
    }

    /// How many operations a message of the version may have.
    pub fn max_ops(self) -> usize
        ensures { result ≡ versions.max_ops self }
    {
        match self {
            Version::V1 | Version::V2 => MAX_EARLIER_OPS,
            Version::V3 | Version::V4 => MAX_OPS,
        }
    }
}

/// A message of a trace.
#[derive(Drop)]
pub struct Message {
    /// A name; several messages may have it.
    pub name: Text,
    /// The running time, in ticks.
    pub cost: u32,
    /// The tick before which the message may not start.
    pub release: u32,
    /// The client that issues the message.
    pub client: Client,
    /// How long the client thinks before it issues the message, in ticks.
    pub think: u32,
    /// The earlier messages that it awaits besides the one before it of its client.
    pub after: Awaits,
    pub ops: Ops,
}

//! The clients of messages.

ghost use Rattle.std.specs.Prelude.{◌≡◌, IfOk};
ghost use Rattle.waff_model.specs.Clients.{no_client};

use crate::name::Text;
use std::alloc::{AllocError, Global};
use std::marker::Model;

/// The name of the client that issues a message, `-` where it is of none. A name lies elsewhere, so
/// that the many messages of no client are hardly longer for it.
pub struct Client {
    name: Option<Box<Text>>,
}

impl Model for Client {
    ghost use Rattle.std.specs.Prelude.{List, ℕ, option_map, unwrap_or};
    ghost use Rattle.waff_model.specs.Clients.{no_client};

    ghost Value = { List ℕ };

    ghost view = { λ c. unwrap_or (option_map (λ name. name.value) c.name) no_client };
}

// Written out: a derived drop is proved again in each crate that lets go of the value.
impl Drop for Client {
    fn drop(self) {
        let Client { name } = self;
        drop(name);
    }
}

impl Client {
    /// No client.
    pub fn none() -> Self
        ensures { result ≡ no_client }
    {
        Client { name: None }
    }

    /// The client of this name, where `-` is none.
    pub fn of(alloc: Global, name: &str) -> Result<Self, AllocError>
        ensures { IfOk result (λ client. client ≡ name.now) }
    {
        if name == "-" {
            return Ok(Client::none());
        }
        let name = Box::new(alloc, Text::of(alloc, name)?)?;
        Ok(Client { name: Some(name) })
    }

    /// The name.
    pub fn as_str(&self) -> &str
        ensures { result.now ≡ self.now }
    {
        match &self.name {
            Some(name) => name.as_str(),
            None => "-",
        }
    }
}

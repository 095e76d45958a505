ghost use Rattle.std.specs.Prelude.{◌≡◌, OnOk, OnErr, option_map};
ghost use Rattle.std.specs.FinMap as map;

use indexmap::IndexMap;
use std::alloc::Global;
use std::marker::Model;
use xc_lists::Memory;

/// What prefixes stand for: a map from prefixes to the URIs of namespaces.
#[derive(Drop)]
pub struct Prefixes {
    uris: IndexMap<String, String>,
    alloc: Global,
}

impl Model for Prefixes {
    ghost use Rattle.xc_names.specs.Prefixes.{Bindings, bindings_of};
    ghost use Rattle.std.specs.FinMap as map;
    ghost use Rattle.std.specs.Coded.{coded_list, coded_ℕ};

    ghost Value = { Bindings };

    ghost coded = { map.code (coded_list coded_ℕ) (coded_list coded_ℕ) };

    ghost view = { λ p. bindings_of p.uris.entries };
}

impl Prefixes {
    /// No prefix is set.
    pub fn new(alloc: Global) -> Prefixes
        ensures { result ≡ map.empty }
    {
        Prefixes {
            uris: IndexMap::new(alloc),
            alloc,
        }
    }

    /// Lets the prefix stand for the URI from now on.
    pub fn set(&mut self, prefix: &str, uri: &str) -> Result<(), Memory>
        ensures ok { OnOk result (self.new ≡ map.insert self.old prefix.now uri.now) }
        ensures err { OnErr result (self.new ≡ self.old) }
    {
        let key = String::from_str(self.alloc, prefix)?;
        let value = String::from_str(self.alloc, uri)?;
        match self.uris.insert(key, value) {
            Ok(_) => Ok(()),
            Err(_) => Err(Memory),
        }
    }

    /// What the prefix stands for; None exactly where it is not set.
    pub fn get(&self, prefix: &str) -> Option<&str>
        ensures { option_map (λ uri. uri.now) result ≡ map.get self.now prefix.now }
    {
        match self.uris.get(prefix) {
            Some(uri) => Some(uri.as_str()),
            None => None,
        }
    }
}

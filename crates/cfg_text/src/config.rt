ghost use Rattle.std.specs.Prelude.{◌≡◌, ◌<◌, length, Some, option_map, slice_get};
ghost use Rattle.std.specs.Str.{bytes_eq};
ghost use Rattle.std.specs.Map.{lookup};
ghost use Rattle.cfg_text.specs.Config.{pairs_of};

use indexmap::IndexMap;
use std::marker::Model;

/// The variables of a configuration. Contracts see the list of their names with their expanded values, in the order of
/// the variables' first lines.
#[derive(Drop)]
pub struct Config {
    variables: IndexMap<String, String>,
}

impl Model for Config {
    ghost use Rattle.std.specs.Prelude.{List, ℕ, ◌<◌, ◌^◌, length};
    ghost use Rattle.cfg_text.specs.Config.{pairs_of};

    ghost Value = { List (List ℕ × List ℕ) };

    ghost view = { λ c. pairs_of c.variables.entries };

    ghost invariant = { λ c. length (pairs_of c.variables.entries) < 2 ^ 32 };
}

impl Config {
    ghost use Rattle.std.specs.Prelude.{◌<◌, ◌^◌, length};

    /// A configuration of these variables, fewer than 2^32.
    pub(crate) fn new(variables: IndexMap<String, String>) -> Config
        requires { length (pairs_of variables.entries) < 2 ^ 32 }
        ensures { result ≡ pairs_of variables.entries }
    {
        Config { variables }
    }

    /// The value of a variable; `None` exactly where there is none of that name.
    pub fn get(&self, name: &str) -> Option<&str>
        ensures { option_map (λ v. v.now) result ≡ lookup (bytes_eq name.now) self.now }
    {
        match self.variables.get(name) {
            Some(value) => Some(value.as_str()),
            None => None,
        }
    }

    /// How many variables there are.
    pub fn len(&self) -> u32
        ensures { result ≡ length self.now }
    {
        self.variables.len() as u32
    }

    /// The name and the value of a variable, counted from 0.
    pub fn nth(&self, k: u32) -> (&str, &str)
        requires { k < length self.now }
        ensures { slice_get self.now k ≡ Some (result.0.now, result.1.now) }
    {
        let (name, value) = self.variables.get_index(k as usize).unwrap();
        (name.as_str(), value.as_str())
    }
}

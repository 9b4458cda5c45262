//! What a configuration sets.

ghost use Rattle.std.specs.Prelude.{◌≡◌};
ghost use Rattle.std.specs.Option.{option_copied};

use ossl_base::Text;
use ossl_property::Query;
use std::marker::Model;

/// What a configuration sets: the providers to be activated, in order, and the default query, where there is one.
#[derive(Drop)]
pub struct Settings {
    activations: Vec<Text>,
    default_query: Option<Query>,
}

impl Model for Settings {
    ghost use Rattle.ossl_conf.specs.View.{SettingsView};

    ghost Value = { SettingsView };

    ghost view = { λ s. record { activations = s.activations.items; default_query = s.default_query } };
}

impl Settings {
    /// The settings with these activations and this default query. It takes no memory.
    pub fn new(activations: Vec<Text>, default_query: Option<Query>) -> Settings
        ensures { result ≡ record { activations = activations.items; default_query = default_query } }
    {
        Settings {
            activations,
            default_query,
        }
    }

    /// The names of the providers to be activated, in the order in which the configuration lists them.
    pub fn activations(&self) -> &[Text]
        ensures { result.now ≡ self.now.activations }
    {
        self.activations.as_slice()
    }

    /// The query that is joined with each given one, where the configuration sets one.
    pub fn default_query(&self) -> Option<&Query>
        ensures { option_copied result ≡ self.now.default_query }
    {
        self.default_query.as_ref()
    }
}

// Session settings (request 13 of document 02).
ghost use Rattle.std.specs.Prelude.{◌≡◌, true};
ghost use Rattle.definitions.specs.Filter.Settings as definitions;
ghost use Rattle.definitions.specs.Filter.Settings.{GoodSettings};
ghost use Rattle.terms.specs.Settings.{settings_of};

// The kinds allowed (bit 0 relation, bit 1 distance, bit 2 KNN), the default k and the greatest k, as a C host gives them.
#[derive(Clone, Copy)]
pub struct Settings {
    pub kinds: u32,
    pub default_k: u32,
    pub greatest_k: u32,
}

// Whether they do not get 24.
#[tactic(auto, unfolding(definitions::specs::Filter::Settings::good_settings))]
pub fn good_settings(settings: Settings) -> bool
    ensures value { result ≡ definitions.good_settings (settings_of settings) }
    ensures good_settings { result ≡ true → GoodSettings (settings_of settings) }
{
    if settings.kinds < 1 {
        return false;
    }
    if 7 < settings.kinds {
        return false;
    }
    if settings.default_k < 1 {
        return false;
    }
    settings.default_k <= settings.greatest_k
}

// All kinds, 1 and 4,294,967,295: what the program gives.
#[tactic(auto, unfolding(definitions::specs::Filter::Settings::default_settings))]
pub fn default_settings() -> Settings
    ensures { settings_of result ≡ definitions.default_settings }
{
    Settings {
        kinds: 7,
        default_k: 1,
        greatest_k: 4294967295,
    }
}

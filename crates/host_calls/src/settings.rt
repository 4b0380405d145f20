// The settings that a host gives by three numbers. Public for the crate `spatialjoin_c`.
ghost use Rattle.std.specs.Prelude.{◌≡◌};
ghost use Rattle.terms.specs.Settings.{settings_of};
ghost use Rattle.host_calls.specs.Hosted.{settings_by};

use terms::settings::Settings;

pub fn host_settings(kinds: u8, default_k: u32, greatest_k: u32) -> Settings
    ensures { settings_of result ≡ settings_by kinds default_k greatest_k }
{
    Settings {
        kinds: u32::from(kinds),
        default_k,
        greatest_k,
    }
}

// What verdicts are asked of.
use leaf_matching::filter::Filter;
use terms::settings::Settings;

// The filter of a frame, and the settings.
#[derive(Clone, Copy)]
pub struct Asked<'a> {
    pub filter: Filter<'a>,
    pub settings: Settings,
}

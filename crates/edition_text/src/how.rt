// How pages are told.
use edition::model::How;
use edition_options::options::Options;

/// As was asked for.
pub(crate) fn how_of(options: Options) -> How {
    How {
        shown: options.shown,
        why: options.why,
    }
}

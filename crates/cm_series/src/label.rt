//! Version labels (CMIS 1.1, section 2.1.13.2).
ghost use Rattle.std.specs.Prelude.{◌≡◌, ◌+◌, ◌<◌, ◌^◌};
ghost use Rattle.cmis_spec.specs.Documents.{last_label, next_label};

use cm_base::series::{Label, Series};

fn last_label(series: &Series) -> Label
    ensures { result ≡ last_label series.now }
{
    match series.versions.as_slice().last() {
        Some(version) => version.label.unwrap_or(Label { major: 0, minor: 0 }),
        None => Label { major: 0, minor: 0 },
    }
}

fn next_label(major: bool, last: Label) -> Label
    requires major { last.major + 1 < 2 ^ 64 }
    requires minor { last.minor + 1 < 2 ^ 64 }
    ensures { result ≡ next_label major last }
{
    if major {
        Label {
            major: last.major + 1,
            minor: 0,
        }
    } else {
        Label {
            major: last.major,
            minor: last.minor + 1,
        }
    }
}

/// The label of the next version of the series, a major or a minor one. Takes no memory.
pub fn label_after(series: &Series, major: bool) -> Label
    requires major { (last_label series.now).major + 1 < 2 ^ 64 }
    requires minor { (last_label series.now).minor + 1 < 2 ^ 64 }
    ensures { result ≡ next_label major (last_label series.now) }
{
    next_label(major, last_label(series))
}

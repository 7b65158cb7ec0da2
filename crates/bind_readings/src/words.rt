//! The words of arguments that several calls have (CMIS 1.1, section 5.4).

pub(crate) const DEPTH: &str = "depth";

pub(crate) const INCLUDE_PATH_SEGMENT: &str = "includePathSegment";

pub(crate) const INCLUDE_RELATIVE_PATH_SEGMENT: &str = "includeRelativePathSegment";

pub(crate) const MAX_ITEMS: &str = "maxItems";

pub(crate) const SKIP_COUNT: &str = "skipCount";

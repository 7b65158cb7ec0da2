//! The order of the objects of a list (CMIS 1.1, section 2.2.1.2.7).
use cm_base::items::Items;
use cm_base::text::Text;

/// The word of this argument (section 5.4).
pub const ORDER_BY: &str = "orderBy";

/// What objects are put in order by: the value of a property, which is named by its query name (section 2.1.14.2.5).
#[derive(Drop)]
pub struct SortSpecification {
    pub query_name: Text,
    pub descending: bool,
}

/// Where the first one ties, the next one counts. With none, objects stand in the order of their numbers.
pub type SortSpecifications = Items<SortSpecification>;

//! The answers follow from what the caller sees: one law for all questions, as a function that does nothing.
ghost use Rattle.std.specs.Prelude.{ℕ, List};
ghost use Rattle.include_parts.specs.declared.readings.ShowDefault.{ShowDefault};
ghost use Rattle.cm_call.specs.declared.question.Question.{Question};
ghost use Rattle.cmis_spec.specs.Repository.{Repository};
ghost use Rattle.cmis_spec.specs.Seen.{OfSeen};
ghost use Rattle.cmis_spec.specs.Well.{IsWellFormed};
ghost use Rattle.cm_repo.specs.Calls.{answer_default, answer_of};

use rd_access::law::{acl_of_seen, policies_of_seen};
use rd_actions::law::actions_of_seen;
use rd_include::law::{
    children_of_seen, included_of_seen, object_of_seen, parents_of_seen, properties_of_seen,
    versions_of_seen,
};
use rd_lists::law::parent_of_seen;
use rd_log::law::changes_of_seen;
use rd_query::law::query_of_seen;
use rd_relationships::law::relationships_of_seen;
use rd_renditions::law::renditions_of_seen;
use rd_trees::law::{checked_out_of_seen, tree_of_seen};
use rd_types::law::{
    info_of_seen, type_children_of_seen, type_definition_of_seen, type_descendants_of_seen,
};
use rd_version::law::stream_of_seen;

// What is answered without a selector, by the kind of what is addressed.
fn default_of_seen()
    ensures { (r : Repository) (u : List ℕ) (q : ShowDefault) → IsWellFormed r
        → OfSeen (λ s. answer_default s u q) r u (answer_default r u q) }
{
    included_of_seen();
    children_of_seen();
    stream_of_seen();
}

/// In two well-formed repositories in which the caller sees the same, he is answered the same, whatever he asks.
pub fn answer_of_seen()
    ensures { (r : Repository) (u : List ℕ) (q : Question) → IsWellFormed r
        → OfSeen (λ s. answer_of s u q) r u (answer_of r u q) }
{
    object_of_seen();
    properties_of_seen();
    children_of_seen();
    stream_of_seen();
    type_definition_of_seen();
    type_children_of_seen();
    type_descendants_of_seen();
    info_of_seen();
    versions_of_seen();
    parent_of_seen();
    parents_of_seen();
    policies_of_seen();
    acl_of_seen();
    query_of_seen();
    tree_of_seen();
    checked_out_of_seen();
    changes_of_seen();
    relationships_of_seen();
    actions_of_seen();
    renditions_of_seen();
    default_of_seen();
}

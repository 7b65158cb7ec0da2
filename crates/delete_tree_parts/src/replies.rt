//! What the reply to deleteTree holds (CMIS 1.1, section 2.2.4.17.2).
use cm_base::number::Oids;

/// The objects of the tree that are left in it, by their ids, rising; none where the folder itself is gone.
#[derive(Drop)]
pub struct DeleteTreeReply {
    pub ids: Oids,
}

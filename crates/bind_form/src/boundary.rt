//! The boundary of a form in parts.
ghost use Rattle.std.specs.Prelude.{◌≡◌, option_map};
ghost use Rattle.cm_base.specs.Judged.{Meets};
ghost use Rattle.bind_form.specs.Forms.{is_boundary, boundary_by, boundary_of};

use cm_base::cause::Cause;
use cm_base::fail::Fail;
use cm_base::items::Items;
use field_params::params::{front_params, value_of};
use http_grammar::behind;
use std::alloc::Global;

fn is_boundary(boundary: &[u8]) -> bool
    ensures { result ≡ is_boundary boundary.now }
{
    1 <= boundary.len() && boundary.len() <= 70
}

fn boundary_by(alloc: Global, value: Option<&[u8]>) -> Result<Items<u8>, Fail>
    ensures { Meets (λ b. b) result (boundary_by (option_map (λ v. v.now) value.entry)) }
{
    match value {
        None => Err(Fail::Refused(Cause::BadBody)),
        Some(boundary) => {
            if is_boundary(boundary) {
                let boundary = Vec::from_slice(alloc, boundary)?;
                Ok(Items::from_vec(boundary))
            } else {
                Err(Fail::Refused(Cause::BadBody))
            }
        }
    }
}

/// The boundary that a Content-Type of multipart/form-data names: 1 to 70 bytes, which may be quoted. Without one it is BadBody.
pub fn boundary_of(alloc: Global, kind: &[u8]) -> Result<Items<u8>, Fail>
    ensures { Meets (λ b. b) result (boundary_of kind.now) }
{
    let params = front_params(alloc, behind(kind, 19))?;
    boundary_by(alloc, value_of(&params, b"boundary"))
}

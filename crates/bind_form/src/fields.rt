//! Fields of a head by their names.
ghost use Rattle.std.specs.Prelude.{◌≡◌, ◌<◌, [], length, option_map};
ghost use Rattle.std.specs.List.{slice_index_or};
ghost use Rattle.http_grammar.specs.Fields.{same_word, values_named};
ghost use Rattle.bind_form.specs.Forms.{first_item, content_type};

use http_wire::Head;

fn is_named(head: &Head, i: usize, name: &[u8]) -> bool
    requires { i < length head.now.fields }
    ensures { result ≡ same_word (slice_index_or head.now.fields i ([], [])).0 name.now }
{
    head.name(i).eq_ignore_ascii_case(name)
}

/// The value of the first field with this name.
fn first_value<'a>(head: &'a Head, name: &[u8]) -> Option<&'a [u8]>
    ensures { option_map (λ v. v.now) result ≡ first_item (values_named name.now head.now.fields) }
{
    for i in 0..head.count() {
        if is_named(head, i, name) {
            return Some(head.value(i));
        }
    }
    None
}

/// The value of the first Content-Type field.
pub fn content_type(head: &Head) -> Option<&[u8]>
    ensures { option_map (λ v. v.now) result ≡ content_type head.now }
{
    first_value(head, b"content-type")
}

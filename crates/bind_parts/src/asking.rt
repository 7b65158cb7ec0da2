//! What a request gives to the readers of its arguments.
ghost use Rattle.std.specs.Prelude.{◌≡◌, codes, IfOk};
ghost use Rattle.std.specs.List.{list_all};
ghost use Rattle.http_grammar.specs.Fields.{is_host, is_visible};
ghost use Rattle.bind_parts.specs.Askings.{with_query, good_host, host_of};

use call_parts::stream::GivenStream;
use cm_base::text::Text;
use form_args::pairs::Pairs;
use form_args::read;
use form_parts::gathered::Parts;
use http_wire::{Head, Named};
use request_target::target::Target;
use std::alloc::{AllocError, Global};

/// The arguments of a request, and its content stream.
#[derive(Drop)]
pub struct Form {
    pub pairs: Pairs,
    pub content: Option<GivenStream>,
}

/// A request: what it addresses, its form, and the host that it names.
#[derive(Drop)]
pub struct Asking {
    pub address: Target,
    pub form: Form,
    pub host: Text,
}

/// The arguments of a form, and then those of a target's query.
pub fn with_query(alloc: Global, parts: Parts, query: &[u8]) -> Result<Form, AllocError>
    ensures { IfOk result (λ f. f ≡ with_query parts query.now) }
{
    let Parts { pairs, content } = parts;
    let pairs = read::with_query(alloc, pairs.into_vec(), query)?;
    Ok(Form { pairs, content })
}

fn are_visible(value: &[u8]) -> bool
    ensures { result ≡ list_all is_visible value.now }
{
    value.iter().all(|b| 32 < *b && *b < 127)
}

#[tactic(auto, unfolding(http_grammar::specs::Fields::is_host))]
fn is_host(value: &[u8]) -> bool
    ensures { result ≡ is_host value.now }
{
    1 <= value.len() && (value.len() <= 255 && are_visible(value))
}

fn local(alloc: Global) -> Result<Text, AllocError>
    ensures { IfOk result (λ t. t ≡ codes "localhost") }
{
    Text::from_str(alloc, "localhost")
}

fn good_host(alloc: Global, value: &[u8]) -> Result<Text, AllocError>
    ensures { IfOk result (λ t. t ≡ good_host value.now) }
{
    if !is_host(value) {
        return local(alloc);
    }
    match str::from_utf8(value) {
        Ok(text) => Text::from_str(alloc, text),
        Err(_) => local(alloc),
    }
}

/// The host of the one Host field that a head has, or `localhost` where there is no such one.
pub fn host_of(alloc: Global, head: &Head) -> Result<Text, AllocError>
    ensures { IfOk result (λ t. t ≡ host_of head.now) }
{
    match head.named(b"host") {
        Named::Absent => local(alloc),
        Named::One(value) => good_host(alloc, value),
        Named::Several => local(alloc),
    }
}

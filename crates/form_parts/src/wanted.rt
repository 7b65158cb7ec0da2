//! Texts in a form, and what is wanted of it.
ghost use Rattle.std.specs.Prelude.{◌≡◌};
ghost use Rattle.cm_base.specs.declared.cause.Cause.TheVariants as causes;
ghost use Rattle.cm_base.specs.Judged.{Meets, find_or};
ghost use Rattle.form_parts.specs.Parts.{text_in};

use cm_base::cause::Cause;
use cm_base::fail::Fail;
use cm_base::text::Text;
use std::alloc::Global;

/// What is wanted; none is BadBody.
pub fn found<T>(value: Option<T>) -> Result<T, Fail>
    ensures { Meets (λ x. x) result (find_or causes.BadBody value) }
{
    match value {
        Some(value) => Ok(value),
        None => Err(Fail::Refused(Cause::BadBody)),
    }
}

/// The text that bytes are; what is no UTF-8 is BadBody.
pub fn text_in(alloc: Global, bytes: &[u8]) -> Result<Text, Fail>
    ensures { Meets (λ t. t) result (text_in bytes.now) }
{
    match str::from_utf8(bytes) {
        Ok(text) => {
            let text = Text::from_str(alloc, text)?;
            Ok(text)
        }
        Err(_) => Err(Fail::Refused(Cause::BadBody)),
    }
}

//! Owned texts.

ghost use Rattle.std.specs.Prelude.{◌≡◌, IfOk};

use listed::Text;
use std::alloc::{AllocError, Global};

/// An owned text of the same letters.
pub(crate) fn owned_text(alloc: Global, text: &str) -> Result<Text, AllocError>
    ensures { IfOk result (λ owned. owned ≡ text.now) }
{
    Ok(Text::new(String::from_str(alloc, text)?))
}

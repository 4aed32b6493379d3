//! How the content of Code attributes is read.

ghost use Rattle.code_attribute.specs.CodeContent.{IsCodeContent};
ghost use Rattle.code_attribute.specs.CodeContentReading.{code_content};
ghost use Rattle.code_attribute.proofs.ContentLaws.{content_exact};

use class_file::{CodeReader, MethodHead};
use class_input::{BadClass, Input};
use class_model::CodeDef;
use class_names::NamedPool;
use lists::Name;
use std::alloc::Global;

/// Reads the contents of Code attributes, whole.
pub struct WholeCode;

impl CodeReader for WholeCode {
    ghost is_code = { IsCodeContent };

    ghost code = { code_content };

    ghost exact = { content_exact };

    fn read_code(
        &self,
        alloc: Global,
        pool: &NamedPool,
        class: &Name,
        head: &MethodHead,
        input: &mut Input,
    ) -> Result<CodeDef, BadClass> {
        code_attribute::read_code(alloc, pool, class, head, input)
    }
}

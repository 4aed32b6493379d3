//! Encoding classes.

ghost use Rattle.std.specs.Prelude.{◌≡◌, None, Some, IfOk, IfErr};
ghost use Rattle.class_shape.specs.Shaped.{Shaped};
ghost use Rattle.class_limits.specs.Limits.{StopsAt};
ghost use Rattle.code_attribute.specs.CodeContent.{IsCodeContent};
ghost use Rattle.code_attribute.specs.WholeClass.{IsClassFile};
ghost use Rattle.code_spelling.specs.Content.{spell_code};
ghost use Rattle.code_spelling.specs.Writable.{WritableCode};
ghost use Rattle.code_spelling.proofs.Limits.{code_claims};
ghost use Rattle.class_encoding.specs.Encoding.{spell_class, limit_of};

use class_limits::{EncodeKind, EncodeStop, check_limits};
use class_model::{ClassDef, CodeDef};
use class_spelling::{CodeWriter, write_class};
use code_spelling::code_content;
use const_pool::PoolStop;
use lists::Bytes;
use pool_names::PoolWriter;
use std::alloc::Global;

/// The contents of Code attributes in the spelling that is written.
struct WholeCode;

impl CodeWriter for WholeCode {
    ghost is_code = { IsCodeContent };

    ghost spelled = { spell_code };

    ghost writable = { WritableCode };

    ghost claims = { code_claims };

    fn write_code(
        &self,
        alloc: Global,
        pool: &mut PoolWriter,
        code: &CodeDef,
    ) -> Result<Vec<u8>, PoolStop> {
        code_content(alloc, pool, code)
    }
}

/// The bytes of a class file that is this class (JVMS 4.1), in the one spelling that is written.
///
/// `Limit` comes where the class passes a limit of the format, with the first of them: the kinds are judged in the
/// order of `EncodeKind`, each over the whole class, and the first place in file order is told.
#[tactic(auto, unfolding(crate::specs::Encoding::limit_of))]
pub fn encode_class(alloc: Global, class: &ClassDef) -> Result<Bytes, EncodeStop>
    requires { Shaped class.now }
    // What is written is the class.
    ensures written { IfOk result (λ bytes. IsClassFile bytes class.now) }
    // The bytes are those of the definition.
    ensures spelled { IfOk result (λ bytes. spell_class class.now ≡ Ok bytes) }
    // A limit that is told is the one that the class passes, with its number.
    ensures limit { IfErr result (λ stop. StopsAt stop (limit_of class.now)) }
    // A class that passes a limit is not written.
    ensures fits { IfOk result (λ bytes. limit_of class.now ≡ None) }
{
    check_limits(alloc, class)?;
    match write_class(alloc, &WholeCode, class) {
        Ok(bytes) => Ok(bytes),
        Err(PoolStop::Full(last)) => Err(EncodeStop::Limit(EncodeKind::Pool, last)),
        Err(PoolStop::Memory) => Err(EncodeStop::Memory),
    }
}

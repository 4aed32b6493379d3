//! Encoding classes.

ghost use Rattle.std.specs.Prelude.{◌≡◌, None, Ok, IfOk, IfErr};
ghost use Rattle.class_file.specs.ClassReading.{file};
ghost use Rattle.class_limits.specs.Limits.{StopsAt};
ghost use Rattle.class_shape.specs.Shaped.{Shaped};
ghost use Rattle.code_attribute.specs.CodeContentReading.{code_content};
ghost use Rattle.code_attribute.specs.WholeClass.{IsClassFile};
ghost use Rattle.class_encoding.specs.Encoding.{spell_class, limit_of};

use class_encoding::EncodeStop;
use class_model::ClassDef;
use lists::Bytes;
use std::alloc::Global;

/// The bytes of a class file that is this class (JVMS 4.1), in the one spelling that is written: entries of the
/// constant pool are added as the class is written in file order and found again where equal, and each instruction
/// is in its shortest form, but `ldc_w` for each entry of the pool.
///
/// The class has a shape that some bytes give. `Limit` comes where it passes a limit of the format, with the first of
/// them: the kinds are judged in the order of `EncodeKind`, each over the whole class, and the first place in file order
/// is told, with the bytes of the text, the count, the bytes of the code, the distance of the branch without its sign, the
/// bytes of the content, or the last index of the first entry that does not fit.
#[tactic(auto, using(crate::proofs::RoundTrip::read_back))]
pub fn encode_class(alloc: Global, class: &ClassDef) -> Result<Bytes, EncodeStop>
    requires { Shaped class.now }
    // What is written is the class.
    ensures written { IfOk result (λ bytes. IsClassFile bytes class.now) }
    // Decoding it gives the class back.
    ensures reads_back { IfOk result (λ bytes. file code_content bytes ≡ Ok class.now) }
    // The bytes are those of the definition.
    ensures spelled { IfOk result (λ bytes. spell_class class.now ≡ Ok bytes) }
    // A limit that is told is the one that the class passes, with its number.
    ensures limit { IfErr result (λ stop. StopsAt stop (limit_of class.now)) }
    // A class that passes a limit is not written.
    ensures fits { IfOk result (λ bytes. limit_of class.now ≡ None) }
{
    class_encoding::encode_class(alloc, class)
}

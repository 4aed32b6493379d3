//! Decoding class files.

ghost use Rattle.std.specs.Prelude.{◌≡◌, ℕ, List, IfOk, MatchResult};
ghost use Rattle.class_input.specs.Reading.{Answers};
ghost use Rattle.class_model.specs.declared.class.ClassDef as model;
ghost use Rattle.class_model.specs.Descriptor.{IsClassName};
ghost use Rattle.class_shape.specs.Shaped.{Shaped};
ghost use Rattle.class_file.specs.ClassReading.{file};
ghost use Rattle.profile_check.specs.Profile.{IsCounted};
ghost use Rattle.code_attribute.specs.CodeContentReading.{code_content};
ghost use Rattle.code_attribute.specs.WholeClass.{IsClassFile};

use crate::reader::WholeCode;
use class_file::read_class;
use class_input::BadClass;
use class_model::ClassDef;
use std::alloc::Global;

/// The class that bytes are, all of them (JVMS 4.1): indices of the constant pool stand for what they name, and offsets
/// into code for the numbers of instructions. What the attributes that are read say is kept; all others are dropped.
///
/// Bytes that are no class are refused at their first bad place in reading order, as an offset in the file: the first
/// byte of the smallest field that is wrong or short, with what is wrong there (`BadKind`).
pub fn decode_class(alloc: Global, bytes: &[u8]) -> Result<ClassDef, BadClass>
    // What is read is what the bytes are.
    ensures found { IfOk result (λ class. IsClassFile bytes.now class) }
    // What the bytes are is read, unless memory runs out.
    ensures only { (class : model.ClassDef) → IsClassFile bytes.now class → MatchResult result (λ read. read ≡ class) (λ stop. stop ≡ BadClass.Memory) }
    // Where the first bad place is, and of which kind.
    ensures place { Answers (λ class. class) result (file code_content bytes.now) }
    // A class of a file has the counts that a class file can have.
    ensures counted { IfOk result IsCounted }
    // It has the shape of a class, where its own name is one that a type can have: the name alone is kept whatever it is.
    ensures shaped { IfOk result (λ class. IsClassName class.name → Shaped class) }
{
    read_class(alloc, &WholeCode, bytes)
}

/// The law that bytes are at most one class. It does nothing when it runs.
pub fn one_class()
    ensures { (bytes : List ℕ) (class other : model.ClassDef) → IsClassFile bytes class → IsClassFile bytes other → class ≡ other }
{
    class_file::one_class(&WholeCode);
}

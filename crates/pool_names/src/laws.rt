//! What is claimed of what is put into a pool, in each pool that extends the one afterwards.

ghost use Rattle.std.specs.Prelude.{◌≡◌, ℕ, ℤ, List, false};
ghost use Rattle.class_input.specs.Grammar.{IsU16, IsU32};
ghost use Rattle.class_model.specs.declared.types.JType.{JType};
ghost use Rattle.class_model.specs.declared.types.MethodDesc.{MethodDesc};
ghost use Rattle.class_model.specs.declared.types.FieldRef.{FieldRef};
ghost use Rattle.class_model.specs.declared.types.MethodRef.{MethodRef};
ghost use Rattle.class_model.specs.declared.class.Constant.{Constant};
ghost use Rattle.class_model.specs.declared.insn.Insn.TheVariants.{PushInt, PushString};
ghost use Rattle.class_model.specs.Descriptor.{IsFieldType, IsMethodType, is_primitive_type};
ghost use Rattle.class_names.specs.declared.member.MethodEntry.{MethodEntry};
ghost use Rattle.class_names.specs.Names as names;
ghost use Rattle.pool_names.specs.Claims.{Claims, IsIndex, IsTaken};
ghost use Rattle.pool_names.specs.Adding.{spell_u16, spell_u32};
ghost use Rattle.pool_names.specs.Spelling as spelling;

/// The law that each index names what it was put for, in each pool that extends the one afterwards. It does nothing
/// when it runs.
pub fn named_indices()
    ensures bytes { (bytes : List ℕ) → Claims (IsIndex names.NamesBytes bytes) (spelling.spell_bytes bytes) }
    ensures text { (units : List ℕ) → Claims (IsIndex names.NamesText units) (spelling.spell_text units) }
    ensures class { (name : List ℕ) → Claims (IsIndex names.NamesClass name) (spelling.spell_class name) }
    ensures type_ { (ty : JType) → is_primitive_type ty ≡ false → IsFieldType ty → Claims (IsIndex names.NamesType ty) (spelling.spell_type ty) }
    ensures field_type { (ty : JType) → IsFieldType ty → Claims (IsIndex names.NamesFieldType ty) (spelling.spell_field_type ty) }
    ensures desc { (desc : MethodDesc) → IsMethodType desc → Claims (IsIndex names.NamesMethodDesc desc) (spelling.spell_desc desc) }
    ensures field { (field : FieldRef) → IsFieldType field.ty → Claims (IsIndex names.NamesField field) (spelling.spell_field field) }
    ensures method { (kind : MethodEntry) (method : MethodRef) → IsTaken kind method.in_interface → is_primitive_type method.class ≡ false → IsFieldType method.class → IsMethodType method.desc → Claims (IsIndex (names.NamesMethod kind) method) (spelling.spell_method method) }
    ensures int { (n : ℤ) → Claims (IsIndex names.NamesPushed (PushInt n)) (spelling.spell_int n) }
    ensures long { (n : ℤ) → Claims (IsIndex names.NamesLong n) (spelling.spell_long n) }
    ensures string { (units : List ℕ) → Claims (IsIndex names.NamesPushed (PushString units)) (spelling.spell_string units) }
    ensures constant { (constant : Constant) → Claims (IsIndex names.NamesConstant constant) (spelling.spell_constant constant) }
{}

/// The law that the bytes that are put for numbers and lists are these. It does nothing when it runs.
pub fn spelled_bytes()
    ensures two { (n : ℕ) → Claims (λ r text. IsU16 text n) (spell_u16 n) }
    ensures four { (n : ℕ) → Claims (λ r text. IsU32 text n) (spell_u32 n) }
{}

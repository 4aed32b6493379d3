//! Laws of the definitions, each the contract of a function that does nothing. They hold of every set in which no class is
//! above itself, some of them of sets in which no two classes have one name.

ghost use Rattle.std.specs.Prelude.{◌≡◌, ◌+◌, ◌||◌, ◌++◌, ℕ, true, false, List, Some, None, length, slice_get, filter_map, flat_map, option_and_then, option_to_list};
ghost use Rattle.class_model.specs.declared.types.FieldRef.{FieldRef};
ghost use Rattle.class_model.specs.declared.types.MethodRef.{MethodRef};
ghost use Rattle.class_model.specs.declared.class.FieldDef.{FieldDef};
ghost use Rattle.class_model.specs.declared.class.ClassDef.{ClassDef};
ghost use Rattle.set_lookups.specs.Above.{find_class};
ghost use Rattle.set_lookups.specs.Cycle.{cycle};
ghost use Rattle.set_lookups.specs.Needed.{duplicate};
ghost use Rattle.set_lookups.specs.Lookups.{Member, supers, select_by, resolve_field};
ghost use Rattle.run_state.specs.Texts.{same_text, object_name, class_type};
ghost use Rattle.run_state.specs.SetLooks.{shown_method, superclasses, selected_in, resolved_field, fits_in, main_of, is_main, initializers, is_static, instance_fields, layout, field_place, static_at};
ghost use Rattle.look_laws.specs.Shown.{shown_field, first_with, initializer_at, classes_of, is_named_below, is_of_object, count_before, layout_above, static_of};

/// The classes from a name upwards are those of the numbers from its class upwards.
pub fn superclasses_by_number()
    ensures { (set : List ClassDef) → cycle set ≡ None → (name : List ℕ) → superclasses set name ≡ classes_of set (flat_map (supers set) (option_to_list (find_class set name))) }
{}

/// A machine selects what selection by number finds, from the class of the receiver upwards.
pub fn selection_by_number()
    ensures { (set : List ClassDef) → cycle set ≡ None → (class : List ℕ) (ref : MethodRef) → selected_in set class ref ≡ option_and_then (shown_method set) (option_and_then (select_by set ref.name ref.desc) (find_class set class)) }
{}

/// It resolves a reference to a field as resolution by number does.
pub fn fields_by_number()
    ensures { (set : List ClassDef) → cycle set ≡ None → (ref : FieldRef) → resolved_field set ref ≡ option_and_then (shown_field set ref) (resolve_field set ref) }
{}

/// The place of a field in an object: behind those of the superclasses and of the class's own in front of it.
pub fn field_places_by_number()
    ensures { (set : List ClassDef) (ref : FieldRef) (m : Member) (c : ClassDef) (d : FieldDef) → cycle set ≡ None → duplicate set ≡ None → resolve_field set ref ≡ Some m → slice_get set m.class ≡ Some c → slice_get c.fields m.index ≡ Some d → is_static d.flags ≡ false → field_place set ref ≡ Some (length (layout_above set c) + count_before is_of_object m.index c) }
{}

/// The place of a static field: behind those of the classes in front of its own and of its class's own in front of it.
pub fn static_places_by_number()
    ensures { (set : List ClassDef) (ref : FieldRef) (m : Member) (c : ClassDef) (d : FieldDef) → cycle set ≡ None → duplicate set ≡ None → resolve_field set ref ≡ Some m → slice_get set m.class ≡ Some c → slice_get c.fields m.index ≡ Some d → is_static d.flags ≡ true → static_at set ref ≡ Some (static_of set m.class c m.index d) }
{}

/// The fields of an object are those of its superclass's objects, and then its class's own.
pub fn layouts_by_superclass()
    ensures { (set : List ClassDef) (name : List ℕ) (number : ℕ) (c : ClassDef) → cycle set ≡ None → find_class set name ≡ Some number → slice_get set number ≡ Some c → layout set name ≡ layout_above set c ++ instance_fields c }
{}

/// Of two types that are classes the first fits the second where its class is that of the second or below it, and each
/// fits `java/lang/Object`.
pub fn subtypes_by_number()
    ensures { (set : List ClassDef) → cycle set ≡ None → (low high : List ℕ) → fits_in set (class_type low) (class_type high) ≡ (is_named_below set low high || same_text high object_name) }
{}

/// The method that a run calls is the first `main` of its class.
pub fn main_by_number()
    ensures { (set : List ClassDef) (main : List ℕ) → main_of set main ≡ option_and_then (shown_method set) (option_and_then (first_with set is_main) (find_class set main)) }
{}

/// The initializers of a class and its superclasses are the first ones of the classes upwards.
pub fn initializers_by_number()
    ensures { (set : List ClassDef) → cycle set ≡ None → (name : List ℕ) → initializers (superclasses set name) ≡ filter_map (initializer_at set) (flat_map (supers set) (option_to_list (find_class set name))) }
{}

//! Which type, and which frame, goes to which (JVMS 4.10.1.2 to 4.10.1.4).

ghost use Rattle.std.specs.Prelude.{◌≡◌, ◌==◌, List};
ghost use Rattle.std.specs.List.{list_any};
ghost use Rattle.std.specs.Cmp.Lexicographic.{pointwise};
ghost use Rattle.class_model.specs.declared.class.VType.TheVariants.{Ref};
ghost use Rattle.class_model.specs.declared.class.ClassDef.{ClassDef};
ghost use Rattle.class_model.specs.Descriptor.{letter_of};
ghost use Rattle.set_lookups.specs.Above.{same_name};
ghost use Rattle.set_lookups.specs.Lookups.{object_name};
ghost use Rattle.class_set.specs.Assignable.{primitive_type, is_interface_named, is_below, class_goes, base_goes, is_object, type_goes, is_int, is_long, is_null, is_uninit_this, is_uninit, assignable, type_of, class_type, in_words, words_go, has_uninit_this, frame_assignable};

use crate::class_set::ClassSet;
use crate::types::{any_uninit_this, is_int, is_long, is_uninit_this};
use crate::words::WordWalk;
use class_model::{BaseType, Frame, JType, Primitive, VType};
use lists::Name;

impl ClassSet {
    /// Whether the name is that of an interface.
    #[tactic(auto, using(crate::proofs::Assigned::found_within), unfolding(crate::specs::Assignable::is_interface_named))]
    fn is_interface_named(&self, name: &Name) -> bool
        ensures { result ≡ is_interface_named self.now name.now }
    {
        match self.find_name(name) {
            None => false,
            Some(id) => self.class(id).flags & 0x0200 != 0,
        }
    }

    /// Whether both names are those of classes, and the first is the second or below it.
    #[tactic(auto, using(crate::proofs::Assigned::found_within), unfolding(crate::specs::Assignable::is_below))]
    fn is_below(&self, low: &Name, high: &Name) -> bool
        ensures { result ≡ is_below self.now low.now high.now }
    {
        match (self.find_name(low), self.find_name(high)) {
            (Some(low), Some(high)) => self.subtype(low, high),
            _ => false,
        }
    }

    /// Whether the class or interface goes to the other.
    #[tactic(auto, unfolding(crate::specs::Assignable::class_goes))]
    fn class_goes(&self, low: &Name, high: &Name) -> bool
        ensures { result ≡ class_goes self.now low.now high.now }
    {
        low == high
            || is_object_name(high)
            || self.is_interface_named(high)
            || self.is_below(low, high)
    }

    fn base_goes(&self, low: &BaseType, high: &BaseType) -> bool
        ensures { result ≡ base_goes self.now low.now high.now }
    {
        match (low, high) {
            (BaseType::Class(low), BaseType::Class(high)) => self.class_goes(low, high),
            (BaseType::Primitive(low), BaseType::Primitive(high)) => is_same(*low, *high),
            _ => false,
        }
    }

    /// Whether the one type goes to the other.
    #[tactic(auto, using(crate::proofs::Assigned::goes_where_shallower, crate::proofs::Assigned::goes_where_equal, crate::proofs::Assigned::goes_where_deeper), unfolding(crate::specs::Assignable::type_goes))]
    fn type_goes(&self, low: &JType, high: &JType) -> bool
        ensures { result ≡ type_goes self.now low.now high.now }
    {
        if low.depth < high.depth {
            false
        } else if low.depth == high.depth {
            self.base_goes(&low.base, &high.base)
        } else {
            is_object(&high.base)
        }
    }

    /// Whether a value of the first type can stand where one of the second is wanted (JVMS 4.10.1.2). Takes no memory.
    #[tactic(auto, unfolding(crate::specs::Assignable::assignable))]
    pub fn assignable(&self, from: &VType, to: &VType) -> bool
        ensures exact { result ≡ assignable self.now from.now to.now }
    {
        match to {
            VType::Top => true,
            VType::Int => is_int(from),
            VType::Long => is_long(from),
            VType::Null => matches!(from, VType::Null),
            VType::UninitThis => is_uninit_this(from),
            VType::Ref(high) => self.ref_goes(from, high),
            VType::Uninit(at) => matches!(from, VType::Uninit(made) if made == at),
        }
    }

    #[tactic(auto, unfolding(crate::specs::Assignable::assignable))]
    fn ref_goes(&self, from: &VType, high: &JType) -> bool
        ensures { result ≡ assignable self.now from.now (Ref high.now) }
    {
        match from {
            VType::Null => true,
            VType::Ref(low) => self.type_goes(low, high),
            _ => false,
        }
    }

    /// Whether a value of the first type can stand where one of a declared type is wanted, a boolean, byte, char or
    /// short being an int. Takes no memory.
    pub fn fits_type(&self, from: &VType, ty: &JType) -> bool
        ensures exact { result ≡ assignable self.now from.now (type_of ty.now) }
    {
        match ty {
            JType {
                depth: 0,
                base: BaseType::Primitive(primitive),
            } => fits_primitive(from, *primitive),
            _ => self.ref_goes(from, ty),
        }
    }

    /// Whether a value of the first type can stand where one of the class or interface is wanted. Takes no memory.
    #[tactic(auto, unfolding(crate::specs::Assignable::assignable))]
    pub fn fits_class(&self, from: &VType, class: &Name) -> bool
        ensures exact { result ≡ assignable self.now from.now (Ref (class_type class.now)) }
    {
        match from {
            VType::Null => true,
            VType::Ref(low) => self.type_goes_to_class(low, class),
            _ => false,
        }
    }

    #[tactic(auto, using(crate::proofs::Assigned::goes_where_deeper, crate::proofs::Assigned::goes_where_equal), unfolding(crate::specs::Assignable::type_goes))]
    fn type_goes_to_class(&self, low: &JType, class: &Name) -> bool
        ensures { result ≡ type_goes self.now low.now (class_type class.now) }
    {
        if low.depth > 0 {
            return is_object_name(class);
        }
        match &low.base {
            BaseType::Class(low) => self.class_goes(low, class),
            BaseType::Primitive(_) => false,
        }
    }

    /// Whether operands can go on as others: there are as many, and each goes to the one in its place. Takes no memory.
    #[tactic(auto, using(crate::proofs::Assigned::pointwise_more, crate::proofs::Assigned::pointwise_lengths))]
    pub fn operands_assignable(&self, from: &[VType], to: &[VType]) -> bool
        ensures exact { result ≡ pointwise (assignable self.now) from.now to.now }
    {
        if from.len() != to.len() {
            return false;
        }
        for (i, ty) in from.iter().enumerate() {
            if !self.assignable(ty, &to[i]) {
                return false;
            }
        }
        true
    }

    #[tactic(auto, using(crate::proofs::Assigned::words_go_more))]
    fn locals_go(&self, from: &[VType], to: &[VType]) -> bool
        ensures { result ≡ words_go self.now (in_words from.now) (in_words to.now) }
    {
        let mut words = WordWalk::new(from);
        for wanted in to {
            if !words.first_goes(self, wanted) {
                return false;
            }
            words.pass(wanted);
        }
        true
    }

    /// Whether a frame can go on as another (JVMS 4.10.1.4): the stacks entry by entry, the locals word by word, those
    /// that are missing being Top, and one that holds an uninitialised `this` only to one that does. Takes no memory.
    #[tactic(auto, unfolding(crate::specs::Assignable::frame_assignable))]
    pub fn frame_assignable(&self, from: &Frame, to: &Frame) -> bool
        ensures exact { result ≡ frame_assignable self.now from.now to.now }
    {
        self.operands_assignable(from.stack.as_slice(), to.stack.as_slice())
            && self.locals_go(from.locals.as_slice(), to.locals.as_slice())
            && (!has_uninit_this(from) || has_uninit_this(to))
    }
}

fn is_object_name(name: &Name) -> bool
    ensures { result ≡ same_name name.now object_name }
{
    name.is("java/lang/Object")
}

fn is_object(base: &BaseType) -> bool
    ensures { result ≡ is_object base.now }
{
    match base {
        BaseType::Class(name) => is_object_name(name),
        BaseType::Primitive(_) => false,
    }
}

fn is_same(low: Primitive, high: Primitive) -> bool
    ensures { result ≡ (letter_of low == letter_of high) }
{
    low == high
}

#[tactic(auto, unfolding(crate::specs::Assignable::assignable))]
fn fits_primitive(from: &VType, primitive: Primitive) -> bool
    ensures { (set : List ClassDef) → result ≡ assignable set from.now (primitive_type primitive) }
{
    match primitive {
        Primitive::Boolean => is_int(from),
        Primitive::Byte => is_int(from),
        Primitive::Char => is_int(from),
        Primitive::Short => is_int(from),
        Primitive::Int => is_int(from),
        Primitive::Long => is_long(from),
        Primitive::Float => true,
        Primitive::Double => true,
    }
}

fn has_uninit_this(frame: &Frame) -> bool
    ensures { result ≡ has_uninit_this frame.now.locals frame.now.stack }
{
    any_uninit_this(frame.locals.as_slice()) || any_uninit_this(frame.stack.as_slice())
}

use crate::{SetVerifyStop, VerifyRule, has_code, is_checkable, verify_method, verify_set};
use class_model::{
    BaseType, BinOp, ClassDef, CodeDef, FieldDef, FieldRef, Frame, Handler, Insn, InvokeKind,
    JType, Kind, MethodDef, MethodRef, Primitive, StackOp, VType, Width, parse_desc,
};
use class_set::{ClassSet, MethodId, are_counted};
use lists::{Name, Seq, Units};
use std::alloc::{AllocError, Global};
use std::process::Abort;
use std::test::Fail;

/// The classes beside the one that is judged.
const OTHERS: u32 = 12;

/// An instruction in short.
#[derive(Clone, Copy)]
enum Step {
    Nop,
    Int,
    Long,
    Text,
    Load(Kind, u16),
    Store(Kind, u16),
    Add,
    Pop,
    Dup,
    Goto(u32),
    Return(Option<Kind>),
    Throw,
    Read,
    Write,
    /// The int `x` of the class.
    PutOwn,
    /// The int `y` of its superclass.
    PutAbove,
    /// The object of its superclass.
    New,
    ConstructAbove,
    ConstructObject,
}

/// A type in short.
#[derive(Clone, Copy)]
enum Type {
    Top,
    Int,
    Text,
    Texts,
    Thrown,
}

fn class_type(alloc: Global, depth: u8, name: &str) -> Result<JType, AllocError> {
    Ok(JType {
        depth,
        base: BaseType::Class(Name::from_str(alloc, name)?),
    })
}

fn primitive_type(depth: u8, primitive: Primitive) -> JType {
    JType {
        depth,
        base: BaseType::Primitive(primitive),
    }
}

/// The call of a method of a class.
fn call(
    alloc: Global,
    kind: InvokeKind,
    class: &str,
    name: &str,
    desc: &str,
) -> Result<Insn, Fail> {
    let text = Name::from_str(alloc, desc)?;
    let target = MethodRef {
        class: class_type(alloc, 0, class)?,
        name: Name::from_str(alloc, name)?,
        desc: parse_desc(alloc, text.as_units())?,
        in_interface: false,
    };
    Ok(Insn::Invoke(kind, target))
}

/// The put into an int of the class `A` or of its superclass.
fn put(alloc: Global, name: &str) -> Result<Insn, Fail> {
    Ok(Insn::PutField(FieldRef {
        class: Name::from_str(alloc, "A")?,
        name: Name::from_str(alloc, name)?,
        ty: primitive_type(0, Primitive::Int),
    }))
}

fn insn(alloc: Global, step: Step) -> Result<Insn, Fail> {
    match step {
        Step::Nop => Ok(Insn::Nop),
        Step::Int => Ok(Insn::PushInt(1)),
        Step::Long => Ok(Insn::PushLong(0)),
        Step::Text => Ok(Insn::PushString(Units::from_vec(Vec::new(alloc)))),
        Step::Load(kind, slot) => Ok(Insn::Load(kind, slot)),
        Step::Store(kind, slot) => Ok(Insn::Store(kind, slot)),
        Step::Add => Ok(Insn::Bin(Width::Int, BinOp::Add)),
        Step::Pop => Ok(Insn::Stack(StackOp::Pop)),
        Step::Dup => Ok(Insn::Stack(StackOp::Dup)),
        Step::Goto(target) => Ok(Insn::Goto(target)),
        Step::Return(kind) => Ok(Insn::Return(kind)),
        Step::Throw => Ok(Insn::Athrow),
        Step::Read => call(alloc, InvokeKind::Static, "sys/Native", "read", "()I"),
        Step::Write => call(alloc, InvokeKind::Static, "sys/Native", "write", "(I)V"),
        Step::PutOwn => put(alloc, "x"),
        Step::PutAbove => put(alloc, "y"),
        Step::New => Ok(Insn::New(Name::from_str(alloc, "P")?)),
        Step::ConstructAbove => call(alloc, InvokeKind::Special, "P", "<init>", "()V"),
        Step::ConstructObject => {
            call(
                alloc,
                InvokeKind::Special,
                "java/lang/Object",
                "<init>",
                "()V",
            )
        }
    }
}

fn type_of(alloc: Global, ty: Type) -> Result<VType, AllocError> {
    match ty {
        Type::Top => Ok(VType::Top),
        Type::Int => Ok(VType::Int),
        Type::Text => Ok(VType::Ref(class_type(alloc, 0, "java/lang/String")?)),
        Type::Texts => Ok(VType::Ref(class_type(alloc, 1, "java/lang/String")?)),
        Type::Thrown => Ok(VType::Ref(class_type(alloc, 0, "java/lang/Throwable")?)),
    }
}

fn types(alloc: Global, short: &[Type]) -> Result<Seq<VType>, AllocError> {
    let mut types = Seq::new(alloc);
    for ty in short {
        types.push(type_of(alloc, *ty)?)?;
    }
    Ok(types)
}

fn frame(alloc: Global, locals: &[Type], stack: &[Type]) -> Result<Frame, AllocError> {
    Ok(Frame {
        locals: types(alloc, locals)?,
        stack: types(alloc, stack)?,
    })
}

fn insns(alloc: Global, steps: &[Step]) -> Result<Seq<Insn>, Fail> {
    let mut insns = Seq::new(alloc);
    for step in steps {
        insns.push(insn(alloc, *step)?)?;
    }
    Ok(insns)
}

/// Code without handlers and frames.
fn code(alloc: Global, max_stack: u16, max_locals: u16, steps: &[Step]) -> Result<CodeDef, Fail> {
    Ok(CodeDef {
        max_stack,
        max_locals,
        insns: insns(alloc, steps)?,
        handlers: Seq::new(alloc),
        frames: Seq::new(alloc),
        lines: Seq::new(alloc),
    })
}

fn method(
    alloc: Global,
    flags: u16,
    name: &str,
    desc: &str,
    code: Option<CodeDef>,
) -> Result<MethodDef, Fail> {
    let text = Name::from_str(alloc, desc)?;
    Ok(MethodDef {
        flags,
        name: Name::from_str(alloc, name)?,
        desc: parse_desc(alloc, text.as_units())?,
        throws: Seq::new(alloc),
        code,
    })
}

/// The class of a name below another, with no members.
fn bare(alloc: Global, flags: u16, name: &str, above: &str) -> Result<ClassDef, AllocError> {
    Ok(ClassDef {
        minor: 0,
        major: 52,
        flags,
        name: Name::from_str(alloc, name)?,
        super_name: Some(Name::from_str(alloc, above)?),
        interfaces: Seq::new(alloc),
        fields: Seq::new(alloc),
        methods: Seq::new(alloc),
        source: None,
        inner: Seq::new(alloc),
    })
}

fn add_field(alloc: Global, class: &mut ClassDef, name: &str, ty: JType) -> Result<(), AllocError> {
    class.fields.push(FieldDef {
        flags: 0,
        name: Name::from_str(alloc, name)?,
        ty,
        constant: None,
    })
}

fn object(alloc: Global) -> Result<ClassDef, Fail> {
    let mut class = bare(alloc, 1, "java/lang/Object", "java/lang/Object")?;
    class.super_name = None;
    let code = code(alloc, 0, 1, [Step::Return(None)].as_slice())?;
    let init = method(alloc, 1, "<init>", "()V", Some(code))?;
    class.methods.push(init)?;
    Ok(class)
}

fn string(alloc: Global) -> Result<ClassDef, Fail> {
    let mut class = bare(alloc, 17, "java/lang/String", "java/lang/Object")?;
    let ty = primitive_type(1, Primitive::Char);
    add_field(alloc, &mut class, "value", ty)?;
    Ok(class)
}

fn natives(alloc: Global) -> Result<ClassDef, Fail> {
    let mut class = bare(alloc, 1, "sys/Native", "java/lang/Object")?;
    for (name, desc) in [("read", "()I"), ("write", "(I)V")] {
        let native = method(alloc, 0x109, name, desc, None)?;
        class.methods.push(native)?;
    }
    Ok(class)
}

/// The superclass of `A`, with an int `y` and a constructor.
fn parent(alloc: Global) -> Result<ClassDef, Fail> {
    let mut class = bare(alloc, 1, "P", "java/lang/Object")?;
    let ty = primitive_type(0, Primitive::Int);
    add_field(alloc, &mut class, "y", ty)?;
    let steps = [
        Step::Load(Kind::Ref, 0),
        Step::ConstructObject,
        Step::Return(None),
    ];
    let code = code(alloc, 1, 1, steps.as_slice())?;
    let init = method(alloc, 1, "<init>", "()V", Some(code))?;
    class.methods.push(init)?;
    Ok(class)
}

fn exception(number: u32) -> &'static str {
    match number {
        5 => "java/lang/ArithmeticException",
        6 => "java/lang/ArrayIndexOutOfBoundsException",
        7 => "java/lang/ArrayStoreException",
        8 => "java/lang/ClassCastException",
        9 => "java/lang/IncompatibleClassChangeError",
        10 => "java/lang/NegativeArraySizeException",
        _ => "java/lang/NullPointerException",
    }
}

fn other(alloc: Global, number: u32) -> Result<ClassDef, Fail> {
    match number {
        0 => parent(alloc),
        1 => natives(alloc),
        2 => object(alloc),
        3 => string(alloc),
        4 => Ok(bare(alloc, 1, "java/lang/Throwable", "java/lang/Object")?),
        _ => Ok(bare(alloc, 1, exception(number), "java/lang/Throwable")?),
    }
}

/// A class in front of those that it needs.
fn with_others(alloc: Global, class: ClassDef) -> Result<Seq<ClassDef>, Fail> {
    let mut classes = Seq::new(alloc);
    classes.push(class)?;
    for number in 0..OTHERS {
        classes.push(other(alloc, number)?)?;
    }
    Ok(classes)
}

/// The class `A`, which has an int `x` and this method.
fn class_of(alloc: Global, method: MethodDef) -> Result<ClassDef, Fail> {
    let mut class = bare(alloc, 1, "A", "P")?;
    let ty = primitive_type(0, Primitive::Int);
    add_field(alloc, &mut class, "x", ty)?;
    class.methods.push(method)?;
    Ok(class)
}

/// The set of the class `A` and of the others.
fn set_of(rt: &impl Abort, alloc: Global, method: MethodDef) -> Result<ClassSet, Fail> {
    let class = class_of(alloc, method)?;
    let classes = with_others(alloc, class)?;
    assert!(rt; are_counted(classes.as_slice()));
    Ok(ClassSet::build(alloc, classes)?)
}

/// Where a method fails and by which rule, or `None` where it verifies.
type Verdict = Option<(u32, VerifyRule)>;

fn is_judged(
    rt: &impl Abort,
    alloc: Global,
    method: MethodDef,
    wanted: Verdict,
) -> Result<(), Fail> {
    let set = set_of(rt, alloc, method)?;
    assert!(rt; is_checkable(&set));
    match verify_set(alloc, set) {
        Ok(verified) => {
            assert_eq!(rt; verified.set().len(), OTHERS + 1);
            assert_eq!(rt; wanted, None);
        }
        Err(
            SetVerifyStop::Unverified {
                set,
                method,
                at,
                rule,
            },
        ) => {
            assert_eq!(rt; set.len(), OTHERS + 1);
            assert_eq!(rt; method, MethodId { class: 0, index: 0 });
            assert_eq!(rt; wanted, Some((at, rule)));
        }
        Err(SetVerifyStop::Memory) => assert!(rt; false),
    }
    Ok(())
}

fn main(alloc: Global, code: CodeDef) -> Result<MethodDef, Fail> {
    method(alloc, 9, "main", "([Ljava/lang/String;)V", Some(code))
}

fn is_main_judged(
    rt: &impl Abort,
    alloc: Global,
    code: CodeDef,
    wanted: Verdict,
) -> Result<(), Fail> {
    let main = main(alloc, code)?;
    is_judged(rt, alloc, main, wanted)
}

fn is_constructor_judged(
    rt: &impl Abort,
    alloc: Global,
    code: CodeDef,
    wanted: Verdict,
) -> Result<(), Fail> {
    let init = method(alloc, 1, "<init>", "()V", Some(code))?;
    is_judged(rt, alloc, init, wanted)
}

fn sum(alloc: Global) -> Result<CodeDef, Fail> {
    let steps = [
        Step::Read,
        Step::Read,
        Step::Add,
        Step::Write,
        Step::Return(None),
    ];
    code(alloc, 2, 1, steps.as_slice())
}

fn sum_too_early(alloc: Global) -> Result<CodeDef, Fail> {
    let steps = [
        Step::Read,
        Step::Add,
        Step::Read,
        Step::Write,
        Step::Return(None),
    ];
    code(alloc, 2, 1, steps.as_slice())
}

#[test]
fn a_sum_of_two_bytes(rt: HostRuntime) -> Result<(), Fail> {
    let alloc = rt.alloc();
    is_main_judged(&rt, alloc, sum(alloc)?, None)?;
    is_main_judged(
        &rt,
        alloc,
        sum_too_early(alloc)?,
        Some((1, VerifyRule::Operand)),
    )
}

/// Each instruction has its frame.
#[test]
fn frames_of_a_method(rt: HostRuntime) -> Result<(), Fail> {
    let alloc = rt.alloc();
    let set = set_of(&rt, alloc, main(alloc, sum(alloc)?)?)?;
    let id = MethodId { class: 0, index: 0 };
    assert!(rt; is_checkable(&set));
    assert!(rt; has_code(&set, id));
    let typed = verify_method(alloc, &set, id)?;
    let first = frame(alloc, [Type::Texts].as_slice(), [].as_slice())?;
    assert!(rt; *typed.first() == first);
    assert!(rt; typed.frame(0) == Some(&first));
    assert!(rt; typed.frame(5).is_none());
    Ok(())
}

/// Methods with code have frames in a set that verifies, and natives have none.
#[test]
fn frames_in_a_set(rt: HostRuntime) -> Result<(), Fail> {
    let alloc = rt.alloc();
    let set = set_of(&rt, alloc, main(alloc, sum(alloc)?)?)?;
    let native = MethodId { class: 2, index: 0 };
    assert!(rt; is_checkable(&set));
    assert!(rt; !has_code(&set, native));
    match verify_set(alloc, set) {
        Ok(verified) => {
            assert!(rt; verified.typed(MethodId { class: 0, index: 0 }).is_some());
            assert!(rt; verified.typed(native).is_none());
        }
        Err(_) => assert!(rt; false),
    }
    Ok(())
}

/// One branch to itself.
fn round(alloc: Global) -> Result<CodeDef, Fail> {
    let mut code = code(alloc, 0, 1, [Step::Goto(0)].as_slice())?;
    let frame = frame(alloc, [Type::Texts].as_slice(), [].as_slice())?;
    code.frames.push((0, frame))?;
    Ok(code)
}

/// A long in the locals 1 and 2, and a frame with Top in the place of its first word and this type in that of its second.
fn half_a_long(alloc: Global, second: Type) -> Result<CodeDef, Fail> {
    let steps = [
        Step::Long,
        Step::Store(Kind::Long, 1),
        Step::Nop,
        Step::Return(None),
    ];
    let mut code = code(alloc, 2, 3, steps.as_slice())?;
    let locals = [Type::Texts, Type::Top, second];
    let frame = frame(alloc, locals.as_slice(), [].as_slice())?;
    code.frames.push((2, frame))?;
    Ok(code)
}

/// A method of two words of parameters and one of locals.
fn too_few_locals(alloc: Global) -> Result<MethodDef, Fail> {
    let code = code(alloc, 0, 1, [Step::Return(None)].as_slice())?;
    method(alloc, 9, "f", "(II)V", Some(code))
}

#[test]
fn declared_frames(rt: HostRuntime) -> Result<(), Fail> {
    let alloc = rt.alloc();
    is_main_judged(&rt, alloc, round(alloc)?, None)?;
    is_main_judged(&rt, alloc, half_a_long(alloc, Type::Top)?, None)?;
    let merge = Some((2, VerifyRule::Merge));
    is_main_judged(&rt, alloc, half_a_long(alloc, Type::Int)?, merge)?;
    let shape = Some((0, VerifyRule::Shape));
    is_judged(&rt, alloc, too_few_locals(alloc)?, shape)
}

/// A text in local 1 and an int in its place from instruction 4 on, with a handler from instruction 2 on that finds the
/// text.
fn guarded_text(alloc: Global, end: u32) -> Result<CodeDef, Fail> {
    let steps = [
        Step::Text,
        Step::Store(Kind::Ref, 1),
        Step::Read,
        Step::Store(Kind::Int, 1),
        Step::Load(Kind::Int, 1),
        Step::Write,
        Step::Return(None),
        Step::Pop,
        Step::Return(None),
    ];
    let mut code = code(alloc, 1, 2, steps.as_slice())?;
    guard(&mut code, 2, end, 7)?;
    let locals = [Type::Texts, Type::Text];
    let frame = frame(alloc, locals.as_slice(), [Type::Thrown].as_slice())?;
    code.frames.push((7, frame))?;
    Ok(code)
}

/// Adds a handler of all that is thrown.
fn guard(code: &mut CodeDef, start: u32, end: u32, target: u32) -> Result<(), AllocError> {
    code.handlers.push(Handler {
        start,
        end,
        target,
        caught: None,
    })
}

#[test]
fn handlers(rt: HostRuntime) -> Result<(), Fail> {
    let alloc = rt.alloc();
    is_main_judged(&rt, alloc, guarded_text(alloc, 4)?, None)?;
    let handler = Some((4, VerifyRule::Handler));
    is_main_judged(&rt, alloc, guarded_text(alloc, 5)?, handler)
}

/// An instruction by which code of one word of operands and locals fails at the start, where it stands before a return
/// of nothing.
fn broken(rule: VerifyRule) -> Step {
    match rule {
        VerifyRule::NoFrame => Step::Return(None),
        VerifyRule::Local => Step::Load(Kind::Int, 1),
        VerifyRule::Operand => Step::Store(Kind::Int, 0),
        VerifyRule::Room => Step::Long,
        VerifyRule::Branch => Step::Goto(0),
        _ => Step::Nop,
    }
}

/// Each rule that no other test has.
#[test]
fn rules(rt: HostRuntime) -> Result<(), Fail> {
    let alloc = rt.alloc();
    for (rule, at) in [
        (VerifyRule::NoFrame, 1),
        (VerifyRule::Local, 0),
        (VerifyRule::Operand, 0),
        (VerifyRule::Room, 0),
        (VerifyRule::Branch, 0),
    ] {
        let steps = [broken(rule), Step::Return(None)];
        let code = code(alloc, 1, 1, steps.as_slice())?;
        is_main_judged(&rt, alloc, code, Some((at, rule)))?;
    }
    let steps = [Step::Int, Step::Return(Some(Kind::Int))];
    let result = Some((1, VerifyRule::Result));
    is_main_judged(&rt, alloc, code(alloc, 1, 1, steps.as_slice())?, result)?;
    let end = Some((0, VerifyRule::End));
    let nop = code(alloc, 1, 1, [Step::Nop].as_slice())?;
    is_main_judged(&rt, alloc, nop, end)
}

/// A constructor that puts an int into a field before it calls the other one.
fn put_first(alloc: Global, put: Step) -> Result<CodeDef, Fail> {
    let steps = [
        Step::Load(Kind::Ref, 0),
        Step::Int,
        put,
        Step::Load(Kind::Ref, 0),
        Step::ConstructAbove,
        Step::Return(None),
    ];
    code(alloc, 2, 1, steps.as_slice())
}

/// A constructor with a handler over its call of the other one.
fn guarded_call(alloc: Global) -> Result<CodeDef, Fail> {
    let steps = [
        Step::Load(Kind::Ref, 0),
        Step::ConstructAbove,
        Step::Return(None),
        Step::Throw,
    ];
    let mut code = code(alloc, 1, 1, steps.as_slice())?;
    guard(&mut code, 1, 2, 3)?;
    let frame = frame(alloc, [].as_slice(), [Type::Thrown].as_slice())?;
    code.frames.push((3, frame))?;
    Ok(code)
}

#[test]
fn constructors(rt: HostRuntime) -> Result<(), Fail> {
    let alloc = rt.alloc();
    let nothing = code(alloc, 0, 1, [Step::Return(None)].as_slice())?;
    let init = Some((0, VerifyRule::Init));
    is_constructor_judged(&rt, alloc, nothing, init)?;
    let handler = Some((1, VerifyRule::Handler));
    is_constructor_judged(&rt, alloc, guarded_call(alloc)?, handler)?;
    is_constructor_judged(&rt, alloc, put_first(alloc, Step::PutOwn)?, None)?;
    let operand = Some((2, VerifyRule::Operand));
    is_constructor_judged(&rt, alloc, put_first(alloc, Step::PutAbove)?, operand)
}

/// A new object, on which a constructor is called.
fn made(alloc: Global, construct: Step) -> Result<CodeDef, Fail> {
    let steps = [
        Step::New,
        Step::Dup,
        construct,
        Step::Pop,
        Step::Return(None),
    ];
    code(alloc, 2, 1, steps.as_slice())
}

#[test]
fn new_objects(rt: HostRuntime) -> Result<(), Fail> {
    let alloc = rt.alloc();
    is_main_judged(&rt, alloc, made(alloc, Step::ConstructAbove)?, None)?;
    let init = Some((2, VerifyRule::Init));
    is_main_judged(&rt, alloc, made(alloc, Step::ConstructObject)?, init)
}
